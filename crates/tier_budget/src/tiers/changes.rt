//! The changes of a tier.

ghost use Rattle.std.specs.Prelude.{◌≡◌, ◌+◌, ◌<◌, ◌≤◌, [], Some, None, length, slice_get, slice_index, IsSome, IfSome};
ghost use Rattle.std.specs.Arc.{arc_value};
ghost use Rattle.tier_model.specs.declared.turns.Turn.TheVariants.{Reserve, Evict, Got};
ghost use Rattle.tier_model.specs.Places.{first_coming, first_bare};
ghost use Rattle.tier_model.specs.Tiers.{count, load, size, IsBodyFor, IsTier};
ghost use Rattle.tier_model.specs.Changes.{reserved, arrived, aborted, committed, dropped, passed_over, calmed, renewed, ranked, with_pin};
ghost use Rattle.tier_budget.specs.TierView.{Allows};

use super::Tier;
use crate::aside::{entry_of, put_aside};
use crate::coming::{first_patch, first_without_body, give_body, take_out};
use crate::leaving::{put_back, rank_leaving, rank_to_leave};
use crate::missing::{rank_missing, rank_of_missing, seek_again};
use crate::wishes::{Wishes, copy_wishes};
use patch_file::Body;
use std::sync::Arc;
use tier_model::{Abort, Coming, Turn};

impl Tier {
    /// Holds the body's patch from now on, and never gives it up. Condition: the body is one of the
    /// tier's index, its patch is not held, nothing comes, the journal is empty, and the body fits.
    pub fn pin(&mut self, body: Arc<Body>)
        requires away { slice_get self.old.state.held body.value.patch ≡ Some None }
        requires begins { self.old.state.journal ≡ [] }
        requires body { IsBodyFor self.old.state.sizes body.value.patch body.value }
        requires room { load self.old.state + length body.value.bytes ≤ self.old.state.budget }
        ensures state { self.new.state ≡ with_pin self.old.state body.value }
        ensures kept { IsTier self.new.state }
        ensures spare { self.new.spare ≡ self.old.spare }
        ensures records { self.new.records ≡ self.old.records }
    {
        let patch = body.patch();
        let size = body.size();
        self.held[patch as usize] = Some(body);
        self.holds.insert(patch);
        self.pinned[patch as usize] = true;
        self.missing.set(patch, None);
        self.held_count += 1;
        self.load += size;
        self.pinned_bytes += size;
    }

    /// The patch comes from now on, as the last and without a body. Condition: fewer come than the tier
    /// is wide, the patch is neither held nor coming, its body fits, and the journal has a place.
    pub fn reserve(&mut self, patch: u32)
        requires needs { Allows self.old.state (Reserve patch) }
        requires room { load self.old.state + size self.old.state patch ≤ self.old.state.budget }
        requires place { 1 ≤ self.old.spare }
        ensures state { self.new.state ≡ reserved self.old.state patch }
        ensures kept { IsTier self.new.state }
        ensures spare { self.new.spare + 1 ≡ self.old.spare }
        ensures records { self.new.records ≡ self.old.records }
    {
        self.load += self.sizes[patch as usize];
        self.coming.push_reserved(Coming {
            patch,
            has_body: false,
        });
        self.missing.set(patch, None);
        self.journal.push_reserved(Turn::Reserve(patch));
    }

    /// The body came. Condition: its patch is the first of those that come without a body, it is one of
    /// the tier's index, and the journal has a place.
    pub fn arrive(&mut self, body: Arc<Body>)
        requires needs { Allows self.old.state (Got body.value.patch) }
        requires body { IsBodyFor self.old.state.sizes body.value.patch body.value }
        requires place { 1 ≤ self.old.spare }
        ensures state { self.new.state ≡ arrived self.old.state body.value.patch body.value }
        ensures kept { IsTier self.new.state }
        ensures spare { self.new.spare + 1 ≡ self.old.spare }
        ensures records { self.new.records ≡ self.old.records }
    {
        let patch = body.patch();
        self.came[patch as usize] = Some(body);
        give_body(&mut self.coming, patch);
        self.journal.push_reserved(Turn::Got(patch));
    }

    /// The first patch that comes is held from now on. Condition: a patch comes, all that come have
    /// bodies, and the journal has a place.
    pub fn commit(&mut self)
        requires comes { IsSome (first_coming self.old.state.coming) }
        requires bodies { first_bare self.old.state.coming ≡ None }
        requires place { 1 ≤ self.old.spare }
        ensures state { IfSome (first_coming self.old.state.coming)
            (λ p. self.new.state ≡ committed self.old.state p) }
        ensures kept { IsTier self.new.state }
        ensures spare { self.new.spare + 1 ≡ self.old.spare }
        ensures records { self.new.records ≡ self.old.records }
    {
        let patch = match first_patch(&self.coming) {
            Some(patch) => patch,
            None => unreachable!(),
        };
        let body = self.came[patch as usize].take();
        self.held[patch as usize] = body;
        self.holds.insert(patch);
        self.held_count += 1;
        take_out(&mut self.coming, patch);
        let is_passed = self.passed.has(patch);
        let rank = rank_to_leave(&self.held, &self.pinned, is_passed, &self.wishes, patch);
        self.leaving.set(patch, rank);
        self.journal.push_reserved(Turn::Commit(patch));
    }

    /// The first patch that comes without a body comes no more, for this reason. Condition: there is one,
    /// and the journal has a place.
    pub fn abort(&mut self, why: Abort)
        requires bare { IsSome (first_bare self.old.state.coming) }
        requires place { 1 ≤ self.old.spare }
        ensures state { IfSome (first_bare self.old.state.coming)
            (λ p. self.new.state ≡ aborted self.old.state p why) }
        ensures kept { IsTier self.new.state }
        ensures spare { self.new.spare + 1 ≡ self.old.spare }
        ensures records { self.new.records ≡ self.old.records }
    {
        let patch = match first_without_body(&self.coming) {
            Some(patch) => patch,
            None => unreachable!(),
        };
        self.load -= self.sizes[patch as usize];
        take_out(&mut self.coming, patch);
        put_aside(&mut self.aside, patch, why);
        let is_aside = self.aside.has(patch);
        let rank = rank_of_missing(
            &self.wishes,
            &self.base,
            &self.held,
            &self.coming,
            is_aside,
            patch,
        );
        self.missing.set(patch, rank);
        self.journal.push_reserved(entry_of(patch, why));
    }

    /// The patch is not held any more. Condition: it is held and not pinned, nothing comes, and the
    /// journal has a place.
    pub fn drop_held(&mut self, patch: u32)
        requires needs { Allows self.old.state (Evict patch) }
        requires place { 1 ≤ self.old.spare }
        ensures state { self.new.state ≡ dropped self.old.state patch }
        ensures kept { IsTier self.new.state }
        ensures spare { self.new.spare + 1 ≡ self.old.spare }
        ensures records { self.new.records ≡ self.old.records }
    {
        self.held[patch as usize] = None;
        self.holds.remove(patch);
        self.held_count -= 1;
        self.load -= self.sizes[patch as usize];
        self.leaving.set(patch, None);
        let is_aside = self.aside.has(patch);
        let rank = rank_of_missing(
            &self.wishes,
            &self.base,
            &self.held,
            &self.coming,
            is_aside,
            patch,
        );
        self.missing.set(patch, rank);
        self.journal.push_reserved(Turn::Evict(patch));
    }

    /// The patch was passed over, since it was in use.
    pub fn pass_over(&mut self, patch: u32)
        requires { patch < count self.old.state }
        ensures state { self.new.state ≡ passed_over self.old.state patch }
        ensures kept { IsTier self.new.state }
        ensures spare { self.new.spare ≡ self.old.spare }
        ensures records { self.new.records ≡ self.old.records }
    {
        self.passed.mark(patch);
        self.leaving.set(patch, None);
    }

    /// No patch was passed over.
    pub fn calm(&mut self)
        ensures state { self.new.state ≡ calmed self.old.state }
        ensures kept { IsTier self.new.state }
        ensures spare { self.new.spare ≡ self.old.spare }
        ensures records { self.new.records ≡ self.old.records }
    {
        put_back(
            &mut self.leaving,
            self.passed.listed(),
            &self.held,
            &self.pinned,
            &self.wishes,
        );
        self.passed.clear();
    }

    /// No patch was passed over or put aside since this version of the wishes.
    pub fn renew(&mut self, version: u64)
        ensures state { self.new.state ≡ renewed self.old.state version }
        ensures kept { IsTier self.new.state }
        ensures spare { self.new.spare ≡ self.old.spare }
        ensures records { self.new.records ≡ self.old.records }
    {
        self.calm();
        self.version = version;
        seek_again(
            &mut self.missing,
            self.aside.listed(),
            &self.wishes,
            &self.base,
            &self.held,
            &self.coming,
        );
        self.aside.clear();
    }

    /// Keeps the wish of each patch, by which patches rank from now on.
    pub fn rank<W: Wishes>(&mut self, wishes: &W)
        requires { count self.old.state ≤ W.patches wishes.now }
        ensures state { self.new.state ≡ ranked self.old.state (W.wish_of wishes.now) }
        ensures kept { IsTier self.new.state }
        ensures spare { self.new.spare ≡ self.old.spare }
        ensures records { self.new.records ≡ self.old.records }
    {
        copy_wishes(&mut self.wishes, wishes);
        rank_leaving(
            &mut self.leaving,
            &self.held,
            &self.pinned,
            &self.passed,
            &self.wishes,
        );
        rank_missing(
            &mut self.missing,
            &self.wishes,
            &self.base,
            &self.held,
            &self.coming,
            &self.aside,
        );
    }
}
