//! The journal of two patches that come at once, and what a tier takes and gives up by its wishes: the changes that
//! the tests make, each where it may be made.

ghost use Rattle.std.specs.Prelude.{◌≡◌, ◌+◌, ◌≤◌, Some, None, [], true, false, length, slice_get, slice_index};
ghost use Rattle.tier_model.specs.declared.turns.Turn.TheVariants.{Reserve, Got};
ghost use Rattle.tier_model.specs.Places.{is_marked};
ghost use Rattle.tier_model.specs.Tiers.{load, size, places, IsBodyFor};
ghost use Rattle.tier_budget.specs.TierView.{Allows};
ghost use Rattle.view_outside.specs.Files.{HasFile};

mod coming_at_once;
mod ranking;

use super::Tier;
use crate::coming::{comes, first_patch, first_without_body};
use crate::marks::has_mark;
use crate::{Abort, Coming, Turn, Wishes};
use patch_file::{Body, Index, ReadRefusal, read_body, read_index};
use sample_files::strip;
use std::alloc::Global;
use std::default::MadeWith;
use std::process;
use std::sync::Arc;
use std::test::Fail;
use view_outside::{MemoryStore, NamedFile, Store};

/// The wish of each patch of the strip.
#[derive(Drop)]
struct Listed {
    wishes: [u64; 7],
}

impl Wishes for Listed {
    ghost patches = { λ listed. length listed.wishes };

    ghost wish_of = { λ listed patch. slice_index listed.wishes patch };

    ghost version_of = { λ _. 1 };

    fn wish(&self, patch: u32) -> u64 {
        self.wishes[patch as usize]
    }

    fn version(&self) -> u64 {
        1
    }
}

/// Reads the index and the bodies of the file of number 0.
fn read_all<S: Store>(alloc: Global, store: &mut S) -> Result<(Index, Vec<Arc<Body>>), ReadRefusal>
    requires { HasFile (S.files store.old) 0 }
{
    let index = read_index(alloc, store, 0)?;
    let mut bodies = Vec::new(alloc);
    for patch in 0..index.patch_count() {
        let body = read_body(alloc, &index, store, 0, patch)?;
        bodies.push(Arc::new(alloc, body)?)?;
    }
    Ok((index, bodies))
}

/// The index and the bodies of the strip.
fn strip_bodies(alloc: Global) -> Result<(Index, Vec<Arc<Body>>), Fail> {
    let file = NamedFile::new(String::from_str(alloc, "T")?, strip().to_vec(alloc)?);
    let mut store = MemoryStore::new(vec![in alloc; file]?, Vec::new(alloc), Vec::new(alloc));
    Ok(read_all(alloc, &mut store)?)
}

/// Whether the patch may be reserved, but for the journal's place.
fn may_reserve(tier: &Tier, patch: u32) -> bool
    ensures needs { result ≡ true → Allows tier.now.state (Reserve patch) }
    ensures room { result ≡ true
        → load tier.now.state + size tier.now.state patch ≤ tier.now.state.budget }
{
    if patch as usize >= tier.sizes.len() {
        return false;
    }
    if tier.coming.len() >= tier.width as usize {
        return false;
    }
    if tier.held(patch).is_some() {
        return false;
    }
    if comes(&tier.coming, patch) {
        return false;
    }
    tier.sizes[patch as usize] <= tier.budget - tier.load
}

/// Whether the body may be pinned.
fn may_pin(tier: &Tier, body: &Body) -> bool
    ensures away { result ≡ true → slice_get tier.now.state.held body.now.patch ≡ Some None }
    ensures begins { result ≡ true → tier.now.state.journal ≡ [] }
    ensures body { result ≡ true → IsBodyFor tier.now.state.sizes body.now.patch body.now }
    ensures room { result ≡ true
        → load tier.now.state + length body.now.bytes ≤ tier.now.state.budget }
{
    let patch = body.patch();
    if patch as usize >= tier.sizes.len() {
        return false;
    }
    if tier.held(patch).is_some() {
        return false;
    }
    let Some(journal) = tier.journal() else {
        return false;
    };
    if !journal.is_empty() {
        return false;
    }
    if body.size() != tier.sizes[patch as usize] {
        return false;
    }
    body.size() <= tier.budget - tier.load
}

/// Whether the body may arrive, but for the journal's place.
fn may_arrive(tier: &Tier, body: &Body) -> bool
    ensures needs { result ≡ true → Allows tier.now.state (Got body.now.patch) }
    ensures body { result ≡ true → IsBodyFor tier.now.state.sizes body.now.patch body.now }
{
    let patch = body.patch();
    if patch as usize >= tier.sizes.len() {
        return false;
    }
    match first_without_body(&tier.coming) {
        Some(first) => first == patch && body.size() == tier.sizes[patch as usize],
        None => false,
    }
}

/// Whether the patch may leave, but for the journal's place.
fn may_leave(tier: &Tier, patch: u32) -> bool
    ensures idle { result ≡ true → tier.now.state.coming ≡ [] }
    ensures held { result ≡ true → slice_get (places tier.now.state).held patch ≡ Some true }
    ensures free { result ≡ true → is_marked tier.now.state.pinned patch ≡ false }
{
    if patch as usize >= tier.sizes.len() {
        return false;
    }
    if !tier.coming.is_empty() {
        return false;
    }
    if has_mark(&tier.pinned, patch) {
        return false;
    }
    match tier.held(patch) {
        Some(_) => true,
        None => false,
    }
}

fn pin(tier: &mut Tier, body: Arc<Body>) -> Result<(), Fail> {
    if !may_pin(tier, &body) {
        return Err(Fail::from("not to be pinned"));
    }
    tier.pin(body);
    Ok(())
}

fn reserve(tier: &mut Tier, patch: u32) -> Result<(), Fail> {
    tier.make_place()?;
    if !may_reserve(tier, patch) {
        return Err(Fail::from("not to be reserved"));
    }
    tier.reserve(patch);
    Ok(())
}

fn arrive(tier: &mut Tier, body: Arc<Body>) -> Result<(), Fail> {
    tier.make_place()?;
    if !may_arrive(tier, &body) {
        return Err(Fail::from("not to arrive"));
    }
    tier.arrive(body);
    Ok(())
}

fn commit(tier: &mut Tier) -> Result<(), Fail> {
    tier.make_place()?;
    if first_without_body(tier.coming()).is_some() || first_patch(tier.coming()).is_none() {
        return Err(Fail::from("not to be committed"));
    }
    tier.commit();
    Ok(())
}

fn abort(tier: &mut Tier, why: Abort) -> Result<(), Fail> {
    tier.make_place()?;
    if first_without_body(tier.coming()).is_none() {
        return Err(Fail::from("nothing to abort"));
    }
    tier.abort(why);
    Ok(())
}

fn drop_held(tier: &mut Tier, patch: u32) -> Result<(), Fail> {
    tier.make_place()?;
    if !may_leave(tier, patch) {
        return Err(Fail::from("not to leave"));
    }
    tier.drop_held(patch);
    Ok(())
}

fn rank(tier: &mut Tier, wishes: [u64; 7]) -> Result<(), Fail> {
    let listed = Listed { wishes };
    if tier.sizes.len() > 7 {
        return Err(Fail::from("more patches"));
    }
    tier.rank(&listed);
    tier.renew(listed.version());
    Ok(())
}

fn least_held(tier: &Tier, below: u32) -> Option<u32> {
    if below as usize >= tier.sizes.len() {
        return None;
    }
    tier.least_held(below)
}

/// A tier that doesn't keep its journal does the same, and tells none.
#[test]
fn a_silent_tier(rt: HostRuntime) -> Result<(), Fail> {
    let alloc = rt.alloc();
    let (index, _) = strip_bodies(alloc)?;
    let mut tier = Tier::silent(alloc, &index, 240, 2)?;
    reserve(&mut tier, 2)?;
    assert_eq!(rt; (tier.load(), tier.journal()), (60, None));
    Ok(())
}

#[test]
fn a_tier_of_no_patches(rt: HostRuntime) -> Result<(), Fail> {
    let mut tier = Tier::made_with(rt.alloc());
    assert_eq!(rt;
        (
            tier.load(),
            tier.held_count(),
            tier.greatest_missing(|_| true)
        ),
        (0, 0, None)
    );
    Ok(())
}
