//! The steps of a session.

ghost use Rattle.std.specs.Prelude.{◌≡◌, ◌≢◌, ℕ, ◌<◌, true, false, List, [], ◌∷◌, ◌++◌, length, Option, Some, None, IfOk, IfErr, if◌then◌else◌};
ghost use Rattle.file_model.specs.Tries.{is_odd};
ghost use Rattle.round_model.specs.declared.asks.Ask.TheVariants.{Lock, GiveBack, Done};
ghost use Rattle.round_model.specs.Views.{ViewSeen};
ghost use Rattle.round_model.specs.Refiners.{Refining, pending_ask, after_answer, after_release};
ghost use Rattle.token_words.specs.Changes.{Stays, ChangesOnly};
ghost use Rattle.session_model.specs.Sessions.{is_left_over, least_old, settled, without_flight, without_old};
ghost use Rattle.session_model.specs.Steps.{begun_round, with_round, after_try, try_pairs, IsOfEpochs};
ghost use Rattle.session_locks.specs.Sessions.{with_state, IsSession};
ghost use Rattle.session_locks.specs.Passes.{IsPassOf, HasSameUses};
ghost use Rattle.session_locks.specs.Taken.{asked_of, IsAsking, Starts, GoesOn, TakesStep, Stops, tries_made};

use crate::Stepped;
use crate::sessions::Session;
use cut_refiner::Refiner;
use file_model::is_granted;
use grid_vertex::NoMemory;
use round_model::Ask;
use std::alloc::Global;
use token_words::Tokens;

impl<'m> Session<'m> {
    /// Ends the refused try of the patch.
    pub(super) fn withdraw<T: Tokens>(&mut self, tokens: &mut T, pass: &mut T::Pass, patch: u32)
        requires pass { IsPassOf (T.IsPass tokens.old pass.old) (T.patches tokens.old)
            (T.uses tokens.old pass.old) (T.locks tokens.old pass.old) self.old }
        requires there { self.old.state.flight ≡ Some patch }
        ensures pass { IsPassOf (T.IsPass tokens.new pass.new) (T.patches tokens.new)
            (T.uses tokens.new pass.new) (T.locks tokens.new pass.new) self.new }
        ensures state { self.new ≡ with_state self.old (without_flight self.old.state) }
        ensures number { (T.number pass.new ≡ T.number pass.old)
            × (T.pass_table pass.new ≡ T.pass_table pass.old) }
        ensures words { (T.table tokens.new ≡ T.table tokens.old)
            × (T.patches tokens.new ≡ T.patches tokens.old) }
        ensures tries { T.tells_tries ≡ true → T.tries pass.new ≡ T.tries pass.old }
        ensures epochs { T.tells_epochs ≡ true → Stays (T.epochs tokens.old) (T.epochs tokens.new) }
        ensures use_sets { T.tells_sets ≡ true
            → ChangesOnly (T.number pass.old) (T.session_uses tokens.old)
            (T.session_uses tokens.new) }
        ensures lock_sets { T.tells_sets ≡ true
            → ChangesOnly (T.number pass.old) (T.session_locks tokens.old)
            (T.session_locks tokens.new) }
        ensures pins { T.tells_sets ≡ true → Stays (T.pinned tokens.old) (T.pinned tokens.new) }
    {
        let _flight = self.flight;
        tokens.withdraw(pass, patch);
        self.flight = None;
    }

    /// A printed round ends, and its locks are old ones then.
    fn settle(&mut self)
        ensures state { self.new ≡ with_state self.old (settled self.old.state) }
        ensures same { HasSameUses self.old.state self.new.state }
    {
        if self.is_printed {
            self.end_round();
        }
    }

    /// The least patch with an old lock.
    pub(super) fn least_old(&self) -> Option<u32>
        ensures { result ≡ least_old self.now.state }
    {
        if self.round.is_some() {
            return None;
        }
        match self.locked.least() {
            Some(patch) => Some(patch as u32),
            None => None,
        }
    }

    /// Gives the old lock of the patch back.
    pub(super) fn unlock_old<T: Tokens>(&mut self, tokens: &mut T, pass: &mut T::Pass, patch: u32)
        requires pass { IsPassOf (T.IsPass tokens.old pass.old) (T.patches tokens.old)
            (T.uses tokens.old pass.old) (T.locks tokens.old pass.old) self.old }
        requires there { least_old self.old.state ≡ Some patch }
        requires no_flight { self.old.state.flight ≡ None }
        requires going { self.old.state.printed ≡ false }
        ensures pass { IsPassOf (T.IsPass tokens.new pass.new) (T.patches tokens.new)
            (T.uses tokens.new pass.new) (T.locks tokens.new pass.new) self.new }
        ensures state { self.new ≡ with_state self.old (without_old self.old.state patch) }
        ensures number { (T.number pass.new ≡ T.number pass.old)
            × (T.pass_table pass.new ≡ T.pass_table pass.old) }
        ensures words { (T.table tokens.new ≡ T.table tokens.old)
            × (T.patches tokens.new ≡ T.patches tokens.old) }
        ensures tries { T.tells_tries ≡ true → T.tries pass.new ≡ T.tries pass.old }
        ensures epochs { T.tells_epochs ≡ true → Stays (T.epochs tokens.old) (T.epochs tokens.new) }
        ensures use_sets { T.tells_sets ≡ true
            → ChangesOnly (T.number pass.old) (T.session_uses tokens.old)
            (T.session_uses tokens.new) }
        ensures lock_sets { T.tells_sets ≡ true
            → ChangesOnly (T.number pass.old) (T.session_locks tokens.old)
            (T.session_locks tokens.new) }
        ensures pins { T.tells_sets ≡ true → Stays (T.pinned tokens.old) (T.pinned tokens.new) }
    {
        let _flight = self.flight;
        tokens.unlock(pass, patch);
        self.locked.unlock_least(patch as usize);
    }

    /// The round of the view, at its start.
    fn begun(&self, alloc: Global) -> Result<Refiner<'m>, NoMemory>
        requires view { (view : ViewSeen) × (self.now.state.view ≡ Some view) }
        ensures { (view : ViewSeen) → self.now.state.view ≡ Some view
            → IfOk result (λ r. r ≡ begun_round self.now.mesh view) }
    {
        match &self.view {
            Some(view) => Refiner::begin(alloc, self.mesh, view, view.limit()),
            None => unreachable!(),
        }
    }

    /// Begins a round. Condition: there is none, and no old lock is left.
    fn begin(&mut self, alloc: Global) -> Result<(), NoMemory>
        requires view { (view : ViewSeen) × (self.old.state.view ≡ Some view) }
        requires no_round { self.old.state.round ≡ None }
        requires no_old { (p : ℕ) → is_left_over self.old.state p ≡ false }
        requires no_flight { self.old.state.flight ≡ None }
        requires going { self.old.state.printed ≡ false }
        ensures begun { (view : ViewSeen) → self.old.state.view ≡ Some view
            → IfOk result
            (λ _.
            self.new
            ≡ with_state self.old
            (with_round self.old.state (begun_round self.old.mesh view))) }
        ensures none { IfErr result (λ _. self.new ≡ self.old) }
        ensures same { HasSameUses self.old.state self.new.state }
    {
        let round = self.begun(alloc)?;
        self.round = Some(round);
        Ok(())
    }

    /// What the round asks for.
    fn ask(&self) -> Ask
        ensures { result ≡ asked_of self.now.state }
    {
        match &self.round {
            Some(round) => round.ask(),
            None => Ask::Done,
        }
    }

    /// Tries the patch that the round asks for, and returns the epoch that answers.
    fn try_patch<T: Tokens>(&mut self, tokens: &mut T, pass: &mut T::Pass, patch: u32) -> u32
        requires pass { IsPassOf (T.IsPass tokens.old pass.old) (T.patches tokens.old)
            (T.uses tokens.old pass.old) (T.locks tokens.old pass.old) self.old }
        requires asks { asked_of self.old.state ≡ Lock patch }
        requires no_flight { self.old.state.flight ≡ None }
        requires going { self.old.state.printed ≡ false }
        ensures pass { IsPassOf (T.IsPass tokens.new pass.new) (T.patches tokens.new)
            (T.uses tokens.new pass.new) (T.locks tokens.new pass.new) self.new }
        ensures state { (r : Refining) → self.old.state.round ≡ Some r
            → self.new ≡ with_state self.old (after_try self.old.state r patch result) }
        ensures number { (T.number pass.new ≡ T.number pass.old)
            × (T.pass_table pass.new ≡ T.pass_table pass.old) }
        ensures words { (T.table tokens.new ≡ T.table tokens.old)
            × (T.patches tokens.new ≡ T.patches tokens.old) }
        ensures tries { T.tells_tries ≡ true
            → T.tries pass.new ≡ T.tries pass.old ++ (patch, result) ∷ [] }
        ensures epoch { T.tells_epochs ≡ true → result ≡ T.epochs tokens.old patch }
        ensures epochs { T.tells_epochs ≡ true → Stays (T.epochs tokens.old) (T.epochs tokens.new) }
        ensures use_sets { T.tells_sets ≡ true
            → ChangesOnly (T.number pass.old) (T.session_uses tokens.old)
            (T.session_uses tokens.new) }
        ensures lock_sets { T.tells_sets ≡ true
            → ChangesOnly (T.number pass.old) (T.session_locks tokens.old)
            (T.session_locks tokens.new) }
        ensures pins { T.tells_sets ≡ true → Stays (T.pinned tokens.old) (T.pinned tokens.new) }
    {
        let _flight = self.flight;
        let epoch = tokens.try_lock(pass, patch).epoch;
        tell(&mut self.round, epoch);
        self.locked.set(patch as usize, is_granted(epoch));
        self.flight = refused(patch, epoch);
        epoch
    }

    /// Gives the lock back that the round asks for.
    fn give_back<T: Tokens>(&mut self, tokens: &mut T, pass: &mut T::Pass, patch: u32)
        requires pass { IsPassOf (T.IsPass tokens.old pass.old) (T.patches tokens.old)
            (T.uses tokens.old pass.old) (T.locks tokens.old pass.old) self.old }
        requires asks { asked_of self.old.state ≡ GiveBack patch }
        requires no_flight { self.old.state.flight ≡ None }
        requires going { self.old.state.printed ≡ false }
        ensures pass { IsPassOf (T.IsPass tokens.new pass.new) (T.patches tokens.new)
            (T.uses tokens.new pass.new) (T.locks tokens.new pass.new) self.new }
        ensures state { (r : Refining) → self.old.state.round ≡ Some r
            → self.new ≡ with_state self.old (with_round self.old.state (after_release r)) }
        ensures number { (T.number pass.new ≡ T.number pass.old)
            × (T.pass_table pass.new ≡ T.pass_table pass.old) }
        ensures words { (T.table tokens.new ≡ T.table tokens.old)
            × (T.patches tokens.new ≡ T.patches tokens.old) }
        ensures tries { T.tells_tries ≡ true → T.tries pass.new ≡ T.tries pass.old }
        ensures epochs { T.tells_epochs ≡ true → Stays (T.epochs tokens.old) (T.epochs tokens.new) }
        ensures use_sets { T.tells_sets ≡ true
            → ChangesOnly (T.number pass.old) (T.session_uses tokens.old)
            (T.session_uses tokens.new) }
        ensures lock_sets { T.tells_sets ≡ true
            → ChangesOnly (T.number pass.old) (T.session_locks tokens.old)
            (T.session_locks tokens.new) }
        ensures pins { T.tells_sets ≡ true → Stays (T.pinned tokens.old) (T.pinned tokens.new) }
    {
        let _flight = self.flight;
        tokens.unlock(pass, patch);
        tell_given(&mut self.round);
        self.locked.set(patch as usize, false);
    }

    /// A round begins, if there is none. Condition: no old lock is left.
    fn start(&mut self, alloc: Global) -> Result<(), NoMemory>
        requires view { (view : ViewSeen) × (self.old.state.view ≡ Some view) }
        requires no_old { (p : ℕ) → is_left_over self.old.state p ≡ false }
        requires no_flight { self.old.state.flight ≡ None }
        requires going { self.old.state.printed ≡ false }
        ensures round { IfOk result (λ _. Starts self.old self.new) }
        ensures none { IfErr result (λ _. (self.new ≡ self.old) × (self.old.state.round ≡ None)) }
        ensures same { HasSameUses self.old.state self.new.state }
    {
        if self.round.is_none() {
            self.begin(alloc)?;
        }
        Ok(())
    }

    /// The round goes on: what it asks for is done.
    fn go_on<T: Tokens>(&mut self, tokens: &mut T, pass: &mut T::Pass) -> Stepped
        requires pass { IsPassOf (T.IsPass tokens.old pass.old) (T.patches tokens.old)
            (T.uses tokens.old pass.old) (T.locks tokens.old pass.old) self.old }
        requires round { (r : Refining) × (self.old.state.round ≡ Some r) }
        requires no_flight { self.old.state.flight ≡ None }
        requires going { self.old.state.printed ≡ false }
        ensures pass { IsPassOf (T.IsPass tokens.new pass.new) (T.patches tokens.new)
            (T.uses tokens.new pass.new) (T.locks tokens.new pass.new) self.new }
        ensures step { GoesOn self.old result self.new }
        ensures number { (T.number pass.new ≡ T.number pass.old)
            × (T.pass_table pass.new ≡ T.pass_table pass.old) }
        ensures words { (T.table tokens.new ≡ T.table tokens.old)
            × (T.patches tokens.new ≡ T.patches tokens.old) }
        ensures tries { T.tells_tries ≡ true
            → T.tries pass.new ≡ T.tries pass.old ++ try_pairs result }
        ensures epoch { T.tells_epochs ≡ true → IsOfEpochs (T.epochs tokens.old) result }
        ensures epochs { T.tells_epochs ≡ true → Stays (T.epochs tokens.old) (T.epochs tokens.new) }
        ensures use_sets { T.tells_sets ≡ true
            → ChangesOnly (T.number pass.old) (T.session_uses tokens.old)
            (T.session_uses tokens.new) }
        ensures lock_sets { T.tells_sets ≡ true
            → ChangesOnly (T.number pass.old) (T.session_locks tokens.old)
            (T.session_locks tokens.new) }
        ensures pins { T.tells_sets ≡ true → Stays (T.pinned tokens.old) (T.pinned tokens.new) }
    {
        match self.ask() {
            Ask::Lock(patch) => Stepped::Tried(patch, self.try_patch(tokens, pass, patch)),
            Ask::GiveBack(patch) => {
                self.give_back(tokens, pass, patch);
                Stepped::GaveBack(patch)
            }
            Ask::Done => Stepped::Done,
        }
    }

    /// Takes one step. Condition: a view is set, and the uses and the locks of the pass are the session's.
    ///
    /// NoMemory comes only where a round was to begin: there is none then, and nothing is locked or in flight.
    pub fn step<T: Tokens>(
        &mut self,
        alloc: Global,
        tokens: &mut T,
        pass: &mut T::Pass,
    ) -> Result<Stepped, NoMemory>
        requires pass { IsPassOf (T.IsPass tokens.old pass.old) (T.patches tokens.old)
            (T.uses tokens.old pass.old) (T.locks tokens.old pass.old) self.old }
        requires view { (view : ViewSeen) × (self.old.state.view ≡ Some view) }
        ensures pass { IsPassOf (T.IsPass tokens.new pass.new) (T.patches tokens.new)
            (T.uses tokens.new pass.new) (T.locks tokens.new pass.new) self.new }
        ensures step { IfOk result (λ did. TakesStep self.old did self.new) }
        ensures none { IfErr result (λ _. Stops self.old self.new) }
        ensures facts { IsSession self.new }
        ensures number { (T.number pass.new ≡ T.number pass.old)
            × (T.pass_table pass.new ≡ T.pass_table pass.old) }
        ensures words { (T.table tokens.new ≡ T.table tokens.old)
            × (T.patches tokens.new ≡ T.patches tokens.old) }
        ensures tries { T.tells_tries ≡ true
            → T.tries pass.new ≡ T.tries pass.old ++ tries_made result }
        ensures epoch { T.tells_epochs ≡ true → IfOk result (IsOfEpochs (T.epochs tokens.old)) }
        ensures epochs { T.tells_epochs ≡ true → Stays (T.epochs tokens.old) (T.epochs tokens.new) }
        ensures use_sets { T.tells_sets ≡ true
            → ChangesOnly (T.number pass.old) (T.session_uses tokens.old)
            (T.session_uses tokens.new) }
        ensures lock_sets { T.tells_sets ≡ true
            → ChangesOnly (T.number pass.old) (T.session_locks tokens.old)
            (T.session_locks tokens.new) }
        ensures pins { T.tells_sets ≡ true → Stays (T.pinned tokens.old) (T.pinned tokens.new) }
    {
        if let Some(patch) = self.flight {
            self.withdraw(tokens, pass, patch);
            let _frames = self.frames;
            return Ok(Stepped::Withdrew(patch));
        }
        self.settle();
        if let Some(patch) = self.least_old() {
            self.unlock_old(tokens, pass, patch);
            let _frames = self.frames;
            return Ok(Stepped::Unlocked(patch));
        }
        self.start(alloc)?;
        let did = self.go_on(tokens, pass);
        let _frames = self.frames;
        Ok(did)
    }
}

/// Tells the round the epoch that answers its try.
fn tell(round: &mut Option<Refiner<'_>>, epoch: u32)
    requires { (patch : ℕ) × IsAsking round.old (Lock patch) }
    ensures { (r : Refining) (patch : ℕ) → round.old ≡ Some r → pending_ask r ≡ Lock patch
        → round.new ≡ Some (after_answer r patch epoch) }
{
    if let Some(round) = round {
        round.tell(epoch);
    }
}

/// Tells the round that the lock that it asks for was given back.
fn tell_given(round: &mut Option<Refiner<'_>>)
    requires { (patch : ℕ) × IsAsking round.old (GiveBack patch) }
    ensures { (r : Refining) → round.old ≡ Some r → round.new ≡ Some (after_release r) }
{
    if let Some(round) = round {
        round.gave_back();
    }
}

/// The patch of a refused try.
fn refused(patch: u32, epoch: u32) -> Option<u32>
    ensures { result ≡ (if is_odd epoch then None else Some patch) }
{
    if is_granted(epoch) { None } else { Some(patch) }
}
