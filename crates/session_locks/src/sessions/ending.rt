//! Steps to the end: of a round, or of all uses.

ghost use Rattle.std.specs.Prelude.{◌≡◌, ℕ, Bool, true, false, List, [], ◌++◌, Option, Some, None};
ghost use Rattle.round_model.specs.Views.{ViewSeen};
ghost use Rattle.token_words.specs.Changes.{Stays, ChangesOnly};
ghost use Rattle.session_model.specs.Freeing.{unlocks_in};
ghost use Rattle.session_locks.specs.Sessions.{IsSession};
ghost use Rattle.session_locks.specs.Passes.{IsPassOf};
ghost use Rattle.session_locks.specs.Taken.{TakesSteps, TakesFreeStep, TakesFreeSteps};

use crate::Stepped;
use crate::sessions::Session;
use grid_vertex::NoMemory;
use std::alloc::Global;
use token_words::Tokens;

impl<'m> Session<'m> {
    /// Takes steps until the round is done. Condition: as for `step`.
    ///
    /// After NoMemory the steps that were made stay, and there is no round; nothing is locked or in flight.
    pub fn finish<T: Tokens>(
        &mut self,
        alloc: Global,
        tokens: &mut T,
        pass: &mut T::Pass,
    ) -> Result<(), NoMemory>
        requires pass { IsPassOf (T.IsPass tokens.old pass.old) (T.patches tokens.old)
            (T.uses tokens.old pass.old) (T.locks tokens.old pass.old) self.old }
        requires view { (view : ViewSeen) × (self.old.state.view ≡ Some view) }
        ensures pass { IsPassOf (T.IsPass tokens.new pass.new) (T.patches tokens.new)
            (T.uses tokens.new pass.new) (T.locks tokens.new pass.new) self.new }
        ensures steps { TakesSteps T.tells_epochs (T.epochs tokens.old) T.tells_tries
            (T.tries pass.old) (T.tries pass.new) self.old result self.new }
        ensures facts { IsSession self.new }
        ensures number { (T.number pass.new ≡ T.number pass.old)
            × (T.pass_table pass.new ≡ T.pass_table pass.old) }
        ensures words { (T.table tokens.new ≡ T.table tokens.old)
            × (T.patches tokens.new ≡ T.patches tokens.old) }
        ensures epochs { T.tells_epochs ≡ true → Stays (T.epochs tokens.old) (T.epochs tokens.new) }
        ensures use_sets { T.tells_sets ≡ true
            → ChangesOnly (T.number pass.old) (T.session_uses tokens.old)
            (T.session_uses tokens.new) }
        ensures lock_sets { T.tells_sets ≡ true
            → ChangesOnly (T.number pass.old) (T.session_locks tokens.old)
            (T.session_locks tokens.new) }
        ensures pins { T.tells_sets ≡ true → Stays (T.pinned tokens.old) (T.pinned tokens.new) }
    {
        let _frames = self.frames;
        'steps: loop {
            let did = self.step(alloc, tokens, pass)?;
            if let Stepped::Done = did {
                return Ok(());
            }
        }
    }

    /// Takes steps towards no use until there is none, and returns how many old locks were given back. The view and
    /// the count of frames stay.
    pub fn free_all<T: Tokens>(&mut self, tokens: &mut T, pass: &mut T::Pass) -> u64
        requires pass { IsPassOf (T.IsPass tokens.old pass.old) (T.patches tokens.old)
            (T.uses tokens.old pass.old) (T.locks tokens.old pass.old) self.old }
        ensures pass { IsPassOf (T.IsPass tokens.new pass.new) (T.patches tokens.new)
            (T.uses tokens.new pass.new) (T.locks tokens.new pass.new) self.new }
        ensures steps { TakesFreeSteps self.old result self.new }
        ensures facts { IsSession self.new }
        ensures number { (T.number pass.new ≡ T.number pass.old)
            × (T.pass_table pass.new ≡ T.pass_table pass.old) }
        ensures words { (T.table tokens.new ≡ T.table tokens.old)
            × (T.patches tokens.new ≡ T.patches tokens.old) }
        ensures tries { T.tells_tries ≡ true → T.tries pass.new ≡ T.tries pass.old }
        ensures epochs { T.tells_epochs ≡ true → Stays (T.epochs tokens.old) (T.epochs tokens.new) }
        ensures use_sets { T.tells_sets ≡ true
            → ChangesOnly (T.number pass.old) (T.session_uses tokens.old)
            (T.session_uses tokens.new) }
        ensures lock_sets { T.tells_sets ≡ true
            → ChangesOnly (T.number pass.old) (T.session_locks tokens.old)
            (T.session_locks tokens.new) }
        ensures pins { T.tells_sets ≡ true → Stays (T.pinned tokens.old) (T.pinned tokens.new) }
    {
        let _frames = self.frames;
        let mut unlocks = 0;
        'frees: while let Some(did) = self.free_step(tokens, pass) {
            unlocks += unlock_count(did);
        }
        unlocks
    }

    /// Takes a step towards no use: the round ends, and then the refused try is withdrawn or, if there is none,
    /// the least old lock is given back. None exactly where the session has no use.
    pub fn free_step<T: Tokens>(&mut self, tokens: &mut T, pass: &mut T::Pass) -> Option<Stepped>
        requires pass { IsPassOf (T.IsPass tokens.old pass.old) (T.patches tokens.old)
            (T.uses tokens.old pass.old) (T.locks tokens.old pass.old) self.old }
        ensures pass { IsPassOf (T.IsPass tokens.new pass.new) (T.patches tokens.new)
            (T.uses tokens.new pass.new) (T.locks tokens.new pass.new) self.new }
        ensures step { TakesFreeStep self.old result self.new }
        ensures facts { IsSession self.new }
        ensures number { (T.number pass.new ≡ T.number pass.old)
            × (T.pass_table pass.new ≡ T.pass_table pass.old) }
        ensures words { (T.table tokens.new ≡ T.table tokens.old)
            × (T.patches tokens.new ≡ T.patches tokens.old) }
        ensures tries { T.tells_tries ≡ true → T.tries pass.new ≡ T.tries pass.old }
        ensures epochs { T.tells_epochs ≡ true → Stays (T.epochs tokens.old) (T.epochs tokens.new) }
        ensures use_sets { T.tells_sets ≡ true
            → ChangesOnly (T.number pass.old) (T.session_uses tokens.old)
            (T.session_uses tokens.new) }
        ensures lock_sets { T.tells_sets ≡ true
            → ChangesOnly (T.number pass.old) (T.session_locks tokens.old)
            (T.session_locks tokens.new) }
        ensures pins { T.tells_sets ≡ true → Stays (T.pinned tokens.old) (T.pinned tokens.new) }
    {
        let _frames = self.frames;
        self.end_round();
        if let Some(patch) = self.flight {
            self.withdraw(tokens, pass, patch);
            let _frames = self.frames;
            return Some(Stepped::Withdrew(patch));
        }
        let Some(patch) = self.least_old() else {
            return None;
        };
        self.unlock_old(tokens, pass, patch);
        let _frames = self.frames;
        Some(Stepped::Unlocked(patch))
    }
}

/// 1 for a step in which an old lock was given back.
fn unlock_count(did: Stepped) -> u64
    ensures { result ≡ unlocks_in did }
{
    match did {
        Stepped::Unlocked(_) => 1,
        Stepped::Tried(..) | Stepped::Withdrew(_) | Stepped::GaveBack(_) | Stepped::Done => 0,
    }
}
