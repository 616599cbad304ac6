//! Events lead from safe states to safe states.

ghost use Rattle.std.specs.Prelude.{◌≡◌, ℕ, ◌≤◌, true, Some, slice_get};
ghost use Rattle.file_model.specs.Lists.{SeenBody};
ghost use Rattle.session_model.specs.Sessions.{SessionState, locks};
ghost use Rattle.tier_model.specs.Tiers.{TierState, load};
ghost use Rattle.run_model.specs.Worlds.{World, is_base, IsWorld, HoldsBase, AreBaseBodies};
ghost use Rattle.run_model.specs.States.{State, opening};
ghost use Rattle.run_model.specs.Events.{Happens, Reaches};
ghost use Rattle.run_model.specs.Safe.{IsHeldAtTop, IsSafe};

/// Every event leads from a safe state to a safe state: one step of a session, one turn of a tier, whatever a
/// fetch gives, one step towards no use, a session that opens or ends, a view that is posted or taken off, and a
/// frame that is printed.
pub fn every_event_keeps_a_state_safe()
    ensures { (w : World) (a b : State) → IsWorld w → IsSafe w a → Happens w a b → IsSafe w b }
{}

/// So every list of events does.
pub fn reaching_keeps_a_state_safe()
    ensures { (w : World) (a b : State) → IsWorld w → IsSafe w a → Reaches w a b → IsSafe w b }
{}

/// A run opens in a safe state, where the top tier's budget holds the base.
pub fn the_opening_is_safe()
    ensures { (w : World) (body : ℕ → SeenBody) → IsWorld w → HoldsBase w → AreBaseBodies w body
        → IsSafe w (opening w body) }
{}

/// In a safe state each patch that a session has locked, and each base patch, is held in the top tier with its
/// file's body, and no tier's load is above its budget.
pub fn a_safe_state_keeps_its_promises()
    ensures locked { (w : World) (a : State) → IsSafe w a → (i : ℕ) (s : SessionState)
        → a.sessions i ≡ Some s → (p : ℕ) → locks s p ≡ true → IsHeldAtTop w a p }
    ensures base { (w : World) (a : State) → IsSafe w a → (p : ℕ) → is_base w p ≡ true
        → IsHeldAtTop w a p }
    ensures budgets { (w : World) (a : State) → IsSafe w a → (k : ℕ) (t : TierState) (budget : ℕ)
        → slice_get a.chain.tiers k ≡ Some t → slice_get w.budgets k ≡ Some budget
        → load t ≤ budget }
{}
