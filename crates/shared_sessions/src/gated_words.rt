//! The words of a table behind a gate.

ghost use Rattle.std.specs.Prelude.{true, false};
ghost use Rattle.atomic_table.specs.Seated.{TableId};
ghost use Rattle.token_table.specs.Known.{has};
ghost use Rattle.token_table.specs.Seats.{IsSeatOf, no_sets};

use token_table::{SessionSeat, SharedWords};
use token_words::{Seen, Tokens};
use view_outside::{Gate, GatePoint};

/// The words of a table as `SharedWords` shows them, where a session passes the gate before each try.
#[derive(Drop)]
pub struct GatedWords<'t, 'g, G: Gate> {
    pub words: SharedWords<'t>,
    pub gate: &'g G,
    /// The number of the session that tries.
    pub session: u32,
}

impl<'t, 'g, G: Gate> Tokens for GatedWords<'t, 'g, G> {
    type Pass = SessionSeat;

    ghost Name = { TableId };

    ghost table = { λ words. words.words.table.now };

    ghost pass_table = { λ seat. seat.table };

    ghost patches = { λ words. words.words.table.now.words };

    ghost IsPass = { λ words seat. IsSeatOf words.words.table.now seat };

    ghost number = { λ seat. seat.own.number };

    ghost uses = { λ _ seat. has seat.own.uses };

    ghost locks = { λ _ seat. has seat.own.locks };

    ghost tells_tries = { true };

    ghost tries = { λ seat. seat.own.tries };

    ghost tells_epochs = { false };

    ghost epochs = { λ _ _. 0 };

    ghost tells_sets = { false };

    ghost session_uses = { λ _ _ _. false };

    ghost session_locks = { λ _ _ _. false };

    ghost pinned = { λ _ _. false };

    fn try_lock(&mut self, pass: &mut SessionSeat, patch: u32) -> Seen {
        self.gate.pass(GatePoint::LockTry(self.session));
        self.words.try_lock(pass, patch)
    }

    fn withdraw(&mut self, pass: &mut SessionSeat, patch: u32) {
        self.words.withdraw(pass, patch);
    }

    fn unlock(&mut self, pass: &mut SessionSeat, patch: u32) {
        self.words.unlock(pass, patch);
    }

    ghost locks_are_uses = { λ _ _ patch is_pass. is_pass.used patch };

    ghost uses_are_sets = { λ told _ _ _ _. no_sets told };

    ghost locks_are_sets = { λ told _ _ _ _. no_sets told };
}
