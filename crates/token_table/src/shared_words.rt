//! A table as the words that sessions use.

ghost use Rattle.std.specs.Prelude.{◌≡◌, ℕ, true, false};
ghost use Rattle.atomic_table.specs.Seated.{TableId};
ghost use Rattle.token_table.specs.Known.{has};
ghost use Rattle.token_table.specs.Seats.{IsSeatOf, no_sets};

use crate::seats::SessionSeat;
use crate::tables::TokenTable;
use token_words::{Seen, Tokens};

/// The words of a table. The passes of the words are the table's seats, which tell their tries.
/// Epochs and sets aren't told, since other threads change them.
#[derive(Clone, Copy)]
pub struct SharedWords<'t> {
    pub table: &'t TokenTable,
}

impl<'t> Tokens for SharedWords<'t> {
    type Pass = SessionSeat;

    ghost Name = { TableId };

    ghost table = { λ words. words.table.now };

    ghost pass_table = { λ seat. seat.table };

    ghost patches = { λ words. words.table.now.words };

    ghost IsPass = { λ words seat. IsSeatOf words.table.now seat };

    ghost number = { λ seat. seat.own.number };

    ghost uses = { λ _ seat. has seat.own.uses };

    ghost locks = { λ _ seat. has seat.own.locks };

    ghost tells_tries = { true };

    ghost tries = { λ seat. seat.own.tries };

    ghost tells_epochs = { false };

    ghost epochs = { λ _ _. 0 };

    ghost tells_sets = { false };

    ghost session_uses = { λ _ _ _. false };

    ghost session_locks = { λ _ _ _. false };

    ghost pinned = { λ _ _. false };

    fn try_lock(&mut self, pass: &mut SessionSeat, patch: u32) -> Seen {
        self.table.try_lock(pass, patch)
    }

    fn withdraw(&mut self, pass: &mut SessionSeat, patch: u32) {
        self.table.withdraw(pass, patch);
    }

    fn unlock(&mut self, pass: &mut SessionSeat, patch: u32) {
        self.table.unlock(pass, patch);
    }

    ghost locks_are_uses = { λ _ _ patch is_pass. is_pass.used patch };

    ghost uses_are_sets = { λ told _ _ _ _. no_sets told };

    ghost locks_are_sets = { λ told _ _ _ _. no_sets told };
}
