//! A table as the words that the owner of a tier uses.

ghost use Rattle.std.specs.Prelude.{◌≡◌, ℕ, true, false, length, slice_index};
ghost use Rattle.token_table.specs.Places.{MemberPlace, place_of, same_table};
ghost use Rattle.token_table.specs.Seats.{is_pinned};

use crate::members::Member;
use crate::tables::TokenTable;
use token_words::{Evict, Keeper};

/// The words of a table by the seat of the owner of a tier. They tell their epochs, their pins and
/// the refused evictions, but no sets.
#[derive(Drop)]
pub struct KeeperWords<'t, 's, U: Member> {
    pub table: &'t TokenTable,
    pub seat: &'s mut U,
    ghost home: { U.home seat.now table.now ≡ table.now } by { same_table (U.home seat.now
        table.now) table.now },
}

impl<'t, 's, U: Member> Keeper for KeeperWords<'t, 's, U> {
    ghost has_words = { U.has_words };

    ghost Place = { MemberPlace };

    ghost place = { λ words.
        place_of words.table.now words.seat.ghost_name (U.tier words.seat.now)
        (U.desk words.seat.now) };

    ghost patches = { λ words. length (U.desk words.seat.now).epochs };

    ghost epochs = { λ words. slice_index (U.desk words.seat.now).epochs };

    ghost pinned = { λ words. is_pinned (U.desk words.seat.now) };

    ghost tells_sets = { false };

    ghost session_uses = { λ _ _ _. false };

    ghost session_locks = { λ _ _ _. false };

    ghost tells_misses = { true };

    ghost misses = { λ words. (U.desk words.seat.now).misses };

    fn epoch(&self, patch: u32) -> u32 {
        self.seat.word_epoch(patch)
    }

    fn admit(&mut self, patch: u32) {
        self.seat.word_admit(self.table, patch);
    }

    fn evict(&mut self, patch: u32) -> Evict {
        self.seat.word_evict(self.table, patch)
    }
}
