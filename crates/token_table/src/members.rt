//! The seats of the owners of tiers.

use crate::seats::KeeperSeat;
use crate::tables::TokenTable;
use token_words::{Evict, LAST_EPOCH};

/// A seat of the owner of a tier. The seat of the top tier's owner has words, the others have none.
pub trait Member {
    ghost use Rattle.std.specs.Prelude.{◌≡◌, ℕ, ◌<◌, Bool, true, false, length, slice_index};
    ghost use Rattle.atomic_table.specs.Seated.{TableId};
    ghost use Rattle.file_model.specs.Tries.{is_odd};
    ghost use Rattle.token_words.specs.Evictions.{NeedsUse, uses_found};
    ghost use Rattle.token_words.specs.declared.answers.Evict.TheVariants.{Gone};
    ghost use Rattle.token_words.specs.declared.keeping.TheConstants.{LAST_EPOCH};
    ghost use Rattle.token_table.specs.declared.knowledge.Desk.{Desk};
    ghost use Rattle.token_table.specs.Known.{IsDesk};
    ghost use Rattle.token_table.specs.Changes.{with_risen, after_eviction};

    /// Whether there are words.
    ghost has_words: { Bool };

    /// The number of the tier, 0 for the top one.
    ghost tier: { Self → ℕ };

    /// The table that the seat is of. A seat without words is of every table.
    ghost home: { Self → TableId → TableId };

    /// What the seat knows, if it has words.
    ghost desk: { Self → Desk };

    /// How many patches have a word, and 0 without words. What the seat knows of them fits together.
    fn word_count(&self) -> usize
        ensures count { has_words ≡ true → result ≡ length (desk self.now).epochs }
        ensures without { has_words ≡ false → result ≡ 0 }
        ensures fits { has_words ≡ true → IsDesk (desk self.now) };

    /// The epoch of a patch, and 0 without words.
    fn word_epoch(&self, patch: u32) -> u32
        requires patch { has_words ≡ true → patch < length (desk self.now).epochs }
        ensures told { has_words ≡ true → result ≡ slice_index (desk self.now).epochs patch }
        ensures without { has_words ≡ false → result ≡ 0 };

    /// Counts the admission of a patch.
    fn word_admit(&mut self, table: &TokenTable, patch: u32)
        requires home { home self.old table.now ≡ table.now }
        requires patch { has_words ≡ true → patch < length (desk self.old).epochs }
        requires away { has_words ≡ true
            → is_odd (slice_index (desk self.old).epochs patch) ≡ false }
        requires below { has_words ≡ true
            → slice_index (desk self.old).epochs patch < LAST_EPOCH }
        ensures desk { has_words ≡ true → desk self.new ≡ with_risen patch (desk self.old) }
        ensures without { has_words ≡ false → desk self.new ≡ desk self.old }
        ensures tier { tier self.new ≡ tier self.old }
        ensures home { (table : TableId) → home self.new table ≡ home self.old table };

    /// Counts the eviction of a patch, if nothing uses it.
    fn word_evict(&mut self, table: &TokenTable, patch: u32) -> Evict
        requires home { home self.old table.now ≡ table.now }
        requires patch { has_words ≡ true → patch < length (desk self.old).epochs }
        requires there { has_words ≡ true
            → is_odd (slice_index (desk self.old).epochs patch) ≡ true }
        ensures kept { NeedsUse result }
        ensures gone { has_words ≡ false → result ≡ Gone }
        ensures desk { has_words ≡ true
            → desk self.new ≡ after_eviction patch (uses_found result) (desk self.old) }
        ensures without { has_words ≡ false → desk self.new ≡ desk self.old }
        ensures tier { tier self.new ≡ tier self.old }
        ensures home { (table : TableId) → home self.new table ≡ home self.old table };
}

impl Member for KeeperSeat {
    ghost use Rattle.std.specs.Prelude.{true};

    ghost has_words = { true };

    ghost tier = { λ _. 0 };

    ghost home = { λ seat _. seat.table };

    ghost desk = { λ seat. seat.desk };

    fn word_count(&self) -> usize {
        self.patch_count()
    }

    fn word_epoch(&self, patch: u32) -> u32 {
        self.epochs[patch as usize]
    }

    fn word_admit(&mut self, table: &TokenTable, patch: u32) {
        table.admit(self, patch);
    }

    fn word_evict(&mut self, table: &TokenTable, patch: u32) -> Evict {
        table.evict(self, patch)
    }
}

/// The seat of the owner of a lower tier, whose number is 1 to 3. It is a plain value without words.
#[derive(Clone, Copy, Debug, PartialEq, Eq)]
pub struct TierSeat {
    pub tier: u32,
}

impl Member for TierSeat {
    ghost use Rattle.std.specs.Prelude.{false};
    ghost use Rattle.token_table.specs.WordRule.{no_desk};

    ghost has_words = { false };

    ghost tier = { λ seat. seat.tier };

    ghost home = { λ _ table. table };

    ghost desk = { λ _. no_desk };

    fn word_count(&self) -> usize {
        0
    }

    fn word_epoch(&self, _patch: u32) -> u32 {
        0
    }

    fn word_admit(&mut self, _table: &TokenTable, _patch: u32) {}

    fn word_evict(&mut self, _table: &TokenTable, _patch: u32) -> Evict {
        Evict::Gone
    }
}
