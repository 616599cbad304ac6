//! One turn of a tier over the wishes that it keeps, with the words of its owner's seat.

ghost use Rattle.std.specs.Prelude.{◌≡◌, ℕ, ◌≤◌, true, length, slice_index, Some, slice_get, IfOk, MatchResult};
ghost use Rattle.view_outside.specs.Faults.{Rose};
ghost use Rattle.view_outside.specs.Files.{HasFile, file_bytes};
ghost use Rattle.view_outside.specs.Taken.{RisesAtMost};
ghost use Rattle.token_table.specs.Seats.{is_pinned};
ghost use Rattle.tier_model.specs.Answers.{IfFault, IfChanged};
ghost use Rattle.tier_model.specs.Tiers.{count, sizes_of};
ghost use Rattle.tier_model.specs.Ties.{IsTied};
ghost use Rattle.transfer_step.specs.TurnWords.{told_of, next_size, TurnTakes};
ghost use Rattle.cache_chain.specs.ChainStates.{IsFileBody, FindsChanged};
ghost use Rattle.cache_chain.specs.WordTurns.{TurnsStore};
ghost use Rattle.level_model.specs.Levels.{seat_of};
ghost use Rattle.level_model.specs.LevelTurns.{TurnsRanked, TurnsSeat};

use crate::floors::Floor;
use grid_vertex::NoMemory;
use patch_file::Index;
use std::alloc::Global;
use tier_budget::{Tier, Turn};
use token_table::{KeeperWords, Member, TokenTable};
use transfer_step::{StoreSupply, Supply, ranked_turn};
use view_outside::Store;

/// One turn over any supply.
pub fn ranked_over<'t, 'k, K: Member, B: Supply>(
    alloc: Global,
    index: &Index,
    table: &'t TokenTable,
    tier: &mut Tier,
    seat: &'k mut K,
    below: &mut B,
) -> Result<Turn, NoMemory>
    requires index { sizes_of index.now ≡ tier.old.state.sizes }
    requires supply { B.sizes (B.place below.old) ≡ tier.old.state.sizes }
    requires home { K.home seat.old table.now ≡ table.now }
    requires words { K.has_words ≡ true
        → count tier.old.state ≤ length (K.desk seat.old).epochs }
    requires tied { K.has_words ≡ true
        → IsTied tier.old.state (slice_index (K.desk seat.old).epochs)
        (is_pinned (K.desk seat.old)) }
    ensures turns { TurnsRanked
        (told_of (B.has (B.place below.old)) K.has_words (slice_index (K.desk seat.old).epochs))
        (B.gives (B.place below.old)) result tier.old.state tier.new.state }
    ensures records { tier.new.records ≡ tier.old.records }
    ensures fault { IfOk result
        (λ a. IfFault a (λ _. Rose (B.faults below.old) (B.faults below.new))) }
    ensures changed { IfOk result (λ a. IfChanged a (B.finds (B.place below.old))) }
    ensures taken { B.tells_taken ≡ true → MatchResult result
        (λ a. TurnTakes tier.old.state.sizes a (B.taken below.old) (B.taken below.new))
        (λ _. RisesAtMost (B.taken below.old) (B.taken below.new) (next_size tier.old.state)) }
    ensures later { B.faults below.old ≤ B.faults below.new }
    ensures supply { B.place below.new ≡ B.place below.old }
    ensures seat { TurnsSeat result tier.new.state
        (seat_of K.has_words (K.home seat.old table.now) (K.tier seat.old) (K.desk seat.old))
        (seat_of K.has_words (K.home seat.new table.now) (K.tier seat.new) (K.desk seat.new)) }
{
    let mut words = KeeperWords { table, seat };
    let answer = ranked_turn(alloc, index, tier, below, &mut words);
    let _words = words.seat.word_count();
    let KeeperWords { table: _, seat } = words;
    let _ = seat;
    answer
}

/// One turn over the file of this number.
fn ranked_over_store<'i, 't, 'k, 's, K: Member, S: Store>(
    alloc: Global,
    index: &'i Index,
    table: &'t TokenTable,
    tier: &mut Tier,
    seat: &'k mut K,
    store: &'s mut S,
    file: u32,
) -> Result<Turn, NoMemory>
    requires file { HasFile (S.files store.old) file }
    requires index { sizes_of index.now ≡ tier.old.state.sizes }
    requires home { K.home seat.old table.now ≡ table.now }
    requires words { K.has_words ≡ true
        → count tier.old.state ≤ length (K.desk seat.old).epochs }
    requires tied { K.has_words ≡ true
        → IsTied tier.old.state (slice_index (K.desk seat.old).epochs)
        (is_pinned (K.desk seat.old)) }
    ensures turns { TurnsRanked
        (told_of (λ _. true) K.has_words (slice_index (K.desk seat.old).epochs))
        (IsFileBody index.now (file_bytes (S.files store.old) file)) result tier.old.state
        tier.new.state }
    ensures records { tier.new.records ≡ tier.old.records }
    ensures files { S.files store.new ≡ S.files store.old }
    ensures store { TurnsStore (FindsChanged index.now (file_bytes (S.files store.old) file))
        tier.old.state result (S.faults store.old) (S.faults store.new) (S.taken store.old)
        (S.taken store.new) }
    ensures seat { TurnsSeat result tier.new.state
        (seat_of K.has_words (K.home seat.old table.now) (K.tier seat.old) (K.desk seat.old))
        (seat_of K.has_words (K.home seat.new table.now) (K.tier seat.new) (K.desk seat.new)) }
{
    let mut supply = StoreSupply { index, store, file };
    let answer = ranked_over(alloc, index, table, tier, seat, &mut supply);
    let StoreSupply {
        index: _,
        store,
        file: _,
    } = supply;
    let _ = store;
    answer
}

impl<'s, S: Store> Floor<'s, S> {
    /// One turn of a tier over this floor.
    pub(crate) fn turn<'f, 'i, 't, 'k, K: Member>(
        &'f mut self,
        alloc: Global,
        index: &'i Index,
        table: &'t TokenTable,
        tier: &mut Tier,
        seat: &'k mut K,
    ) -> Result<Turn, NoMemory>
        requires file { HasFile (S.files self.old.store.now) self.old.file }
        requires index { sizes_of index.now ≡ tier.old.state.sizes }
        requires home { K.home seat.old table.now ≡ table.now }
        requires words { K.has_words ≡ true
            → count tier.old.state ≤ length (K.desk seat.old).epochs }
        requires tied { K.has_words ≡ true
            → IsTied tier.old.state (slice_index (K.desk seat.old).epochs)
            (is_pinned (K.desk seat.old)) }
        ensures turns { TurnsRanked
            (told_of (λ _. true) K.has_words (slice_index (K.desk seat.old).epochs))
            (IsFileBody index.now (file_bytes (S.files self.old.store.now) self.old.file)) result
            tier.old.state tier.new.state }
        ensures records { tier.new.records ≡ tier.old.records }
        ensures file { self.new.file ≡ self.old.file }
        ensures lender { self.new.store.ghost_name ≡ self.old.store.ghost_name }
        ensures files { S.files self.new.store.now ≡ S.files self.old.store.now }
        ensures store { TurnsStore
            (FindsChanged index.now (file_bytes (S.files self.old.store.now) self.old.file))
            tier.old.state result (S.faults self.old.store.now) (S.faults self.new.store.now)
            (S.taken self.old.store.now) (S.taken self.new.store.now) }
        ensures seat { TurnsSeat result tier.new.state
            (seat_of K.has_words (K.home seat.old table.now) (K.tier seat.old) (K.desk seat.old))
            (seat_of K.has_words (K.home seat.new table.now) (K.tier seat.new)
            (K.desk seat.new)) }
    {
        let file = self.file;
        ranked_over_store(alloc, index, table, tier, seat, &mut *self.store, file)
    }
}
