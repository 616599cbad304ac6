//! The table, and the steps of sessions and of the keeper.

use crate::knowledge::View;
use crate::plays::{Admission, End, Eviction, Leave, Try, Visit, Watch};
use crate::seats::{KeeperSeat, SessionSeat};
use crate::word_rule::WordRule;
use atomic_table::Table;
use std::alloc::Global;
use std::marker::Model;
use token_words::{Evict, LAST_EPOCH, Seen};

/// One more of a patch's epoch in its word.
pub(crate) const ONE_EPOCH: u64 = 4_294_967_296;

/// The words of all patches, which many threads change. A table is seen as what tells it from
/// others; that has the number of words.
#[derive(Drop)]
pub struct TokenTable {
    pub(crate) table: Table<(), View, Vec<u32, Global>, WordRule, Global>,
}

impl Model for TokenTable {
    ghost use Rattle.atomic_table.specs.Seated.{TableId};
    ghost use Rattle.std.specs.Prelude.{vec_len};
    ghost use Rattle.token_table.specs.Tables.{IsTable};

    ghost Value = { TableId };

    ghost view = { λ t. t.table.shared.table_id };

    ghost invariant = { λ t. IsTable t.table.shared.table_id (vec_len t.table.shared.key) };
}

impl TokenTable {
    ghost use Rattle.std.specs.Prelude.{◌≡◌, ℕ, ◌<◌, true, false, length, slice_index};
    ghost use Rattle.file_model.specs.Tries.{is_odd};
    ghost use Rattle.token_words.specs.Evictions.{NeedsUse, uses_found};
    ghost use Rattle.token_words.specs.declared.keeping.TheConstants.{LAST_EPOCH};
    ghost use Rattle.token_words.specs.Tries.{AreTries};
    ghost use Rattle.token_table.specs.Known.{has, IsDesk};
    ghost use Rattle.token_table.specs.Changes.{after_try, after_leave, with_risen, after_eviction, with_ended};
    ghost use Rattle.token_table.specs.Seats.{IsSeatOf};

    /// Tries to lock a patch, by one step. The session uses the patch from now on, and has it
    /// locked exactly where the epoch that the step found is odd.
    pub fn try_lock(&self, seat: &mut SessionSeat, patch: u32) -> Seen
        requires seat { IsSeatOf self.now seat.old }
        requires patch { patch < self.now.words }
        requires free { has seat.old.own.uses patch ≡ false }
        ensures seat { IsSeatOf self.now seat.new }
        ensures tried { seat.new
            ≡ record seat.old { own = after_try patch result.epoch seat.old.own } }
    {
        let word = self
            .table
            .shared
            .fetch_add::<Try>(&mut seat.seat, patch as usize, 1);
        Seen {
            epoch: (word / ONE_EPOCH) as u32,
        }
    }

    /// Ends a refused try, by one step.
    pub fn withdraw(&self, seat: &mut SessionSeat, patch: u32)
        requires seat { IsSeatOf self.now seat.old }
        requires patch { patch < self.now.words }
        requires tried { has seat.old.own.uses patch ≡ true }
        requires refused { has seat.old.own.locks patch ≡ false }
        ensures seat { IsSeatOf self.now seat.new }
        ensures left { seat.new ≡ record seat.old { own = after_leave patch seat.old.own } }
    {
        self.leave(seat, patch);
    }

    /// Gives a lock back, by one step.
    pub fn unlock(&self, seat: &mut SessionSeat, patch: u32)
        requires seat { IsSeatOf self.now seat.old }
        requires patch { patch < self.now.words }
        requires locked { has seat.old.own.locks patch ≡ true }
        ensures seat { IsSeatOf self.now seat.new }
        ensures left { seat.new ≡ record seat.old { own = after_leave patch seat.old.own } }
    {
        self.leave(seat, patch);
    }

    // Ends a use.
    fn leave(&self, seat: &mut SessionSeat, patch: u32)
        requires seat { IsSeatOf self.now seat.old }
        requires patch { patch < self.now.words }
        requires tried { has seat.old.own.uses patch ≡ true }
        ensures seat { IsSeatOf self.now seat.new }
        ensures left { seat.new ≡ record seat.old { own = after_leave patch seat.old.own } }
    {
        self.table
            .shared
            .fetch_sub::<Leave>(&mut seat.seat, patch as usize, 1);
    }

    /// The epoch of a patch, as the keeper's seat keeps it.
    pub fn epoch(&self, keeper: &KeeperSeat, patch: u32) -> u32
        requires table { keeper.now.table ≡ self.now }
        requires patch { patch < length keeper.now.desk.epochs }
        ensures { result ≡ slice_index keeper.now.desk.epochs patch }
    {
        keeper.epochs[patch as usize]
    }

    /// Counts the admission of a patch, by one step.
    pub fn admit(&self, keeper: &mut KeeperSeat, patch: u32)
        requires table { keeper.old.table ≡ self.now }
        requires patch { patch < length keeper.old.desk.epochs }
        requires away { is_odd (slice_index keeper.old.desk.epochs patch) ≡ false }
        requires below { slice_index keeper.old.desk.epochs patch < LAST_EPOCH }
        ensures fits { IsDesk keeper.new.desk }
        ensures risen { keeper.new
            ≡ record keeper.old { desk = with_risen patch keeper.old.desk } }
    {
        self.table
            .shared
            .fetch_add::<Admission>(&mut keeper.seat, patch as usize, ONE_EPOCH);
        keeper.epochs[patch as usize] += 1;
    }

    /// Counts the eviction of a patch, if nothing uses it, by one compare and exchange.
    pub fn evict(&self, keeper: &mut KeeperSeat, patch: u32) -> Evict
        requires table { keeper.old.table ≡ self.now }
        requires patch { patch < length keeper.old.desk.epochs }
        requires there { is_odd (slice_index keeper.old.desk.epochs patch) ≡ true }
        ensures kept { NeedsUse result }
        ensures fits { IsDesk keeper.new.desk }
        ensures evicted { keeper.new
            ≡ record keeper.old {
              desk = after_eviction patch (uses_found result) keeper.old.desk;
            } }
    {
        let unused = u64::from(keeper.epochs[patch as usize]) * ONE_EPOCH;
        let found = self.table.shared.compare_exchange::<Eviction>(
            &mut keeper.seat,
            patch as usize,
            unused,
            unused + ONE_EPOCH,
        );
        match found - unused {
            0 => {
                keeper.epochs[patch as usize] += 1;
                Evict::Gone
            }
            uses => Evict::Kept(uses as u32),
        }
    }

    /// A session visits the keeper, who sees that all patches that it has locked are there.
    pub fn visit(&self, keeper: &mut KeeperSeat, seat: SessionSeat) -> SessionSeat
        requires table { keeper.old.table ≡ self.now }
        requires seat { IsSeatOf self.now seat }
        ensures seat { result ≡ seat }
        ensures keeper { keeper.new ≡ keeper.old }
        ensures fits { IsDesk keeper.new.desk }
        ensures there { (p : ℕ) → has seat.own.locks p ≡ true
            → is_odd (slice_index keeper.new.desk.epochs p) ≡ true }
    {
        let SessionSeat { seat } = seat;
        let shared = &self.table.shared;
        shared.join_seat::<Visit>(&mut keeper.seat, seat);
        shared.load::<Watch>(&mut keeper.seat, 0);
        SessionSeat {
            seat: shared.split_seat::<Visit>(&mut keeper.seat),
        }
    }

    /// A session without uses gives its seat back. The keeper keeps its number and its tries.
    pub fn hand_back(&self, keeper: &mut KeeperSeat, seat: SessionSeat)
        requires table { keeper.old.table ≡ self.now }
        requires seat { IsSeatOf self.now seat }
        requires unused { (p : ℕ) → has seat.own.uses p ≡ false }
        ensures fits { IsDesk keeper.new.desk }
        ensures tries { AreTries keeper.new.desk.epochs seat.own.tries }
        ensures ended { keeper.new
            ≡ record keeper.old { desk = with_ended seat.own keeper.old.desk } }
    {
        let SessionSeat { seat } = seat;
        let shared = &self.table.shared;
        shared.join_seat::<End>(&mut keeper.seat, seat);
        shared.load::<Watch>(&mut keeper.seat, 0);
    }
}
