//! How a table is made, with the seats at it.

ghost use Rattle.std.specs.Prelude.{◌≡◌, ◌+◌, ◌*◌, ◌%◌, ◌<◌, ◌≤◌, false, length, map, All, IfOk};
ghost use Rattle.file_model.specs.Tries.{is_odd};
ghost use Rattle.token_words.specs.declared.keeping.TheConstants.{LAST_EPOCH};
ghost use Rattle.token_table.specs.Makings.{IsMade, IsMadeAt, AreStarts, AreNewcomers, session_seen, with_sessions};
ghost use Rattle.token_table.specs.Changes.{newcomer, with_made};

use crate::plays::Making;
use crate::seats::{KeeperSeat, SessionSeat};
use crate::tables::{ONE_EPOCH, TokenTable};
use atomic_table::Table;
use grid_vertex::NoMemory;
use std::alloc::Global;
use token_words::LAST_EPOCH;

/// A new table, the seat of its keeper, and the seats of its sessions in the order of their
/// numbers, which begin at 1.
#[derive(Drop)]
pub struct Made {
    pub table: TokenTable,
    pub keeper: KeeperSeat,
    pub sessions: Vec<SessionSeat>,
}

/// The epochs at the making: one more than `start` for a patch of the base, else `start`.
fn first_epochs(alloc: Global, start: u32, patches: u32, base: &[u32]) -> Result<Vec<u32>, NoMemory>
    requires start { start < LAST_EPOCH }
    requires base { All (λ patch. patch < patches) base.now }
    ensures { IfOk result (λ epochs. AreStarts start patches base.now epochs.items) }
{
    let mut epochs = vec![in alloc; start; patches as usize]?;
    for &patch in base {
        epochs[patch as usize] = start + 1;
    }
    Ok(epochs)
}

/// The words at the making: each patch that is there has one use, its pin.
fn first_words(alloc: Global, epochs: &[u32]) -> Result<Vec<u64>, NoMemory>
    ensures { IfOk result
        (λ words. words.items ≡ map (λ epoch. epoch * 4294967296 + epoch % 2) epochs.now) }
{
    let mut words = Vec::with_capacity(alloc, epochs.len())?;
    for &epoch in epochs {
        words.push(u64::from(epoch) * ONE_EPOCH + u64::from(epoch % 2))?;
    }
    Ok(words)
}

impl TokenTable {
    /// A table with words for patches 0 to `patches - 1`, and the seats of the keeper and of so many
    /// sessions. The patches of `base` are there and pinned.
    pub fn new(alloc: Global, patches: u32, base: &[u32], sessions: u32) -> Result<Made, NoMemory>
        requires patches { 0 < patches }
        requires base { All (λ patch. patch < patches) base.now }
        requires sessions { sessions ≤ 64 }
        ensures { IfOk result (IsMade patches base.now sessions) }
    {
        TokenTable::starting_at(alloc, 0, patches, base, sessions)
    }

    /// The same with epochs that begin at an even number: a patch of `base` has one more.
    pub(crate) fn starting_at(
        alloc: Global,
        start: u32,
        patches: u32,
        base: &[u32],
        sessions: u32,
    ) -> Result<Made, NoMemory>
        requires even { is_odd start ≡ false }
        requires below { start < LAST_EPOCH }
        requires patches { 0 < patches }
        requires base { All (λ patch. patch < patches) base.now }
        requires sessions { sessions ≤ 64 }
        ensures { IfOk result (IsMadeAt start patches base.now sessions) }
    {
        let epochs = first_epochs(alloc, start, patches, base)?;
        let words = first_words(alloc, epochs.as_slice())?;
        let (table, seat) = Table::of_words(alloc, words.as_slice(), &epochs)?;
        let table = TokenTable { table };
        let mut keeper = KeeperSeat { seat, epochs };
        let sessions = table.make_sessions(alloc, &mut keeper, sessions)?;
        Ok(Made {
            table,
            keeper,
            sessions,
        })
    }

    /// Splits the sessions' seats off the keeper's.
    fn make_sessions(
        &self,
        alloc: Global,
        keeper: &mut KeeperSeat,
        sessions: u32,
    ) -> Result<Vec<SessionSeat>, NoMemory>
        requires table { keeper.old.table ≡ self.now }
        requires fresh { keeper.old.desk.made ≡ 0 }
        requires sessions { sessions ≤ 64 }
        ensures seats { IfOk result (λ seats. AreNewcomers self.now sessions seats.items) }
        ensures keeper { IfOk result (λ _. keeper.new ≡ with_sessions sessions keeper.old) }
    {
        let mut seats = Vec::new(alloc);
        for made in 0..sessions {
            let _ = made;
            seats.push(self.make_session(keeper))?;
        }
        Ok(seats)
    }

    /// Splits the next session's seat off the keeper's.
    fn make_session(&self, keeper: &mut KeeperSeat) -> SessionSeat
        requires table { keeper.old.table ≡ self.now }
        requires room { keeper.old.desk.made < 64 }
        ensures seat { result ≡ session_seen self.now (newcomer (keeper.old.desk.made + 1)) }
        ensures keeper { keeper.new ≡ record keeper.old { desk = with_made keeper.old.desk } }
    {
        SessionSeat {
            seat: self.table.shared.split_seat::<Making>(&mut keeper.seat),
        }
    }
}
