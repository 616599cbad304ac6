//! How a table is given up.

ghost use Rattle.std.specs.Prelude.{◌≡◌, ◌≤◌, length, All, IfOk};
ghost use Rattle.std.specs.Mem.Slots.{slots_items, slots_len, IsFull};
ghost use Rattle.token_words.specs.declared.keeping.TheConstants.{LAST_EPOCH};
ghost use Rattle.token_table.specs.Known.{desk_allowance};
ghost use Rattle.token_table.specs.Closings.{HasDesk, AreRead};

use crate::seats::KeeperSeat;
use crate::tables::{ONE_EPOCH, TokenTable};
use atomic_table::Closed;
use grid_vertex::NoMemory;
use std::alloc::Global;
use token_words::{LAST_EPOCH, PlainTokens, Word};

/// The words of a closed table. Those with a use are pinned.
fn words_of(
    alloc: Global,
    closed: &Closed<(), Global>,
    epochs: &[u32],
) -> Result<Vec<Word>, NoMemory>
    requires full { IsFull closed.now.words }
    requires many { length epochs.now ≡ slots_len closed.now.words }
    requires last { All (λ epoch. epoch ≤ LAST_EPOCH) epochs.now }
    ensures { IfOk result
        (λ words. AreRead epochs.now (slots_items closed.now.words) words.items) }
{
    let mut words = Vec::new(alloc);
    for (patch, &epoch) in epochs.iter().enumerate() {
        let is_pinned = closed.word(patch) != u64::from(epoch) * ONE_EPOCH;
        words.push(Word { epoch, is_pinned })?;
    }
    Ok(words)
}

impl TokenTable {
    /// The same words as plain words, which no session uses. Table and keeper are given up, also
    /// for want of memory.
    pub fn into_plain(self, alloc: Global, keeper: KeeperSeat) -> Result<PlainTokens, NoMemory>
        requires table { keeper.table ≡ self }
        requires all { desk_allowance keeper.desk ≡ 65 }
        ensures { IfOk result (HasDesk keeper.desk) }
    {
        let TokenTable { table } = self;
        let KeeperSeat { seat, epochs } = keeper;
        let closed = table.close_with(seat);
        let words = words_of(alloc, &closed, epochs.as_slice());
        closed.free();
        PlainTokens::with_words(alloc, words?.as_slice())
    }
}
