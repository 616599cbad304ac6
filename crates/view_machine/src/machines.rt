//! Machines.

use cache_chain::TierChain;
use session_seats::Seats;
use std::marker::Model;
use token_words::PlainTokens;
use view_outside::Store;
use wish_board::WishBoard;

mod calls;
mod counting;
mod fast;
mod frames;
mod lines;
mod opening;
mod resuming;
mod rounds;
mod sessions;
mod showing;
mod tiers;

pub use opening::EmptyRun;

/// The state of a run: a chain of tiers, the words of its patches, the sessions at their seats, and the board
/// of the views that they posted.
#[derive(Drop)]
pub struct Machine<'a, S: Store> {
    chain: TierChain<'a, S>,
    words: PlainTokens,
    seats: Seats<'a>,
    board: WishBoard,
}

impl<'a, S: Store> Model for Machine<'a, S> {
    ghost use Rattle.view_outside.specs.Files.{file_bytes};
    ghost use Rattle.token_words.specs.PlainTokens.{words_seen};
    ghost use Rattle.view_machine.specs.Machines.{MachineSeen, IsMachine};

    ghost Value = { MachineSeen S };

    ghost view = { λ m.
        record {
          chain = m.chain;
          words = words_seen m.words;
          seats = m.seats;
          board = m.board;
          bytes = file_bytes (S.files m.chain.store) m.chain.file;
        } };

    ghost invariant = { λ m.
        IsMachine m.chain.mesh.lists (file_bytes (S.files m.chain.store) m.chain.file)
        m.chain.tiers (words_seen m.words) m.seats m.board };
}
