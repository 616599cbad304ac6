//! The seats at a table.

use crate::knowledge::View;
use atomic_table::Seat;
use std::alloc::Global;
use std::marker::Model;

/// The seat of a session. It is seen as its table and what the session knows.
#[derive(Drop)]
pub struct SessionSeat {
    pub(crate) seat: Seat<(), View>,
}

impl Model for SessionSeat {
    ghost use Rattle.std.specs.Prelude.{◌≡◌};
    ghost use Rattle.token_table.specs.Changes.{seated};
    ghost use Rattle.token_table.specs.Seats.{SessionSeen, own_in};
    ghost use Rattle.token_table.specs.declared.knowledge.View.TheVariants.{Session};

    ghost Value = { SessionSeen };

    ghost view = { λ s. record { table = s.seat.table_id; own = own_in s.seat.me.0 } };

    ghost invariant = { λ s. s.seat.me ≡ seated (Session (own_in s.seat.me.0)) };
}

/// The seat of the owner of the top tier. It is seen as its table and what the keeper knows.
#[derive(Drop)]
pub struct KeeperSeat {
    pub(crate) seat: Seat<(), View>,
    pub(crate) epochs: Vec<u32, Global>,
}

impl Model for KeeperSeat {
    ghost use Rattle.token_table.specs.Seats.{KeeperSeen, desk_in, IsAtDesk};

    ghost Value = { KeeperSeen };

    ghost view = { λ s. record { table = s.seat.table_id; desk = desk_in s.seat.me.0 } };

    ghost invariant = { λ s. IsAtDesk s.seat.table_id s.seat.me s.epochs.items };
}

impl KeeperSeat {
    ghost use Rattle.std.specs.Prelude.{◌≡◌, length};
    ghost use Rattle.token_table.specs.Known.{IsDesk};

    /// How many patches have a word. What the keeper knows of them fits together, whether or not a session ever
    /// came.
    pub fn patch_count(&self) -> usize
        ensures count { result ≡ length self.now.desk.epochs }
        ensures words { result ≡ self.now.table.words }
        ensures fits { IsDesk self.now.desk }
    {
        self.epochs.len()
    }
}
