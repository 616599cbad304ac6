//! What the lines of a script order.

ghost use Rattle.std.specs.Prelude.{◌≡◌};
ghost use Rattle.script_model.specs.Orders.{session_of};

use round_model::View;

/// What a line of a script orders.
#[derive(Clone, Copy, Debug, PartialEq, Eq)]
pub enum Order {
    /// The session is opened.
    Open(u32),
    /// The session gets the view.
    View(u32, View),
    /// The session makes one step.
    Step(u32),
    /// The session finishes its round and prints the frame.
    Frame(u32),
    /// The session gives back all that it has locked.
    Free(u32),
    /// The session is closed.
    Close(u32),
    /// The tier of this number, counted from 0, makes one turn.
    Turn(u32),
    /// The tiers turn until all are idle.
    Settle,
    /// What the tiers hold is printed.
    Status,
}

impl Order {
    /// The session that is ordered; none where a tier is, or all tiers are.
    pub fn session(&self) -> Option<u32>
        ensures { result ≡ session_of self.now }
    {
        match self {
            Order::Open(session)
            | Order::View(session, _)
            | Order::Step(session)
            | Order::Frame(session)
            | Order::Free(session)
            | Order::Close(session) => Some(*session),
            Order::Turn(_) | Order::Settle | Order::Status => None,
        }
    }
}

/// A line of a script that has words.
#[derive(Clone, Copy, Debug, PartialEq, Eq)]
pub struct Line {
    /// The line's number, counted from 1, blank lines too.
    pub number: u32,
    /// What the line orders.
    pub order: Order,
}
