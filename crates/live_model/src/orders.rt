//! What the lines of a driver order.

use script_model::Order;

/// What a line of a driver orders.
#[derive(Clone, Copy, Debug, PartialEq, Eq)]
pub enum LiveOrder {
    /// An order of a script.
    Play(Order),
    /// The session finishes its round, and the frame is shown without its triangles.
    Show(u32),
    /// The body of the patch of this number is given.
    Body(u32),
    /// So many rounds are made, each of one turn of each tier.
    Turns(u32),
}
