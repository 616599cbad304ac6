//! What becomes of a patch that doesn't come.

ghost use Rattle.std.specs.Prelude.{◌≡◌, ◌<◌, length};
ghost use Rattle.tier_model.specs.Changes.{abort_entry, aside_after};

use crate::marks::Marks;
use tier_model::{Abort, Turn};

/// The entry of the journal for a patch that doesn't come.
#[tactic(auto, unfolding(tier_model::specs::Changes::abort_entry))]
pub fn entry_of(patch: u32, why: Abort) -> Turn
    ensures { result ≡ abort_entry patch why }
{
    match why {
        Abort::Lost => Turn::Lost(patch),
        Abort::Fault => Turn::Fault(patch),
        Abort::Changed(fault) => Turn::Changed(patch, fault),
    }
}

/// Puts the patch aside, unless the tier below just doesn't hold it.
#[tactic(auto, unfolding(tier_model::specs::Changes::aside_after))]
pub fn put_aside(aside: &mut Marks, patch: u32, why: Abort)
    requires { patch < length aside.old }
    ensures after { aside.new ≡ aside_after aside.old patch why }
    ensures many { length aside.new ≡ length aside.old }
{
    match why {
        Abort::Lost => {}
        Abort::Fault => aside.mark(patch),
        Abort::Changed(_) => aside.mark(patch),
    }
}
