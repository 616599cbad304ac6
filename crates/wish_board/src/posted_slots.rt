//! Which sessions have a view.

ghost use Rattle.std.specs.Prelude.{◌≡◌, length};
ghost use Rattle.token_words.specs.declared.session_sets.TheConstants.{SESSIONS};
ghost use Rattle.wish_board.specs.PostedSlots.{AreSlots};

use crate::views::ReadyView;
use arrayvec::ArrayVec;

/// The slots with a view, ascending.
pub fn posted_slots(views: &[Option<ReadyView>]) -> ArrayVec<usize, 64>
    requires { length views.now ≡ SESSIONS }
    ensures { AreSlots views.now result.items }
{
    let mut slots = ArrayVec::new();
    for (slot, view) in views.iter().enumerate() {
        if view.is_some() {
            slots.push(slot);
        }
    }
    slots
}
