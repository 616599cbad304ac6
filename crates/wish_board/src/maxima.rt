//! The greatest wish of each node.

ghost use Rattle.std.specs.Prelude.{◌≡◌, ℕ, ◌<◌, length, slice_get, slice_set, Some, IfSome};
ghost use Rattle.tier_model.specs.Ranks.{Posted, node_wish};
ghost use Rattle.token_words.specs.declared.session_sets.TheConstants.{SESSIONS};
ghost use Rattle.wish_board.specs.Maxima.{AreScored, AreGreatest, AreRaised, AreLowered};
ghost use Rattle.wish_board.specs.PostedSlots.{AreSlots};

use crate::posted_slots::posted_slots;
use crate::views::ReadyView;

/// Raises each node's wish to that of the view, where this is greater.
fn raise(greatest: &mut [u64], view: &ReadyView)
    requires { length view.now.scores ≡ length greatest.old }
    ensures { AreRaised view.now (length greatest.old) greatest.old greatest.new }
{
    for node in 0..greatest.len() {
        greatest[node] = greatest[node].max(view.wish(node));
    }
}

/// The node's greatest wish over the views in the slots, which are those with a view. Condition: each view has
/// a score for the node.
fn greatest_wish(views: &[Option<ReadyView>], slots: &[usize], node: usize) -> u64
    requires slots { AreSlots views.now slots.now }
    requires scored { (i : ℕ) (view : Posted) → slice_get views.now i ≡ Some (Some view)
        → node < length view.scores }
    ensures { result ≡ node_wish views.now node }
{
    let mut greatest = 0;
    for slot in slots {
        if let Some(view) = &views[*slot] {
            greatest = greatest.max(view.wish(node));
        }
    }
    greatest
}

/// Finds a node's wish anew where it is that of the view that left.
fn lower(greatest: &mut [u64], left: &ReadyView, views: &[Option<ReadyView>])
    requires left { length left.now.scores ≡ length greatest.old }
    requires views { length views.now ≡ SESSIONS }
    requires scored { AreScored (length greatest.old) views.now }
    ensures { AreLowered left.now views.now (length greatest.old) greatest.old greatest.new }
{
    let slots = posted_slots(views);
    for node in 0..greatest.len() {
        let wish = left.wish(node);
        if 0 < wish && wish == greatest[node] {
            greatest[node] = greatest_wish(views, &slots, node);
        }
    }
}

/// The view in the slot took the place of the earlier one: writes each node's greatest wish over the views.
/// A node is looked at in all views only where its wish was the earlier view's.
pub fn follow(
    greatest: &mut [u64],
    earlier: &Option<ReadyView>,
    views: &[Option<ReadyView>],
    slot: usize,
)
    requires slot { slot < length views.now }
    requires views { length views.now ≡ SESSIONS }
    requires earlier { IfSome earlier.now (λ (v : Posted). length v.scores ≡ length greatest.old) }
    requires scored { AreScored (length greatest.old) views.now }
    requires greatest { AreGreatest (length greatest.old) (slice_set views.now slot earlier.now)
        greatest.old }
    ensures { AreGreatest (length greatest.old) views.now greatest.new }
{
    if let Some(left) = earlier {
        lower(greatest, left, views);
    }
    if let Some(view) = &views[slot] {
        raise(greatest, view);
    }
}
