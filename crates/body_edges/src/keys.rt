//! A body's edges as numbers, so that a sort brings those together that may cancel.

ghost use Rattle.std.specs.Prelude.{◌≡◌, ◌+◌, ◌<◌, ◌≤◌, ◌^◌, ℕ, [], ◌++◌, length, All, OnOk};
ghost use Rattle.std.specs.List.Sorted.{IsNonDecreasing};
ghost use Rattle.file_model.specs.Lists.{corners_of};
ghost use Rattle.body_edges.specs.Keys.{key_of, end_of, from_of, to_of, are_opposite, keys_of_corners, keys_in, IsKey, HaveSameNet, NoOpposites};

use grid_vertex::NoMemory;
use patch_body::Body;

/// The key of the edge from one place among a body's points to another.
#[tactic(auto, unfolding(crate::specs::Keys::key_of))]
fn key_between(from: u16, to: u16) -> u64
    ensures { result ≡ key_of from to }
{
    let from = u64::from(from);
    let to = u64::from(to);
    if from < to {
        (from * 65536 + to) * 2
    } else {
        (to * 65536 + from) * 2 + 1
    }
}

/// Of the two places in a key's half the lesser one, or the other.
fn end_at(half: u64, low: bool) -> u64
    ensures { result ≡ end_of half low }
{
    if low { half / 65536 } else { half % 65536 }
}

/// The place that the key's edge goes from.
#[tactic(auto, unfolding(crate::specs::Keys::from_of))]
pub fn from_place(key: u64) -> u32
    requires { from_of key < 2 ^ 32 }
    ensures { result ≡ from_of key }
{
    end_at(key / 2, key % 2 == 0) as u32
}

/// The place that the key's edge goes to.
#[tactic(auto, unfolding(crate::specs::Keys::to_of))]
pub fn to_place(key: u64) -> u32
    requires { to_of key < 2 ^ 32 }
    ensures { result ≡ to_of key }
{
    end_at(key / 2, key % 2 == 1) as u32
}

/// Tells whether the keys are of an edge and its opposite.
fn is_opposite(first: u64, second: u64) -> bool
    ensures { result ≡ are_opposite first second }
{
    first / 2 == second / 2 && first != second
}

/// Appends the keys of a triangle's edges.
#[tactic(auto, unfolding(crate::specs::Keys::keys_of_corners))]
fn push_triangle(keys: &mut Vec<u64>, corners: [u16; 3]) -> Result<(), NoMemory>
    ensures { OnOk result
        (keys.new.items ≡ keys.old.items ++ keys_of_corners (corners_of corners)) }
{
    let [a, b, c] = corners;
    keys.push(key_between(a, b))?;
    keys.push(key_between(b, c))?;
    keys.push(key_between(c, a))?;
    Ok(())
}

/// Appends the keys of the edges of a body's triangles.
pub fn push_keys(keys: &mut Vec<u64>, body: &Body) -> Result<(), NoMemory>
    requires { keys.old.items ≡ [] }
    ensures { OnOk result (keys.new.items ≡ keys_in body.now.lists.corners) }
{
    keys.reserve(3 * body.triangle_count() as usize)?;
    for triangle in 0..body.triangle_count() {
        push_triangle(keys, body.corners(triangle))?;
    }
    Ok(())
}

/// Drops each key that stands behind its opposite, with that one. Where the keys ascend, none is left beside its
/// opposite.
pub fn drop_opposites(keys: &mut Vec<u64>)
    ensures net { HaveSameNet keys.new.items keys.old.items }
    ensures few { length keys.new.items ≤ length keys.old.items }
    ensures all { (points : ℕ) → All (IsKey points) keys.old.items
        → All (IsKey points) keys.new.items }
    ensures one_way { IsNonDecreasing keys.old.items → NoOpposites keys.new.items }
{
    let mut kept = 0;
    for place in 0..keys.len() {
        let key = keys[place];
        if kept > 0 && is_opposite(keys[kept - 1], key) {
            kept -= 1;
        } else {
            keys[kept] = key;
            kept += 1;
        }
    }
    keys.truncate(kept);
}
