//! Levels: each node above all its parents.

ghost use Rattle.std.specs.Prelude.{◌≡◌, ℕ, ◌+◌, ◌<◌, ◌≤◌, ◌++◌, length, map, slice_get, Some, None, IfOk, OnOk, MatchOption, IfSome, All};
ghost use Rattle.std.specs.List.{Contains, range_with_len};
ghost use Rattle.file_model.specs.declared.limits.TheConstants.{MOST_NODES, MOST_PATCHES};
ghost use Rattle.mesh_model.specs.declared.sides.NodeSide.TheVariants.{Incoming, Outgoing};
ghost use Rattle.mesh_graph.specs.Chains.{HaveNodes};
ghost use Rattle.mesh_graph.specs.Adjacency.{IsAdjacency};
ghost use Rattle.mesh_graph.specs.Levels.{AreLevels, IsOpen, HasOpenParent, HasTailLevel, IsLevelOver, IsNextLevel, AreAllLevels, IsLeastWithout, head_of};

use crate::arcs::Adjacency;
use crate::blanks::blank_list;
use file_model::PatchField;
use grid_vertex::NoMemory;
use std::alloc::Global;

/// The level of the patch's tail, where it is known.
fn tail_level(fields: &[PatchField], levels: &[Option<u32>], patch: u32) -> Option<u32>
    requires patch { patch < length fields.now }
    requires ends { HaveNodes Outgoing (length levels.now) fields.now }
    ensures some { (level : ℕ) → result ≡ Some level
        → HasTailLevel fields.now levels.now patch level }
    ensures none { result ≡ None → IsOpen fields.now levels.now patch }
{
    levels[fields[patch as usize].tail as usize]
}

/// The place, from `from` on, of the first of the patches whose tail has no level, or their number.
fn first_open(fields: &[PatchField], levels: &[Option<u32>], patches: &[u32], from: usize) -> usize
    requires patches { All (λ patch. patch < length fields.now) patches.now }
    requires ends { HaveNodes Outgoing (length levels.now) fields.now }
    ensures { (patch : ℕ) → slice_get patches.now result ≡ Some patch
        → IsOpen fields.now levels.now patch }
{
    let mut place = from;
    while place < patches.len() {
        if tail_level(fields, levels, patches[place]).is_none() {
            return place;
        }
        place += 1;
    }
    place
}

/// One above the greatest level of the patches' tails, or 0 where there is no patch; None where a tail
/// has no level.
fn level_over(fields: &[PatchField], levels: &[Option<u32>], patches: &[u32]) -> Option<u32>
    requires patches { All (λ patch. patch < length fields.now) patches.now }
    requires ends { HaveNodes Outgoing (length levels.now) fields.now }
    requires levels { AreLevels fields.now levels.now }
    requires count { length levels.now ≤ MOST_NODES }
    ensures { MatchOption result
        ((patch : ℕ) × Contains patches.now patch × IsOpen fields.now levels.now patch)
        (IsLevelOver fields.now levels.now patches.now) }
{
    let mut level = 0;
    for patch in patches {
        match tail_level(fields, levels, *patch) {
            None => return None,
            Some(below) => level = level.max(below + 1),
        }
    }
    Some(level)
}

/// The level of a node that has none yet, where all its parents have one. `places` says for each node
/// how many of its incoming patches are known to come from nodes with a level.
fn next_level(
    incoming: &Adjacency,
    fields: &[PatchField],
    levels: &[Option<u32>],
    places: &mut [usize],
    node: u32,
) -> Option<u32>
    requires incoming { IsAdjacency Incoming fields.now (length levels.now) incoming.now }
    requires ends { HaveNodes Outgoing (length levels.now) fields.now }
    requires levels { AreLevels fields.now levels.now }
    requires count { length levels.now ≤ MOST_NODES }
    requires places { length places.old ≡ length levels.now }
    requires node { node < length levels.now }
    ensures { MatchOption result
        (slice_get levels.now node ≡ Some None → HasOpenParent fields.now levels.now node)
        (IsNextLevel fields.now levels.now node) }
{
    if levels[node as usize].is_some() {
        return None;
    }
    let patches = incoming.patches_of(node);
    let place = first_open(fields, levels, patches, places[node as usize]);
    places[node as usize] = place;
    if place < patches.len() {
        return None;
    }
    level_over(fields, levels, patches)
}

/// Appends the heads of the patches.
fn push_heads(
    waiting: &mut Vec<u32>,
    fields: &[PatchField],
    patches: &[u32],
) -> Result<(), NoMemory>
    requires { All (λ patch. patch < length fields.now) patches.now }
    ensures { OnOk result
        (waiting.new.items ≡ waiting.old.items ++ map (head_of fields.now) patches.now) }
{
    for patch in patches {
        waiting.push(fields[*patch as usize].head)?;
    }
    Ok(())
}

/// All nodes, ascending.
fn all_nodes(alloc: Global, nodes: u32) -> Result<Vec<u32>, NoMemory>
    ensures { IfOk result (λ list. list.items ≡ range_with_len 0 nodes) }
{
    Ok((0..nodes).collect(alloc)?)
}

/// The level of each node, or None at one at which walks of any length end. A node waits where a parent
/// got its level since it was looked at, and a patch is looked at twice at most.
pub fn levels_of(
    alloc: Global,
    incoming: &Adjacency,
    outgoing: &Adjacency,
    fields: &[PatchField],
) -> Result<Vec<Option<u32>>, NoMemory>
    requires incoming { IsAdjacency Incoming fields.now (length incoming.now) incoming.now }
    requires outgoing { IsAdjacency Outgoing fields.now (length incoming.now) outgoing.now }
    requires tails { HaveNodes Outgoing (length incoming.now) fields.now }
    requires heads { HaveNodes Incoming (length incoming.now) fields.now }
    requires nodes { length incoming.now ≤ MOST_NODES }
    requires patches { length fields.now ≤ MOST_PATCHES }
    ensures { IfOk result (λ levels. AreAllLevels fields.now (length incoming.now) levels.items) }
{
    let nodes = incoming.node_count();
    let mut levels = blank_list(alloc, nodes)?;
    let mut places = vec![in alloc; 0; nodes]?;
    let mut waiting = all_nodes(alloc, nodes as u32)?;
    while let Some(node) = waiting.pop() {
        if let Some(level) = next_level(incoming, fields, &levels, &mut places, node) {
            levels[node as usize] = Some(level);
            push_heads(&mut waiting, fields, outgoing.patches_of(node))?;
        }
    }
    Ok(levels)
}

/// The least node without a level.
pub fn first_without(levels: &[Option<u32>]) -> Option<u32>
    requires { length levels.now ≤ MOST_NODES }
    ensures none { result ≡ None → (v : ℕ) → slice_get levels.now v ≡ Some None → ⊥ }
    ensures least { IfSome result (IsLeastWithout levels.now) }
{
    for (node, level) in levels.iter().enumerate() {
        if level.is_none() {
            return Some(node as u32);
        }
    }
    None
}
