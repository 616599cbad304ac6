//! The patches on one side of each node, as chains.

ghost use Rattle.std.specs.Prelude.{◌≡◌, ℕ, ◌<◌, ◌≤◌, List, ◌++◌, length, slice_get, Some, OnOk, IfOk};
ghost use Rattle.file_model.specs.declared.limits.TheConstants.{MOST_PATCHES};
ghost use Rattle.file_model.specs.declared.fields.PatchField.{PatchField};
ghost use Rattle.mesh_model.specs.Sides.{node_on};
ghost use Rattle.mesh_graph.specs.Chains.{IsChain, AreLinked, HaveNodes};

use crate::blanks::blank_list;
use crate::sides::node_of;
use file_model::PatchField;
use grid_vertex::NoMemory;
use mesh_model::NodeSide;
use std::alloc::Global;

/// For each node its first patch, and for each patch the next one of the same node.
#[derive(Drop)]
pub struct Chains {
    pub first: Vec<Option<u32>>,
    pub next: Vec<Option<u32>>,
}

/// Links the patches on one side of each node, ascending.
pub fn link(
    alloc: Global,
    side: NodeSide,
    nodes: usize,
    fields: &[PatchField],
) -> Result<Chains, NoMemory>
    requires ends { HaveNodes side nodes fields.now }
    requires count { length fields.now ≤ MOST_PATCHES }
    ensures linked { IfOk result
        (λ chains. AreLinked side fields.now 0 chains.first.items chains.next.items) }
    ensures as_many { IfOk result (λ chains. length chains.first.items ≡ nodes) }
{
    let mut first = blank_list(alloc, nodes)?;
    let mut next = blank_list(alloc, fields.len())?;
    let mut patch = fields.len();
    while patch > 0 {
        patch -= 1;
        let node = node_of(side, &fields[patch]) as usize;
        next[patch] = first[node];
        first[node] = Some(patch as u32);
    }
    Ok(Chains { first, next })
}

/// Appends the patches of the chain that begins at `start`.
pub fn push_chain(
    patches: &mut Vec<u32>,
    next: &[Option<u32>],
    start: Option<u32>,
) -> Result<(), NoMemory>
    requires { (chain : List ℕ) × IsChain next.now start chain }
    ensures { OnOk result
        ((chain : List ℕ) → IsChain next.now start chain
        → patches.new.items ≡ patches.old.items ++ chain) }
{
    let mut at = start;
    while let Some(patch) = at {
        patches.push(patch)?;
        at = next[patch as usize];
    }
    Ok(())
}
