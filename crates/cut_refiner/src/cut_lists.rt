//! The nodes of a cut and the patches of its frame.

ghost use Rattle.std.specs.Prelude.{◌≡◌, ◌+◌, ◌≤◌, [], length, vec_len, vec_capacity, IfOk};
ghost use Rattle.file_model.specs.declared.limits.TheConstants.{MOST_NODES, MOST_PATCHES};
ghost use Rattle.mesh_model.specs.Graph.{nodes_where};
ghost use Rattle.mesh_model.specs.Frames.{leads_out, frame_patches};
ghost use Rattle.round_model.specs.Rounds.{has};
ghost use Rattle.cut_refiner.specs.CutLists.{HaveRoom};

use file_model::PatchField;
use grid_vertex::NoMemory;
use std::alloc::Global;

/// The nodes of a cut and the patches of its frame, both ascending.
#[derive(Drop)]
pub struct CutLists {
    pub nodes: Vec<u32>,
    pub patches: Vec<u32>,
}

/// Lists the nodes of the set.
fn list_nodes(nodes: &mut Vec<u32>, in_cut: &[bool])
    requires empty { nodes.old.items ≡ [] }
    requires room { length in_cut.now ≤ vec_capacity nodes.old }
    requires few { length in_cut.now ≤ MOST_NODES }
    ensures { nodes.new.items ≡ nodes_where (length in_cut.now) (has in_cut.now) }
{
    for (node, is_in) in in_cut.iter().enumerate() {
        if *is_in {
            nodes.push_reserved(node as u32);
        }
    }
}

/// Lists the patches that lead out of the set.
fn list_patches(patches: &mut Vec<u32>, fields: &[PatchField], in_cut: &[bool])
    requires empty { patches.old.items ≡ [] }
    requires room { length fields.now ≤ vec_capacity patches.old }
    requires few { length fields.now ≤ MOST_PATCHES }
    ensures { patches.new.items ≡ frame_patches (has in_cut.now) fields.now }
{
    for (patch, field) in fields.iter().enumerate() {
        if leads_out(in_cut, field) {
            patches.push_reserved(patch as u32);
        }
    }
}

/// Tells whether the set has the node.
fn is_in(in_cut: &[bool], node: u32) -> bool
    ensures { result ≡ has in_cut.now node }
{
    in_cut.get(node as usize).copied().unwrap_or(false)
}

/// Tells whether the patch leads out of the set.
fn leads_out(in_cut: &[bool], field: &PatchField) -> bool
    ensures { result ≡ leads_out (has in_cut.now) field.now }
{
    is_in(in_cut, field.tail) && !is_in(in_cut, field.head)
}

impl CutLists {
    /// Empty lists with room for so many nodes and patches.
    pub fn with_room(alloc: Global, nodes: usize, patches: usize) -> Result<CutLists, NoMemory>
        ensures { IfOk result (HaveRoom nodes patches) }
    {
        let nodes = Vec::with_capacity(alloc, nodes)?;
        let patches = Vec::with_capacity(alloc, patches)?;
        Ok(CutLists { nodes, patches })
    }

    /// Lists the set and its frame. Condition: the lists are empty, and have room.
    pub fn fill(&mut self, in_cut: &[bool], fields: &[PatchField])
        requires room { HaveRoom (length in_cut.now) (length fields.now) self.old }
        requires few_nodes { length in_cut.now ≤ MOST_NODES }
        requires few_patches { length fields.now ≤ MOST_PATCHES }
        ensures nodes { self.new.nodes.items ≡ nodes_where (length in_cut.now) (has in_cut.now) }
        ensures patches { self.new.patches.items ≡ frame_patches (has in_cut.now) fields.now }
    {
        list_nodes(&mut self.nodes, in_cut);
        list_patches(&mut self.patches, fields, in_cut);
    }
}
