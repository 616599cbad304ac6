//! What a patch file says before its bodies, and where each body is.

ghost use Rattle.std.specs.Prelude.{◌≡◌, ◌+◌, ◌*◌, ◌≤◌, ◌<◌, ◌^◌, length, slice_get, Some, IfOk, IfSome};
ghost use Rattle.file_model.specs.Lists.{body_size, bodies_offset};
ghost use Rattle.file_model.specs.Reading.{body_offset, file_size};
ghost use Rattle.file_model.specs.Rules.{IsIndex};

use crate::sizes::{body_size, offsets_of};
use file_model::{Node, PatchField};
use grid_vertex::NoMemory;
use std::alloc::Global;
use std::marker::Model;

/// The version, the nodes and the patch fields of a patch file, with the places of its bodies.
#[derive(Drop)]
pub struct Index {
    version: u16,
    nodes: Vec<Node>,
    fields: Vec<PatchField>,
    body_offsets: Vec<u64>,
    file_length: u64,
}

impl Model for Index {
    ghost use Rattle.file_model.specs.Lists.{IndexLists};

    ghost Value = { IndexLists };

    ghost use Rattle.patch_file.specs.IndexState.{index_lists, IsIndexState};

    ghost view = { index_lists };

    ghost invariant = { IsIndexState };
}

impl Index {
    pub(crate) fn from_lists(
        alloc: Global,
        version: u16,
        nodes: Vec<Node>,
        fields: Vec<PatchField>,
    ) -> Result<Index, NoMemory>
        requires { IsIndex
            (record { version = version; nodes = nodes.items; fields = fields.items }) }
        ensures { IfOk result
            (λ index.
            index
            ≡ record { version = version; nodes = nodes.items; fields = fields.items }) }
    {
        let start = 16 + 20 * nodes.len() as u64 + 12 * fields.len() as u64;
        let (body_offsets, file_length) = offsets_of(alloc, version, start, &fields)?;
        Ok(Index {
            version,
            nodes,
            fields,
            body_offsets,
            file_length,
        })
    }

    /// The file's version, 1 or 2.
    pub fn version(&self) -> u16
        ensures value { result ≡ self.now.version }
        ensures rules { IsIndex self.now }
    {
        self.version
    }

    /// How many nodes the graph has, 2 to 65,536.
    pub fn node_count(&self) -> u32
        ensures value { result ≡ length self.now.nodes }
        ensures rules { IsIndex self.now }
    {
        self.nodes.len() as u32
    }

    /// How many patches the graph has, 1 to 65,536.
    pub fn patch_count(&self) -> u32
        ensures value { result ≡ length self.now.fields }
        ensures rules { IsIndex self.now }
    {
        self.fields.len() as u32
    }

    /// The node of this number.
    pub fn node(&self, node: u32) -> Node
        requires { node < length self.now.nodes }
        ensures { slice_get self.now.nodes node ≡ Some result }
    {
        self.nodes[node as usize]
    }

    /// The field of this patch.
    pub fn patch(&self, patch: u32) -> PatchField
        requires { patch < length self.now.fields }
        ensures { slice_get self.now.fields patch ≡ Some result }
    {
        self.fields[patch as usize]
    }

    /// The nodes by their numbers.
    pub fn nodes(&self) -> &[Node]
        ensures { result.now ≡ self.now.nodes }
    {
        &self.nodes
    }

    /// The patch fields by their numbers.
    pub fn fields(&self) -> &[PatchField]
        ensures { result.now ≡ self.now.fields }
    {
        &self.fields
    }

    /// Where the body of this patch begins, in bytes from the file's start.
    pub fn body_offset(&self, patch: u32) -> u64
        requires { patch < length self.now.fields }
        ensures { result ≡ body_offset self.now patch }
    {
        self.body_offsets[patch as usize]
    }

    /// How many bytes the body of this patch has.
    pub fn body_size(&self, patch: u32) -> u64
        requires { patch < length self.now.fields }
        ensures value { IfSome (slice_get self.now.fields patch)
            (λ field. result ≡ body_size self.now.version field) }
        ensures within { body_offset self.now patch + result ≤ file_size self.now }
        ensures short { file_size self.now ≤ 2 ^ 40 }
    {
        body_size(self.version, &self.fields[patch as usize])
    }

    /// How many bytes the file has, where no byte follows its last body. At most 2^40.
    pub fn file_length(&self) -> u64
        ensures value { result ≡ file_size self.now }
        ensures short { result ≤ 2 ^ 40 }
    {
        self.file_length
    }
}
