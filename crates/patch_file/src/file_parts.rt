//! What is to be written as a patch file.

ghost use Rattle.std.specs.Prelude.{◌≡◌, IsTrue, OnOk, OnErr};
ghost use Rattle.file_model.specs.Rules.{is_version};
ghost use Rattle.patch_file.specs.PartsState.{no_parts, with_node, with_patch};

use file_model::{Node, PatchField};
use grid_vertex::NoMemory;
use patch_body::Body;
use std::alloc::Global;
use std::marker::Model;

/// The nodes, the patch fields and the bodies of a file.
#[derive(Drop)]
pub struct FileParts {
    pub(crate) version: u16,
    pub(crate) nodes: Vec<Node>,
    pub(crate) fields: Vec<PatchField>,
    pub(crate) bodies: Vec<Body>,
}

impl Model for FileParts {
    ghost use Rattle.file_model.specs.Lists.{FileLists};

    ghost Value = { FileLists };

    ghost use Rattle.patch_file.specs.PartsView.{parts_lists, AreOfVersion};

    ghost view = { parts_lists };

    ghost invariant = { AreOfVersion };
}

impl FileParts {
    /// No parts yet, of a file of version 1.
    pub fn new(alloc: Global) -> FileParts
        ensures { result ≡ no_parts 1 }
    {
        FileParts::with_version(alloc, 1)
    }

    /// No parts yet, of a file of this version, 1 or 2.
    pub fn with_version(alloc: Global, version: u16) -> FileParts
        requires { IsTrue (is_version version) }
        ensures { result ≡ no_parts version }
    {
        FileParts {
            version,
            nodes: Vec::new(alloc),
            fields: Vec::new(alloc),
            bodies: Vec::new(alloc),
        }
    }

    /// Adds the next node.
    pub fn add_node(&mut self, node: Node) -> Result<(), NoMemory>
        ensures ok { OnOk result (self.new ≡ with_node self.old node) }
        ensures err { OnErr result (self.new ≡ self.old) }
    {
        self.nodes.push(node)?;
        Ok(())
    }

    /// Adds the next patch with its body, which has the version of these parts.
    pub fn add_patch(&mut self, field: PatchField, body: Body) -> Result<(), NoMemory>
        requires { body.version ≡ self.old.index.version }
        ensures ok { OnOk result (self.new ≡ with_patch self.old field body.lists) }
        ensures err { OnErr result (self.new ≡ self.old) }
    {
        self.fields.reserve(1)?;
        self.bodies.push(body)?;
        self.fields.push(field).unwrap();
        Ok(())
    }
}
