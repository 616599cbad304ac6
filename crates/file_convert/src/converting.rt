//! Converting a file.

ghost use Rattle.std.specs.Prelude.{◌≡◌, length, map, OnOk, IfOk, IfErr, IsTrue};
ghost use Rattle.std.specs.Arc.{arc_value};
ghost use Rattle.std.specs.List.{list_all};
ghost use Rattle.file_model.specs.Spelling.{file_text};
ghost use Rattle.file_model.specs.Rules.{is_version, is_body, IsPatchFile};
ghost use Rattle.file_convert.specs.Converted.{with_version, AllFit};
ghost use Rattle.file_convert.specs.Held.{lists_of, held_file, HoldsBodies, with_all_nodes, with_all_patches, RefusesWide};

use crate::bodies::converted;
use crate::refusals::ConvertRefusal;
use crate::spans::check_spans;
use file_model::{Node, PatchField};
use grid_vertex::NoMemory;
use patch_file::{Body, FileParts, Index};
use std::alloc::Global;
use std::sync::Arc;

/// Adds nodes.
fn add_nodes(parts: &mut FileParts, nodes: &[Node]) -> Result<(), NoMemory>
    ensures { OnOk result (parts.new ≡ with_all_nodes parts.old nodes.now) }
{
    for node in nodes {
        parts.add_node(*node)?;
    }
    Ok(())
}

/// Adds patches with their bodies, in the parts' version.
fn add_patches(
    alloc: Global,
    parts: &mut FileParts,
    version: u16,
    fields: &[PatchField],
    bodies: &[Arc<Body>],
) -> Result<(), NoMemory>
    requires version { IsTrue (is_version version) }
    requires same { parts.old.index.version ≡ version }
    requires as_many { length bodies.now ≡ length fields.now }
    requires fit { AllFit version (lists_of (map arc_value bodies.now)) }
    ensures parts { OnOk result
        (parts.new
        ≡ with_all_patches parts.old fields.now (lists_of (map arc_value bodies.now))) }
    ensures rules { OnOk result
        (IsTrue (list_all (is_body version) (lists_of (map arc_value bodies.now)))) }
{
    for (patch, field) in fields.iter().enumerate() {
        let body = converted(alloc, &bodies[patch], version)?;
        parts.add_patch(*field, body)?;
    }
    Ok(())
}

/// The parts of the file in a version, 1 or 2, from its index and all of its bodies in order. Wide comes
/// exactly where the version is 2 and some patch spans more than 65,535 on an axis, with the least such
/// patch.
pub fn convert_parts(
    alloc: Global,
    index: &Index,
    bodies: &[Arc<Body>],
    version: u16,
) -> Result<FileParts, ConvertRefusal>
    requires version { IsTrue (is_version version) }
    requires bodies { HoldsBodies index.now (map arc_value bodies.now) }
    ensures lists { IfOk result
        (λ parts. parts ≡ with_version version (held_file index.now (map arc_value bodies.now))) }
    ensures file { IfOk result (λ parts. IsPatchFile parts (file_text parts)) }
    ensures wide { IfErr result (RefusesWide version (lists_of (map arc_value bodies.now))) }
{
    let _rules = index.version();
    check_spans(alloc, bodies, version)?;
    let mut parts = FileParts::with_version(alloc, version);
    add_nodes(&mut parts, index.nodes())?;
    add_patches(alloc, &mut parts, version, index.fields(), bodies)?;
    Ok(parts)
}
