//! Making a strip.

ghost use Rattle.std.specs.Prelude.{◌≡◌, ◌%◌, ◌≤◌, IfOk, IsTrue};
ghost use Rattle.file_model.specs.Spelling.{file_text};
ghost use Rattle.file_model.specs.Rules.{is_version, IsPatchFile};
ghost use Rattle.mesh_model.specs.Accepted.{IsAccepted};
ghost use Rattle.strip_laws.specs.Strip.{strip_file};
ghost use Rattle.strip_laws.specs.declared.limits.TheConstants.{MOST_COLUMNS};

use crate::nodes::add_nodes;
use crate::patches::{add_all_halves, add_all_opened, add_squares};
use grid_vertex::NoMemory;
use patch_file::FileParts;
use std::alloc::Global;
use strip_laws::MOST_COLUMNS;

/// The strip of an even number of 2 to 16,384 columns, in version 1: a patch file whose mesh is accepted with
/// node 0 as its root.
pub fn strip(alloc: Global, columns: u32) -> Result<FileParts, NoMemory>
    requires even { columns % 2 ≡ 0 }
    requires least { 2 ≤ columns }
    requires most { columns ≤ MOST_COLUMNS }
    ensures lists { IfOk result (λ parts. parts ≡ strip_file 1 columns) }
    ensures file { IfOk result (λ parts. IsPatchFile parts (file_text parts)) }
    ensures accepted { IfOk result (λ parts. IsAccepted parts 0) }
{
    strip_as(alloc, columns, 1)
}

/// The strip in version 1 or 2.
pub fn strip_as(alloc: Global, columns: u32, version: u16) -> Result<FileParts, NoMemory>
    requires even { columns % 2 ≡ 0 }
    requires least { 2 ≤ columns }
    requires most { columns ≤ MOST_COLUMNS }
    requires version { IsTrue (is_version version) }
    ensures lists { IfOk result (λ parts. parts ≡ strip_file version columns) }
    ensures file { IfOk result (λ parts. IsPatchFile parts (file_text parts)) }
    ensures accepted { IfOk result (λ parts. IsAccepted parts 0) }
{
    let mut parts = FileParts::with_version(alloc, version);
    add_nodes(&mut parts, columns)?;
    add_squares(alloc, &mut parts, version, columns)?;
    add_all_halves(alloc, &mut parts, version, columns)?;
    add_all_opened(alloc, &mut parts, version, columns)?;
    Ok(parts)
}
