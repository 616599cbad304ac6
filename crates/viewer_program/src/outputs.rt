//! What a command writes of a file, or why there is nothing.

ghost use Rattle.std.specs.Prelude.{◌≡◌, Ok, IfOk, IfErr, IfSome, MatchResult, OnErr};
ghost use Rattle.file_model.specs.Lists.{FileLists};
ghost use Rattle.file_model.specs.Reading.{file_in};
ghost use Rattle.view_outside.specs.Files.{HasFile, file_bytes};
ghost use Rattle.view_outside.specs.OnlyRead.{OnlyRead};
ghost use Rattle.accepted_mesh.specs.MeshView.{IsMeshOf};
ghost use Rattle.text_model.specs.declared.statuses.Status.TheVariants as statuses;
ghost use Rattle.viewer_program.specs.Commands.{IsKnown};
ghost use Rattle.viewer_program.specs.Answers.{IsTextOf, IsOfAccepted, IsTextOfKind};
ghost use Rattle.viewer_program.specs.Endings.{StopsAt, CanStop, IsChange};
ghost use Rattle.viewer_program.specs.WideTold.{IsBehindBodies, IsBehindLoads};
ghost use Rattle.viewer_program.specs.Outputs.{output_text, IsWritable, text_output, lines_output, GivesOutput};

use crate::commands::FileCommand;
use crate::converts::convert_output;
use crate::meshes::mesh_of;
use crate::refusals::{status_of_check, status_of_load};
use body_loads::LoadRefusal;
use dag_check::Mesh;
use grid_vertex::NoMemory;
use patch_file::FileParts;
use std::alloc::Global;
use still_texts::{accepted_text, base_text, cull_text, full_text, pick_text, sides_text};
use text_model::Status;
use view_outside::Store;

/// What a command writes.
#[derive(Drop)]
pub enum Output {
    /// Lines of text.
    Text(Vec<u8>),
    /// A patch file, of these parts.
    File(FileParts),
}

// A text that was made, or the status that tells why there is none.
fn text_output(made: Result<Vec<u8>, LoadRefusal>) -> Result<Output, Status>
    ensures { result ≡ text_output made }
{
    match made {
        Ok(text) => Ok(Output::Text(text)),
        Err(refusal) => Err(status_of_load(refusal)),
    }
}

// Lines that were made, or that there was no memory for them.
fn lines_output(made: Result<Vec<u8>, NoMemory>) -> Result<Output, Status>
    ensures { result ≡ lines_output made }
{
    match made {
        Ok(text) => Ok(Output::Text(text)),
        Err(NoMemory) => Err(Status::Memory),
    }
}

// What the command writes of the mesh. Bodies that it writes are read again.
fn output_of<S: Store>(
    alloc: Global,
    command: &FileCommand,
    mesh: &Mesh,
    store: &mut S,
    file: u32,
) -> Result<Output, Status>
    requires known { IsKnown command.now }
    requires file { HasFile (S.files store.old) file }
    ensures told { IfSome (file_bytes (S.files store.old) file)
        (λ bytes.
        (lists : FileLists) → file_in bytes ≡ Ok lists → IsMeshOf lists mesh.now
        → GivesOutput command.now lists mesh.now.lists.root result) }
    ensures kind { IfOk result (λ output. IsTextOfKind command.now (output_text output)) }
    ensures writable { IfOk result IsWritable }
    ensures stop { IfErr result (CanStop command.now) }
    ensures changed { IfErr result IsChange }
    ensures wide { IfErr result
        (IsBehindBodies mesh.now.lists.index (S.taken store.old) (S.taken store.new)) }
    ensures store { OnlyRead statuses.ReadFault (S.files store.old) (S.files store.new)
        (S.faults store.old) (S.faults store.new) result }
{
    match command {
        FileCommand::Base => text_output(base_text(alloc, mesh, store, file)),
        FileCommand::Check => lines_output(accepted_text(alloc, mesh)),
        FileCommand::Full(view) => text_output(full_text(alloc, mesh, view, store, file)),
        FileCommand::Convert(version) => convert_output(alloc, *version, mesh, store, file),
        FileCommand::Cull(planes) => text_output(cull_text(alloc, mesh, planes, store, file)),
        FileCommand::Sides(plane) => lines_output(sides_text(alloc, mesh, plane)),
        FileCommand::Pick(view, ray) => text_output(pick_text(alloc, mesh, view, ray, store, file)),
    }
}

/// What the command writes of the file, or the status that stops it. The file is checked first.
pub fn command_output<S: Store>(
    alloc: Global,
    command: &FileCommand,
    store: &mut S,
    file: u32,
) -> Result<Output, Status>
    requires known { IsKnown command.now }
    requires file { HasFile (S.files store.old) file }
    ensures told { IfSome (file_bytes (S.files store.old) file)
        (λ bytes.
        MatchResult result
        (λ output. IsOfAccepted (IsTextOf command.now) bytes (output_text output))
        (StopsAt command.now bytes)) }
    ensures kind { IfOk result (λ output. IsTextOfKind command.now (output_text output)) }
    ensures writable { IfOk result IsWritable }
    ensures stop { IfErr result (CanStop command.now) }
    ensures changed { IfErr result IsChange }
    ensures wide { IfErr result (IsBehindLoads (file_bytes (S.files store.old) file)
        (S.taken store.old) (S.taken store.new)) }
    ensures store { OnlyRead statuses.ReadFault (S.files store.old) (S.files store.new)
        (S.faults store.old) (S.faults store.new) result }
{
    match mesh_of(alloc, store, file) {
        Ok(mesh) => output_of(alloc, command, &mesh, store, file),
        Err(refusal) => Err(status_of_check(refusal)),
    }
}
