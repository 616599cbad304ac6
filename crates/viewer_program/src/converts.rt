//! The file in a version.

ghost use Rattle.std.specs.Prelude.{◌≡◌, Ok, IfOk, IfErr, IfSome, IsTrue};
ghost use Rattle.file_model.specs.Lists.{FileLists};
ghost use Rattle.file_model.specs.Reading.{file_in};
ghost use Rattle.file_model.specs.Rules.{is_version};
ghost use Rattle.view_outside.specs.Files.{HasFile, file_bytes};
ghost use Rattle.view_outside.specs.OnlyRead.{OnlyRead};
ghost use Rattle.accepted_mesh.specs.MeshView.{IsMeshOf};
ghost use Rattle.text_model.specs.declared.statuses.Status.TheVariants as statuses;
ghost use Rattle.viewer_program.specs.declared.commands.FileCommand.TheVariants.{Convert};
ghost use Rattle.viewer_program.specs.Answers.{IsTextOfKind};
ghost use Rattle.viewer_program.specs.Endings.{CanStop, IsChange};
ghost use Rattle.viewer_program.specs.WideTold.{IsBehindBodies};
ghost use Rattle.viewer_program.specs.Outputs.{output_text, IsWritable, GivesOutput};

use crate::outputs::Output;
use crate::refusals::{status_of_convert, status_of_load};
use dag_check::Mesh;
use file_convert::{convert_parts, load_all};
use std::alloc::Global;
use text_model::Status;
use view_outside::Store;

/// The file of the mesh in a version. All bodies are read again, in the order of the patches.
pub fn convert_output<S: Store>(
    alloc: Global,
    version: u16,
    mesh: &Mesh,
    store: &mut S,
    file: u32,
) -> Result<Output, Status>
    requires version { IsTrue (is_version version) }
    requires file { HasFile (S.files store.old) file }
    ensures told { IfSome (file_bytes (S.files store.old) file)
        (λ bytes.
        (lists : FileLists) → file_in bytes ≡ Ok lists → IsMeshOf lists mesh.now
        → GivesOutput (Convert version) lists mesh.now.lists.root result) }
    ensures kind { IfOk result (λ output. IsTextOfKind (Convert version) (output_text output)) }
    ensures writable { IfOk result IsWritable }
    ensures stop { IfErr result (CanStop (Convert version)) }
    ensures changed { IfErr result IsChange }
    ensures wide { IfErr result
        (IsBehindBodies mesh.now.lists.index (S.taken store.old) (S.taken store.new)) }
    ensures store { OnlyRead statuses.ReadFault (S.files store.old) (S.files store.new)
        (S.faults store.old) (S.faults store.new) result }
{
    let bodies = match load_all(alloc, mesh.index(), store, file) {
        Ok(bodies) => bodies,
        Err(refusal) => return Err(status_of_load(refusal)),
    };
    match convert_parts(alloc, mesh.index(), &bodies, version) {
        Ok(parts) => Ok(Output::File(parts)),
        Err(refusal) => Err(status_of_convert(refusal)),
    }
}
