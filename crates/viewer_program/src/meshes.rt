//! The mesh of a file, which is checked.

ghost use Rattle.std.specs.Prelude.{◌≡◌, IfOk, IfErr, IfSome};
ghost use Rattle.file_model.specs.Reading.{file_size};
ghost use Rattle.view_outside.specs.Files.{HasFile, file_bytes};
ghost use Rattle.view_outside.specs.OnlyRead.{OnlyIf, OnlyRead};
ghost use Rattle.view_outside.specs.Taken.{taken_after};
ghost use Rattle.mesh_model.specs.Meshes.{IsMesh};
ghost use Rattle.dag_check.specs.Checks.{Checks};
ghost use Rattle.dag_check.specs.declared.refusals.CheckRefusal.TheVariants as checks;
ghost use Rattle.viewer_program.specs.Loading.{TakesLess};

use dag_check::{CheckRefusal, Mesh, check};
use patch_file::read_index;
use std::alloc::Global;
use view_outside::Store;

/// The mesh of the file, each body of which is read once.
pub fn mesh_of<S: Store>(alloc: Global, store: &mut S, file: u32) -> Result<Mesh, CheckRefusal>
    requires { HasFile (S.files store.old) file }
    ensures told { IfSome (file_bytes (S.files store.old) file) (λ bytes. Checks bytes result) }
    ensures facts { IfOk result (λ mesh. IsMesh mesh.lists) }
    ensures taken { IfOk result
        (λ mesh.
        S.taken store.new ≡ taken_after (S.taken store.old) (file_size mesh.lists.index)) }
    ensures cut { IfErr result
        (OnlyIf checks.ReadFault
        (TakesLess (file_bytes (S.files store.old) file) (S.taken store.old)
        (S.taken store.new))) }
    ensures store { OnlyRead checks.ReadFault (S.files store.old) (S.files store.new)
        (S.faults store.old) (S.faults store.new) result }
{
    let index = read_index(alloc, store, file)?;
    check(alloc, index, store, file)
}
