//! Checking a patch file from its store.

ghost use Rattle.std.specs.Prelude.{◌≡◌, length, Ok, IfOk, IfErr, IfSome};
ghost use Rattle.file_model.specs.declared.refusals.ReadRefusal.TheVariants as reads;
ghost use Rattle.file_model.specs.Lists.{bodies_size};
ghost use Rattle.file_model.specs.Reading.{index_in, file_in};
ghost use Rattle.mesh_model.specs.Meshes.{IsMesh};
ghost use Rattle.view_outside.specs.Files.{HasFile, TellsBytes, file_bytes};
ghost use Rattle.view_outside.specs.OnlyRead.{OnlyIf, OnlyRead};
ghost use Rattle.view_outside.specs.Taken.{taken_after, RisesAtMost};
ghost use Rattle.dag_check.specs.Checks.{bodies_behind, FollowsBodies, FollowsFile, Checks};
ghost use Rattle.dag_check.specs.declared.refusals.CheckRefusal.TheVariants as checks;

use crate::checkers::Checker;
use crate::refusals::CheckRefusal;
use accepted_mesh::Mesh;
use file_model::ReadRefusal;
use patch_file::{Index, read_body, read_end};
use std::alloc::Global;
use view_outside::Store;

/// Reads each body once, in patch order, and adds it to a check.
fn read_bodies<S: Store>(
    alloc: Global,
    index: Index,
    store: &mut S,
    file: u32,
) -> Result<Checker, ReadRefusal>
    requires { HasFile (S.files store.old) file }
    ensures told { IfSome (file_bytes (S.files store.old) file)
        (λ bytes. FollowsBodies result (bodies_behind index bytes)) }
    ensures index { IfOk result (λ checker. checker.index ≡ index) }
    ensures all { IfOk result (λ checker. checker.next ≡ length index.fields) }
    ensures store { OnlyRead reads.ReadFault (S.files store.old) (S.files store.new)
        (S.faults store.old) (S.faults store.new) result }
    ensures taken { IfOk result (λ _. S.taken store.new
        ≡ taken_after (S.taken store.old) (bodies_size index.version index.fields)) }
    ensures cut { IfErr result
        (OnlyIf reads.ReadFault
        (RisesAtMost (S.taken store.old) (S.taken store.new)
        (bodies_size index.version index.fields))) }
{
    let patches = index.patch_count();
    let mut checker = Checker::begin(alloc, index)?;
    for patch in 0..patches {
        let body = read_body(alloc, checker.index(), store, file, patch)?;
        checker = checker.add_body(&body)?;
    }
    Ok(checker)
}

/// Reads what follows the index: the bodies, and then the file's end.
fn read_rest<S: Store>(
    alloc: Global,
    index: Index,
    store: &mut S,
    file: u32,
) -> Result<Checker, ReadRefusal>
    requires file { HasFile (S.files store.old) file }
    requires told { IfSome (file_bytes (S.files store.old) file)
        (λ bytes. index_in bytes ≡ Ok index) }
    ensures told { IfSome (file_bytes (S.files store.old) file)
        (λ bytes. FollowsFile result (file_in bytes)) }
    ensures bytes { IfOk result (λ _. TellsBytes (S.files store.old) file) }
    ensures index { IfOk result (λ checker. checker.index ≡ index) }
    ensures all { IfOk result (λ checker. checker.next ≡ length index.fields) }
    ensures store { OnlyRead reads.ReadFault (S.files store.old) (S.files store.new)
        (S.faults store.old) (S.faults store.new) result }
    ensures taken { IfOk result (λ _. S.taken store.new
        ≡ taken_after (S.taken store.old) (bodies_size index.version index.fields)) }
    ensures cut { IfErr result
        (OnlyIf reads.ReadFault
        (RisesAtMost (S.taken store.old) (S.taken store.new)
        (bodies_size index.version index.fields))) }
{
    let checker = read_bodies(alloc, index, store, file)?;
    match read_end(checker.index(), store, file) {
        Ok(()) => Ok(checker),
        Err(refusal) => Err(refusal),
    }
}

/// Reads what follows the index of a file, each body once, and gives its mesh or why there is none.
/// Condition: the index is the file's.
///
/// Each fault of the file comes before those of the mesh. `ReadFault` is a failure of the store.
pub fn check<S: Store>(
    alloc: Global,
    index: Index,
    store: &mut S,
    file: u32,
) -> Result<Mesh, CheckRefusal>
    requires file { HasFile (S.files store.old) file }
    requires told { IfSome (file_bytes (S.files store.old) file)
        (λ bytes. index_in bytes ≡ Ok index) }
    ensures told { IfSome (file_bytes (S.files store.old) file) (λ bytes. Checks bytes result) }
    ensures index { IfOk result (λ mesh. mesh.lists.index ≡ index) }
    ensures facts { IfOk result (λ mesh. IsMesh mesh.lists) }
    ensures store { OnlyRead checks.ReadFault (S.files store.old) (S.files store.new)
        (S.faults store.old) (S.faults store.new) result }
    ensures taken { IfOk result (λ _. S.taken store.new
        ≡ taken_after (S.taken store.old) (bodies_size index.version index.fields)) }
    ensures cut { IfErr result
        (OnlyIf checks.ReadFault
        (RisesAtMost (S.taken store.old) (S.taken store.new)
        (bodies_size index.version index.fields))) }
{
    let checker = read_rest(alloc, index, store, file)?;
    Ok(checker.finish()?)
}
