//! The frames of a view, and of one with half-spaces.

ghost use Rattle.std.specs.Prelude.{◌≡◌, Ok, IfOk, IfErr, IfSome};
ghost use Rattle.file_model.specs.Lists.{FileLists};
ghost use Rattle.file_model.specs.Reading.{file_in};
ghost use Rattle.view_outside.specs.Files.{HasFile, file_bytes};
ghost use Rattle.view_outside.specs.OnlyRead.{OnlyRead};
ghost use Rattle.accepted_mesh.specs.MeshView.{IsMeshOf};
ghost use Rattle.body_loads.specs.declared.refusals.LoadRefusal.TheVariants.{ReadFault};
ghost use Rattle.body_loads.specs.Loads.{IsBodyChange};
ghost use Rattle.still_texts.specs.Shown.{IsStillText};
ghost use Rattle.still_texts.specs.Full.{IsFullText, IsCullText};
ghost use Rattle.still_texts.specs.Texts.{GivesText};

use crate::rounds::round_text;
use accepted_mesh::Mesh;
use body_loads::LoadRefusal;
use round_model::View;
use std::alloc::Global;
use view_outside::Store;
use view_planes::Planes;

/// The frame of a round of the view in which every try is granted, as the first of a session 0. Its bodies
/// are read again, in the order of their patches.
pub fn full_text<S: Store>(
    alloc: Global,
    mesh: &Mesh,
    view: &View,
    store: &mut S,
    file: u32,
) -> Result<Vec<u8>, LoadRefusal>
    requires { HasFile (S.files store.old) file }
    ensures told { IfSome (file_bytes (S.files store.old) file)
        (λ bytes.
        (lists : FileLists) → file_in bytes ≡ Ok lists → IsMeshOf lists mesh.now
        → GivesText (IsFullText view.now lists mesh.now.lists.root) result) }
    ensures frame { IfOk result (λ text. IsStillText text.items) }
    ensures changed { IfErr result IsBodyChange }
    ensures store { OnlyRead ReadFault (S.files store.old) (S.files store.new)
        (S.faults store.old) (S.faults store.new) result }
{
    round_text(alloc, mesh, view, view.limit(), store, file)
}

/// The frame of a round of the view with half-spaces in which every try is granted, as `full_text` gives that
/// of a view.
pub fn cull_text<S: Store>(
    alloc: Global,
    mesh: &Mesh,
    planes: &Planes,
    store: &mut S,
    file: u32,
) -> Result<Vec<u8>, LoadRefusal>
    requires { HasFile (S.files store.old) file }
    ensures told { IfSome (file_bytes (S.files store.old) file)
        (λ bytes.
        (lists : FileLists) → file_in bytes ≡ Ok lists → IsMeshOf lists mesh.now
        → GivesText (IsCullText planes.now lists mesh.now.lists.root) result) }
    ensures frame { IfOk result (λ text. IsStillText text.items) }
    ensures changed { IfErr result IsBodyChange }
    ensures store { OnlyRead ReadFault (S.files store.old) (S.files store.new)
        (S.faults store.old) (S.faults store.new) result }
{
    round_text(alloc, mesh, planes, planes.view().limit(), store, file)
}
