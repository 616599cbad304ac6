//! The frame of the root's patches.

ghost use Rattle.std.specs.Prelude.{◌≡◌, Ok, IfOk, IfErr, IfSome};
ghost use Rattle.file_model.specs.Lists.{FileLists};
ghost use Rattle.file_model.specs.Reading.{file_in};
ghost use Rattle.view_outside.specs.Files.{HasFile, file_bytes};
ghost use Rattle.accepted_mesh.specs.MeshView.{IsMeshOf};
ghost use Rattle.view_outside.specs.OnlyRead.{OnlyRead};
ghost use Rattle.body_loads.specs.declared.refusals.LoadRefusal.TheVariants.{ReadFault};
ghost use Rattle.body_loads.specs.Loads.{IsBodyChange};
ghost use Rattle.still_texts.specs.Shown.{IsBaseText, IsStillText};
ghost use Rattle.still_texts.specs.Texts.{GivesText};

use accepted_mesh::Mesh;
use body_loads::{LoadRefusal, load_bodies};
use frame_writer::frame_text;
use std::alloc::Global;
use view_outside::Store;

/// The frame of the root's patches, as the first of a session 0 that tried nothing. Their bodies are read
/// again, in the order of the patches.
pub fn base_text<S: Store>(
    alloc: Global,
    mesh: &Mesh,
    store: &mut S,
    file: u32,
) -> Result<Vec<u8>, LoadRefusal>
    requires { HasFile (S.files store.old) file }
    ensures told { IfSome (file_bytes (S.files store.old) file)
        (λ bytes.
        (lists : FileLists) → file_in bytes ≡ Ok lists → IsMeshOf lists mesh.now
        → GivesText (IsBaseText lists mesh.now.lists.root) result) }
    ensures frame { IfOk result (λ text. IsStillText text.items) }
    ensures changed { IfErr result IsBodyChange }
    ensures store { OnlyRead ReadFault (S.files store.old) (S.files store.new)
        (S.faults store.old) (S.faults store.new) result }
{
    let bodies = load_bodies(alloc, mesh.index(), store, file, mesh.base())?;
    let mut text = Vec::new(alloc);
    frame_text(
        alloc,
        0,
        1,
        &[mesh.root()],
        &[],
        mesh.base(),
        &bodies,
        &mut text,
    )?;
    Ok(text)
}
