//! What a ray meets first in a view's frame.

ghost use Rattle.std.specs.Prelude.{◌≡◌, Ok, OnOk, IfOk, IfErr, IfSome};
ghost use Rattle.file_model.specs.Lists.{FileLists};
ghost use Rattle.file_model.specs.Reading.{file_in};
ghost use Rattle.text_model.specs.Lines.{Adds};
ghost use Rattle.view_outside.specs.Files.{HasFile, file_bytes};
ghost use Rattle.view_outside.specs.OnlyRead.{OnlyRead};
ghost use Rattle.accepted_mesh.specs.MeshView.{IsMeshOf};
ghost use Rattle.body_loads.specs.declared.refusals.LoadRefusal.TheVariants.{ReadFault};
ghost use Rattle.body_loads.specs.Loads.{IsBodyChange};
ghost use Rattle.still_texts.specs.Picks.{hit_line, pick_line, IsPickText, IsPickLine};
ghost use Rattle.still_texts.specs.Texts.{GivesText};

use crate::rounds::granted_round;
use accepted_mesh::Mesh;
use body_loads::{LoadRefusal, load_bodies};
use frame_writer::{Part, add_line};
use grid_vertex::NoMemory;
use ray_pick::{Hit, Ray, pick};
use round_model::View;
use std::alloc::Global;
use view_outside::Store;

// Appends the line of a hit.
#[tactic(auto, unfolding(crate::specs::Picks::hit_line))]
fn add_hit(alloc: Global, hit: Hit, text: &mut Vec<u8>) -> Result<(), NoMemory>
    ensures { OnOk result (Adds text.old.items text.new.items (hit_line hit)) }
{
    let parts = [
        Part::Number(hit.place),
        Part::Word("patch"),
        Part::Number(u64::from(hit.patch)),
        Part::Word("triangle"),
        Part::Number(u64::from(hit.triangle)),
        Part::Word("at"),
        Part::Signed(hit.above),
        Part::Signed(hit.below),
    ];
    add_line(alloc, "hit", &parts, text)
}

// The line of a hit, or of none.
fn line_of_pick(alloc: Global, found: Option<Hit>) -> Result<Vec<u8>, NoMemory>
    ensures { IfOk result (λ text. text.items ≡ pick_line found) }
{
    let mut text = Vec::new(alloc);
    match found {
        Some(hit) => add_hit(alloc, hit, &mut text)?,
        None => add_line(alloc, "miss", &[], &mut text)?,
    }
    Ok(text)
}

/// The line of the triangle that the ray meets first in the frame that `full_text` gives, or of none. The
/// frame's bodies are read again, in the order of their patches.
pub fn pick_text<S: Store>(
    alloc: Global,
    mesh: &Mesh,
    view: &View,
    ray: &Ray,
    store: &mut S,
    file: u32,
) -> Result<Vec<u8>, LoadRefusal>
    requires { HasFile (S.files store.old) file }
    ensures told { IfSome (file_bytes (S.files store.old) file)
        (λ bytes.
        (lists : FileLists) → file_in bytes ≡ Ok lists → IsMeshOf lists mesh.now
        → GivesText (IsPickText view.now ray.now lists mesh.now.lists.root) result) }
    ensures line { IfOk result (λ text. IsPickLine text.items) }
    ensures changed { IfErr result IsBodyChange }
    ensures store { OnlyRead ReadFault (S.files store.old) (S.files store.new)
        (S.faults store.old) (S.faults store.new) result }
{
    let round = granted_round(alloc, mesh, view, view.limit())?;
    let bodies = load_bodies(alloc, mesh.index(), store, file, round.patches())?;
    let found = pick(ray, round.patches(), &bodies);
    Ok(line_of_pick(alloc, found)?)
}
