//! What comes before a script: the file is found and checked, and the tiers open.

ghost use Rattle.std.specs.Prelude.{◌≡◌, ℕ, ◌+◌, ◌≤◌, List, Ok, Err, IfOk, IfErr, IfSome};
ghost use Rattle.file_model.specs.Reading.{file_size};
ghost use Rattle.text_model.specs.declared.statuses.Status.TheVariants.{ReadFault};
ghost use Rattle.view_outside.specs.Files.{HasFile, LacksName, file_bytes};
ghost use Rattle.view_outside.specs.Taken.{taken_after};
ghost use Rattle.mesh_model.specs.Meshes.{IsMesh};
ghost use Rattle.dag_check.specs.Checks.{Checks};
ghost use Rattle.cache_chain.specs.ChainStates.{states_of};
ghost use Rattle.cache_chain.specs.Refusals.{base_size};
ghost use Rattle.viewer_program.specs.Endings.{IsChange};
ghost use Rattle.viewer_program.specs.Loading.{IsReady, HasGiven, StopsLoading};
ghost use Rattle.viewer_program.specs.Outside.{StoreSeen, store_seen};
ghost use Rattle.viewer_program.specs.Told.{named_bytes};

use crate::meshes::mesh_of;
use crate::plays::Play;
use crate::refusals::{status_of_check, status_of_start};
use accepted_mesh::Mesh;
use arrayvec::ArrayVec;
use cache_chain::{Tier, open_tiers};
use std::alloc::Global;
use text_model::Status;
use view_outside::Store;

/// The mesh of a file that was checked, and tiers over it that have just opened.
#[derive(Drop)]
pub struct Opened {
    pub mesh: Mesh,
    pub tiers: ArrayVec<Tier, 4, Global>,
    pub file: u32,
}

// Opens the tiers over the mesh of a file that was checked.
fn open_over<S: Store>(
    alloc: Global,
    play: &Play,
    mesh: Mesh,
    store: &mut S,
    file: u32,
) -> Result<Opened, Status>
    requires file { HasFile (S.files store.old) file }
    requires facts { IsMesh mesh.lists }
    requires checked { IfSome (file_bytes (S.files store.old) file)
        (λ bytes. Checks bytes (Ok mesh)) }
    ensures ready { IfOk result
        (λ opened.
        IsReady play.now (S.files store.new) opened.file opened.mesh.lists
        (states_of opened.tiers.items)) }
    ensures file { IfOk result (λ opened. opened.file ≡ file) }
    ensures kept { S.files store.new ≡ S.files store.old }
    ensures given { (before : StoreSeen)
        → HasGiven (file_size mesh.lists.index) before
        (store_seen (S.files store.old) (S.faults store.old) (S.taken store.old))
        → IfOk result
        (λ opened.
        HasGiven (file_size opened.mesh.lists.index + base_size opened.mesh.lists) before
        (store_seen (S.files store.new) (S.faults store.new) (S.taken store.new))) }
    ensures stops { (name : List ℕ) (before : StoreSeen)
        → named_bytes before.files name ≡ file_bytes (S.files store.old) file
        → HasGiven (file_size mesh.lists.index) before
        (store_seen (S.files store.old) (S.faults store.old) (S.taken store.old))
        → IfErr result
        (StopsLoading play.now name before
        (store_seen (S.files store.new) (S.faults store.new) (S.taken store.new))) }
    ensures changed { IfErr result IsChange }
{
    match open_tiers(alloc, &mesh, play.budgets(), play.width(), store, file) {
        Ok(tiers) => Ok(Opened { mesh, tiers, file }),
        Err(refusal) => Err(status_of_start(refusal)),
    }
}

/// Finds and checks the file of this name, and opens the tiers of the play over it. Nothing else is read.
pub fn open_play<S: Store>(
    alloc: Global,
    play: &Play,
    name: &str,
    store: &mut S,
) -> Result<Opened, Status>
    ensures ready { IfOk result
        (λ opened.
        IsReady play.now (S.files store.new) opened.file opened.mesh.lists
        (states_of opened.tiers.items)) }
    ensures found { IfOk result
        (λ opened.
        named_bytes (S.files store.old) name.now ≡ file_bytes (S.files store.new) opened.file) }
    ensures given { IfOk result
        (λ opened.
        HasGiven (file_size opened.mesh.lists.index + base_size opened.mesh.lists)
        (store_seen (S.files store.old) (S.faults store.old) (S.taken store.old))
        (store_seen (S.files store.new) (S.faults store.new) (S.taken store.new))) }
    ensures stops { IfErr result
        (StopsLoading play.now name.now
        (store_seen (S.files store.old) (S.faults store.old) (S.taken store.old))
        (store_seen (S.files store.new) (S.faults store.new) (S.taken store.new))) }
    ensures changed { IfErr result IsChange }
    ensures missing { LacksName (S.files store.old) name.now
        → (result ≡ Err ReadFault) × (S.taken store.new ≡ S.taken store.old) }
{
    let Ok(file) = store.find(name) else {
        return Err(Status::ReadFault);
    };
    match mesh_of(alloc, store, file) {
        Ok(mesh) => open_over(alloc, play, mesh, store, file),
        Err(refusal) => Err(status_of_check(refusal)),
    }
}
