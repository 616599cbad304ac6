//! Rounds in which every try is granted, and the texts of their frames.

ghost use Rattle.std.specs.Prelude.{◌≡◌, [], Ok, IfOk, IfErr, IfSome};
ghost use Rattle.std.specs.List.{AllByRecursion};
ghost use Rattle.file_model.specs.Lists.{FileLists};
ghost use Rattle.file_model.specs.Reading.{file_in};
ghost use Rattle.view_outside.specs.Files.{HasFile, file_bytes};
ghost use Rattle.view_outside.specs.OnlyRead.{OnlyRead};
ghost use Rattle.round_model.specs.declared.asks.Ask.TheVariants.{Done};
ghost use Rattle.round_model.specs.Rounds.{IsWhole};
ghost use Rattle.round_model.specs.Refiners.{pending_ask, round_state};
ghost use Rattle.accepted_mesh.specs.MeshView.{IsMeshOf};
ghost use Rattle.body_loads.specs.declared.refusals.LoadRefusal.TheVariants.{ReadFault};
ghost use Rattle.body_loads.specs.Loads.{IsBodyChange};
ghost use Rattle.still_texts.specs.Shown.{IsStillText};
ghost use Rattle.still_texts.specs.Full.{want_rules, IsRoundText};
ghost use Rattle.still_texts.specs.Texts.{GivesText};

use accepted_mesh::Mesh;
use body_loads::{LoadRefusal, load_bodies};
use cut_refiner::{Ask, Refiner};
use error_metric::Want;
use frame_writer::frame_text;
use grid_vertex::NoMemory;
use std::alloc::Global;
use view_outside::Store;

/// A round in which every try is granted.
pub fn granted_round<'m, W: Want>(
    alloc: Global,
    mesh: &'m Mesh,
    want: &W,
    limit: u32,
) -> Result<Refiner<'m>, NoMemory>
    ensures rules { IfOk result
        (λ round.
        round.rules ≡ want_rules (W.scores want.now) (W.least want.now) limit mesh.now.lists) }
    ensures done { IfOk result (λ round. pending_ask round ≡ Done) }
    ensures whole { IfOk result (λ round. IsWhole (round_state round)) }
    ensures granted { IfOk result
        (λ round. AllByRecursion (λ answer. answer.epoch ≡ 1) round.tries) }
{
    let mut round = Refiner::begin(alloc, mesh, want, limit)?;
    while let Ask::Lock(_) = round.ask() {
        round.tell(1);
    }
    Ok(round)
}

/// The frame of a round in which every try is granted, as the first of a session 0. Its bodies are read
/// again, in the order of their patches.
pub fn round_text<W: Want, S: Store>(
    alloc: Global,
    mesh: &Mesh,
    want: &W,
    limit: u32,
    store: &mut S,
    file: u32,
) -> Result<Vec<u8>, LoadRefusal>
    requires { HasFile (S.files store.old) file }
    ensures told { IfSome (file_bytes (S.files store.old) file)
        (λ bytes.
        (lists : FileLists) → file_in bytes ≡ Ok lists → IsMeshOf lists mesh.now
        → GivesText
        (IsRoundText (want_rules (W.scores want.now) (W.least want.now) limit) lists
        mesh.now.lists.root) result) }
    ensures frame { IfOk result (λ text. IsStillText text.items) }
    ensures changed { IfErr result IsBodyChange }
    ensures store { OnlyRead ReadFault (S.files store.old) (S.files store.new)
        (S.faults store.old) (S.faults store.new) result }
{
    let round = granted_round(alloc, mesh, want, limit)?;
    let bodies = load_bodies(alloc, mesh.index(), store, file, round.patches())?;
    let mut text = Vec::new(alloc);
    frame_text(
        alloc,
        0,
        1,
        round.cut(),
        round.tries(),
        round.patches(),
        &bodies,
        &mut text,
    )?;
    Ok(text)
}
