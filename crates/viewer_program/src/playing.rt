//! `play` and `playw`, from their file to their status.

ghost use Rattle.std.specs.Prelude.{◌≡◌, ℕ, ◌+◌, ◌≤◌, List, length};
ghost use Rattle.file_model.specs.Reading.{file_size};
ghost use Rattle.text_model.specs.declared.statuses.Status.TheVariants.{WriteFault};
ghost use Rattle.view_outside.specs.Faults.{Rose};
ghost use Rattle.view_outside.specs.Files.{HasFile, LacksName, file_bytes};
ghost use Rattle.view_outside.specs.OnlyRead.{OnlyIf};
ghost use Rattle.view_outside.specs.Taken.{taken_after};
ghost use Rattle.cache_chain.specs.ChainStates.{states_of, AreTiersOf};
ghost use Rattle.cache_chain.specs.Opening.{IsOpened};
ghost use Rattle.cache_chain.specs.Refusals.{base_size};
ghost use Rattle.line_reader.specs.Reads.{ReadsAtMost};
ghost use Rattle.viewer_program.specs.Endings.{IsChange};
ghost use Rattle.viewer_program.specs.Loading.{IsReady, HasGiven};
ghost use Rattle.viewer_program.specs.Outside.{StoreSeen, store_seen, outside_with, outside_seen};
ghost use Rattle.viewer_program.specs.PlayRuns.{play_world, IsWorldOf};
ghost use Rattle.viewer_program.specs.PlayEnds.{PlayEnds, RunEnds, IsMissing, counts_of};
ghost use Rattle.viewer_program.specs.Told.{named_bytes};

use crate::opening::{Opened, open_play};
use crate::plays::Play;
use crate::refusals::{status_of_run, status_of_script};
use accepted_mesh::Mesh;
use arrayvec::ArrayVec;
use cache_chain::Tier;
use std::alloc::Global;
use text_model::Status;
use view_machine::{EmptyRun, Machine};
use view_outside::{Sink, Source, Store};
use view_script::{MOST_SCRIPT, Mode, Script, read_script};

// Runs the script over tiers that have just opened.
fn run_script<S: Store, O: Sink>(
    alloc: Global,
    play: &Play,
    mesh: &Mesh,
    tiers: ArrayVec<Tier, 4, Global>,
    script: &Script,
    store: &mut S,
    file: u32,
    sink: &mut O,
) -> Status
    requires file { HasFile (S.files store.old) file }
    requires are { AreTiersOf mesh.now.lists.index (file_bytes (S.files store.old) file)
        (states_of tiers.items) }
    requires opened { IsOpened mesh.now.lists.index (file_bytes (S.files store.old) file)
        play.now.budgets play.now.width (states_of tiers.items) }
    requires world { IsWorldOf play.now (file_bytes (S.files store.old) file)
        (play_world mesh.now.lists (file_bytes (S.files store.old) file) play.now) }
    requires lines { script.now.tiers ≡ length play.now.budgets }
    ensures ends { (faults taken first : ℕ) → faults ≤ S.faults store.old
        → S.taken store.old ≡ taken_after taken first
        → RunEnds (play_world mesh.now.lists (file_bytes (S.files store.old) file) play.now)
        script.now.lines first
        (counts_of faults (S.faults store.new) taken (S.taken store.new))
        result (O.written sink.old) (O.written sink.new) }
    ensures write_fault { OnlyIf WriteFault (Rose (O.faults sink.old) (O.faults sink.new)) result }
{
    let Ok(first) = EmptyRun::new(alloc, mesh) else {
        return Status::Memory;
    };
    let mut machine = Machine::over_tiers(first, mesh, tiers, store, file);
    let ran = machine.play(alloc, script, sink);
    let _ = machine.into_store();
    status_of_run(ran)
}

// Reads the script and runs it over what was opened for it.
fn play_opened<S: Store, I: Source, O: Sink>(
    alloc: Global,
    play: &Play,
    opened: Opened,
    store: &mut S,
    source: &mut I,
    sink: &mut O,
) -> Status
    requires ready { IsReady play.now (S.files store.old) opened.file opened.mesh.lists
        (states_of opened.tiers.items) }
    ensures ends { (name : List ℕ) (before : StoreSeen)
        → named_bytes before.files name ≡ file_bytes (S.files store.old) opened.file
        → HasGiven (file_size opened.mesh.lists.index + base_size opened.mesh.lists) before
        (store_seen (S.files store.old) (S.faults store.old) (S.taken store.old))
        → PlayEnds play.now name
        (outside_with before (I.rest source.old) (I.faults source.old) (O.written sink.old)
        (O.faults sink.old))
        (outside_seen (S.files store.new) (S.faults store.new) (S.taken store.new)
        (I.rest source.new) (I.faults source.new) (O.written sink.new) (O.faults sink.new))
        result }
    ensures reads { ReadsAtMost (MOST_SCRIPT + 1) (I.rest source.old) (I.rest source.new) }
    ensures changed { IsChange result }
    ensures write_fault { OnlyIf WriteFault (Rose (O.faults sink.old) (O.faults sink.new)) result }
{
    let Opened { mesh, tiers, file } = opened;
    match read_script(alloc, source, Mode::Play, play.budgets().len() as u32) {
        Ok(script) => run_script(alloc, play, &mesh, tiers, &script, store, file, sink),
        Err(refusal) => status_of_script(refusal),
    }
}

/// Plays the script over the file of this name.
pub fn run_play<S: Store, I: Source, O: Sink>(
    alloc: Global,
    play: &Play,
    name: &str,
    store: &mut S,
    source: &mut I,
    sink: &mut O,
) -> Status
    ensures ends { PlayEnds play.now name.now
        (outside_seen (S.files store.old) (S.faults store.old) (S.taken store.old)
        (I.rest source.old) (I.faults source.old) (O.written sink.old) (O.faults sink.old))
        (outside_seen (S.files store.new) (S.faults store.new) (S.taken store.new)
        (I.rest source.new) (I.faults source.new) (O.written sink.new) (O.faults sink.new))
        result }
    ensures missing { LacksName (S.files store.old) name.now
        → IsMissing
        (outside_seen (S.files store.old) (S.faults store.old) (S.taken store.old)
        (I.rest source.old) (I.faults source.old) (O.written sink.old) (O.faults sink.old))
        (outside_seen (S.files store.new) (S.faults store.new) (S.taken store.new)
        (I.rest source.new) (I.faults source.new) (O.written sink.new) (O.faults sink.new))
        result }
    ensures reads { ReadsAtMost (MOST_SCRIPT + 1) (I.rest source.old) (I.rest source.new) }
    ensures changed { IsChange result }
    ensures write_fault { OnlyIf WriteFault (Rose (O.faults sink.old) (O.faults sink.new)) result }
{
    match open_play(alloc, play, name, store) {
        Ok(opened) => play_opened(alloc, play, opened, store, source, sink),
        Err(status) => status,
    }
}
