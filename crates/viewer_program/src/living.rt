//! `live`, from its file to its status.

ghost use Rattle.std.specs.Prelude.{◌≡◌, ℕ, List};
ghost use Rattle.cache_chain.specs.ChainStates.{states_of};
ghost use Rattle.text_model.specs.declared.statuses.Status.TheVariants.{WriteFault};
ghost use Rattle.view_outside.specs.Faults.{Rose};
ghost use Rattle.view_outside.specs.Files.{LacksName, file_bytes};
ghost use Rattle.view_outside.specs.OnlyRead.{OnlyIf};
ghost use Rattle.viewer_program.specs.Endings.{IsChange};
ghost use Rattle.viewer_program.specs.LiveEnds.{LiveEnds};
ghost use Rattle.viewer_program.specs.Loading.{IsReady};
ghost use Rattle.viewer_program.specs.Outside.{StoreSeen, outside_with, outside_seen};
ghost use Rattle.viewer_program.specs.PlayEnds.{IsMissing};
ghost use Rattle.viewer_program.specs.Told.{named_bytes};

use crate::opening::{Opened, open_play};
use crate::plays::Play;
use crate::refusals::status_of_drive;
use live_machine::drive;
use std::alloc::Global;
use text_model::Status;
use view_machine::{EmptyRun, Machine};
use view_outside::{Sink, Source, Store};

// Answers the source's lines over what was opened.
fn drive_opened<S: Store, I: Source, O: Sink>(
    alloc: Global,
    play: &Play,
    opened: Opened,
    store: &mut S,
    source: &mut I,
    sink: &mut O,
) -> Status
    requires ready { IsReady play.now (S.files store.old) opened.file opened.mesh.lists
        (states_of opened.tiers.items) }
    ensures ends { (name : List ℕ) (before : StoreSeen)
        → named_bytes before.files name ≡ file_bytes (S.files store.old) opened.file
        → LiveEnds play.now name
        (outside_with before (I.rest source.old) (I.faults source.old) (O.written sink.old)
        (O.faults sink.old))
        (outside_seen (S.files store.new) (S.faults store.new) (S.taken store.new)
        (I.rest source.new) (I.faults source.new) (O.written sink.new) (O.faults sink.new))
        result }
    ensures changed { IsChange result }
    ensures write_fault { OnlyIf WriteFault (Rose (O.faults sink.old) (O.faults sink.new)) result }
{
    let _play = play;
    let Opened { mesh, tiers, file } = opened;
    let Ok(first) = EmptyRun::new(alloc, &mesh) else {
        return Status::Memory;
    };
    let mut machine = Machine::over_tiers(first, &mesh, tiers, store, file);
    let drove = drive(alloc, &mut machine, source, sink);
    status_of_drive(drove)
}

/// Answers a driver's lines over the file of this name, each before the next one is read.
pub fn run_live<S: Store, I: Source, O: Sink>(
    alloc: Global,
    play: &Play,
    name: &str,
    store: &mut S,
    source: &mut I,
    sink: &mut O,
) -> Status
    ensures ends { LiveEnds play.now name.now
        (outside_seen (S.files store.old) (S.faults store.old) (S.taken store.old)
        (I.rest source.old) (I.faults source.old) (O.written sink.old) (O.faults sink.old))
        (outside_seen (S.files store.new) (S.faults store.new) (S.taken store.new)
        (I.rest source.new) (I.faults source.new) (O.written sink.new) (O.faults sink.new))
        result }
    ensures missing { LacksName (S.files store.old) name.now
        → IsMissing
        (outside_seen (S.files store.old) (S.faults store.old) (S.taken store.old)
        (I.rest source.old) (I.faults source.old) (O.written sink.old) (O.faults sink.old))
        (outside_seen (S.files store.new) (S.faults store.new) (S.taken store.new)
        (I.rest source.new) (I.faults source.new) (O.written sink.new) (O.faults sink.new))
        result }
    ensures changed { IsChange result }
    ensures write_fault { OnlyIf WriteFault (Rose (O.faults sink.old) (O.faults sink.new)) result }
{
    match open_play(alloc, play, name, store) {
        Ok(opened) => drive_opened(alloc, play, opened, store, source, sink),
        Err(status) => status,
    }
}
