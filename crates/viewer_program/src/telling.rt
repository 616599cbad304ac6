//! Telling a status: its line goes to a sink, and its code is what the program ends with.

ghost use Rattle.std.specs.Prelude.{◌≡◌, true};
ghost use Rattle.text_model.specs.StatusText.{status_code};
ghost use Rattle.viewer_program.specs.Numbered.{has_numbers};
ghost use Rattle.viewer_program.specs.Outside.{sink_seen};
ghost use Rattle.viewer_program.specs.Telling.{Gets, IsTold};

use crate::statuses::{plain_line, status_code, status_text};
use std::alloc::Global;
use text_model::Status;
use view_outside::{Sink, write_all};

// Writes the text as far as the sink takes it.
fn write_as_far<O: Sink>(text: &[u8], sink: &mut O)
    ensures { Gets text.now (sink_seen (O.written sink.old) (O.faults sink.old))
        (sink_seen (O.written sink.new) (O.faults sink.new)) }
{
    let _ = write_all(text, sink);
}

// Writes the line of a status with numbers, if there is memory for it.
fn tell_numbers<O: Sink>(alloc: Global, status: &Status, sink: &mut O)
    requires { has_numbers status.now ≡ true }
    ensures { IsTold status.now (sink_seen (O.written sink.old) (O.faults sink.old))
        (sink_seen (O.written sink.new) (O.faults sink.new)) }
{
    let mut line = Vec::new(alloc);
    if status_text(alloc, status, &mut line).is_ok() {
        write_as_far(&line, sink);
    }
}

/// Writes the line that tells the status, and answers its code, which tells it also where the sink fails or there is
/// no memory for the line's numbers.
pub fn tell<O: Sink>(alloc: Global, status: &Status, sink: &mut O) -> u8
    ensures line { IsTold status.now (sink_seen (O.written sink.old) (O.faults sink.old))
        (sink_seen (O.written sink.new) (O.faults sink.new)) }
    ensures code { result ≡ status_code status.now }
{
    match plain_line(status) {
        Some(line) => write_as_far(line.as_bytes(), sink),
        None => tell_numbers(alloc, status, sink),
    }
    status_code(status)
}
