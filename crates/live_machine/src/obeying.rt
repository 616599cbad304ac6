//! Doing what a line orders.

ghost use Rattle.std.specs.Prelude.{◌≡◌, ◌^◌, ◌<◌, ◌++◌, [], codes, true, None, IfOk};
ghost use Rattle.live_model.specs.declared.orders.LiveOrder.TheVariants as live;
ghost use Rattle.live_model.specs.LiveOrders.{live_fault};
ghost use Rattle.live_model.specs.LiveTexts.{show_text};
ghost use Rattle.live_model.specs.Places.{place_of, is_fast};
ghost use Rattle.live_machine.specs.Obeying.{ObeysOrder, ObeyGives};
ghost use Rattle.session_seats.specs.Seats.{HasView};
ghost use Rattle.text_model.specs.Lines.{line_of};
ghost use Rattle.view_machine.specs.LineEnds.{FewFrames, frames_at};
ghost use Rattle.view_machine.specs.Machines.{world_of, run_state};
ghost use Rattle.view_machine.specs.ShownFrames.{frame_shown};

use frame_writer::add_line;
use grid_vertex::NoMemory;
use live_model::LiveOrder;
use live_words::{body_text, show_text};
use std::alloc::Global;
use view_machine::{Machine, ShownFrame};
use view_outside::Store;

// The answer that shows the frame.
fn frame_text(alloc: Global, frame: &ShownFrame) -> Result<Vec<u8>, NoMemory>
    ensures { IfOk result (λ text. text.items ≡ show_text (frame_shown frame.now)) }
{
    let triangles = frame.triangles();
    show_text(
        alloc,
        frame.session(),
        frame.number(),
        triangles,
        frame.cut(),
        frame.tries(),
        frame.patches(),
    )
}

// The session's frame is shown.
fn show_frame<S: Store>(
    alloc: Global,
    machine: &mut Machine<S>,
    session: u32,
) -> Result<Vec<u8>, NoMemory>
    requires view { HasView machine.old.seats.sessions session }
    requires few { frames_at machine.old.seats.sessions session < 2 ^ 63 }
    ensures { ObeyGives (live.Show session) machine.old machine.new
        (S.files machine.old.chain.store) (S.files machine.new.chain.store)
        (S.faults machine.old.chain.store) (S.faults machine.new.chain.store) result
        (λ text. text.items) }
{
    match machine.show(alloc, session) {
        Ok(frame) => frame_text(alloc, &frame),
        Err(error) => Err(error),
    }
}

// The patch's body is given.
fn give_body<S: Store>(alloc: Global, machine: &Machine<S>, patch: u32) -> Result<Vec<u8>, NoMemory>
    requires { is_fast (world_of machine.now) (run_state machine.now) patch ≡ true }
    ensures { IfOk result
        (λ text.
        ObeysOrder (world_of machine.now) (run_state machine.now) (live.Body patch)
        (run_state machine.now) text.items) }
{
    match machine.fast_body(patch) {
        Some(body) => body_text(alloc, patch, body),
        None => unreachable!(),
    }
}

// The line that ends the lines of rounds, behind them.
fn end_rounds(alloc: Global, mut text: Vec<u8>) -> Result<Vec<u8>, NoMemory>
    ensures { IfOk result (λ ended. ended.items ≡ text.items ++ line_of (codes "end") []) }
{
    add_line(alloc, "end", &[], &mut text)?;
    Ok(text)
}

// The tiers turn so many rounds.
fn turn_rounds<S: Store>(
    alloc: Global,
    machine: &mut Machine<S>,
    rounds: u32,
) -> Result<Vec<u8>, NoMemory>
    ensures { ObeyGives (live.Turns rounds) machine.old machine.new
        (S.files machine.old.chain.store) (S.files machine.new.chain.store)
        (S.faults machine.old.chain.store) (S.faults machine.new.chain.store) result
        (λ text. text.items) }
{
    let mut text = Vec::new(alloc);
    match machine.turn_rounds(alloc, rounds, &mut text) {
        Ok(()) => end_rounds(alloc, text),
        Err(error) => Err(error),
    }
}

/// Does what the order says, and gives its answer. Condition: the order has no fault here, and the version of the board
/// and each session's count of frames are below 2^63. Without memory the steps that were made stay.
pub fn obey<S: Store>(
    alloc: Global,
    machine: &mut Machine<S>,
    order: &LiveOrder,
) -> Result<Vec<u8>, NoMemory>
    requires allowed { live_fault (place_of (world_of machine.old) (run_state machine.old)) order.now
        ≡ None }
    requires few { machine.old.board.version < 2 ^ 63 }
    requires few_frames { FewFrames machine.old }
    ensures { ObeyGives order.now machine.old machine.new (S.files machine.old.chain.store)
        (S.files machine.new.chain.store) (S.faults machine.old.chain.store)
        (S.faults machine.new.chain.store) result (λ text. text.items) }
{
    match order {
        LiveOrder::Play(order) => machine.line_output(alloc, order),
        LiveOrder::Show(session) => show_frame(alloc, machine, *session),
        LiveOrder::Body(patch) => give_body(alloc, machine, *patch),
        LiveOrder::Turns(rounds) => turn_rounds(alloc, machine, *rounds),
    }
}
