//! Answering a line.

ghost use Rattle.std.specs.Prelude.{◌≡◌, ◌^◌, ◌<◌, ℕ, false, None, Some, Ok, List, OnOk};
ghost use Rattle.script_model.specs.declared.orders.Order.{Order};
ghost use Rattle.script_model.specs.OrderFaults.{names_no_session};
ghost use Rattle.live_model.specs.declared.orders.LiveOrder.{LiveOrder};
ghost use Rattle.live_model.specs.declared.orders.LiveOrder.TheVariants as live;
ghost use Rattle.live_model.specs.LiveOrders.{live_fault, live_in, live_history_after};
ghost use Rattle.live_model.specs.Places.{place_of};
ghost use Rattle.live_machine.specs.Answering.{AnswerGives};
ghost use Rattle.live_machine.specs.Judging.{HasHistory};
ghost use Rattle.live_machine.specs.Obeying.{ObeyGives};
ghost use Rattle.view_machine.specs.LineEnds.{FewFrames};
ghost use Rattle.view_machine.specs.Machines.{world_of, run_state};
ghost use Rattle.view_script.specs.Stages.{history_of};

use crate::obeying::obey;
use grid_vertex::NoMemory;
use live_model::LiveOrder;
use live_words::refused_text;
use std::alloc::Global;
use text_model::ScriptFault;
use view_machine::Machine;
use view_outside::Store;
use view_script::Sessions;

// Takes note of how far the sessions have come by the order.
fn note(sessions: &mut Sessions, order: &LiveOrder)
    requires { (play : Order) → order.now ≡ live.Play play → names_no_session play ≡ false }
    ensures { history_of sessions.new ≡ live_history_after (history_of sessions.old) order.now }
{
    match order {
        LiveOrder::Play(order) => sessions.take(order),
        LiveOrder::Show(_) | LiveOrder::Body(_) | LiveOrder::Turns(_) => {}
    }
}

// Does what the order says, takes note of it, and gives its answer.
fn answer_order<S: Store>(
    alloc: Global,
    machine: &mut Machine<S>,
    sessions: &mut Sessions,
    order: &LiveOrder,
) -> Result<Vec<u8>, NoMemory>
    requires allowed { live_fault (place_of (world_of machine.old) (run_state machine.old)) order.now
        ≡ None }
    requires history { HasHistory machine.old sessions.old }
    requires few { machine.old.board.version < 2 ^ 63 }
    requires few_frames { FewFrames machine.old }
    ensures obeys { ObeyGives order.now machine.old machine.new (S.files machine.old.chain.store)
        (S.files machine.new.chain.store) (S.faults machine.old.chain.store)
        (S.faults machine.new.chain.store) result (λ text. text.items) }
    ensures history { OnOk result (HasHistory machine.new sessions.new) }
{
    let text = obey(alloc, machine, order)?;
    note(sessions, order);
    Ok(text)
}

/// Answers a line that was judged so. `sessions` is how far the machine's sessions have come.
pub fn answer<S: Store>(
    alloc: Global,
    machine: &mut Machine<S>,
    sessions: &mut Sessions,
    judged: Result<Option<LiveOrder>, ScriptFault>,
) -> Result<Vec<u8>, NoMemory>
    requires allowed { (order : LiveOrder) → judged ≡ Ok (Some order)
        → live_fault (place_of (world_of machine.old) (run_state machine.old)) order ≡ None }
    requires history { HasHistory machine.old sessions.old }
    requires few { machine.old.board.version < 2 ^ 63 }
    requires few_frames { FewFrames machine.old }
    ensures { (line : List ℕ)
        → judged ≡ live_in (place_of (world_of machine.old) (run_state machine.old)) line
        → AnswerGives line machine.old machine.new sessions.new (S.files machine.old.chain.store)
        (S.files machine.new.chain.store) (S.faults machine.old.chain.store)
        (S.faults machine.new.chain.store) result (λ text. text.items) }
{
    match judged {
        Ok(Some(order)) => answer_order(alloc, machine, sessions, &order),
        Ok(None) => Ok(Vec::new(alloc)),
        Err(fault) => refused_text(alloc, fault),
    }
}
