//! What a line orders of a machine, or its fault.

ghost use Rattle.std.specs.Prelude.{◌≡◌, ◌<◌, ◌≤◌, length, map, IfOk};
ghost use Rattle.live_model.specs.LiveOrders.{live_fault, live_words_in, live_in};
ghost use Rattle.live_model.specs.Places.{place_of};
ghost use Rattle.live_machine.specs.Judging.{HasHistory};
ghost use Rattle.view_machine.specs.Machines.{world_of, run_state};

use grid_vertex::NoMemory;
use live_model::LiveOrder;
use live_words::live_spelt;
use script_model::{Mode, Order};
use std::alloc::Global;
use text_model::ScriptFault;
use view_machine::Machine;
use view_outside::Store;
use view_script::{Sessions, is_text, words_of};

// The least fault of the order at the machine's place.
fn fault_of<S: Store>(
    machine: &Machine<S>,
    sessions: &Sessions,
    order: &LiveOrder,
) -> Option<ScriptFault>
    requires { HasHistory machine.now sessions.now }
    ensures { result ≡ live_fault (place_of (world_of machine.now) (run_state machine.now)) order.now }
{
    match order {
        LiveOrder::Play(order) => sessions.fault(Mode::Play, machine.tier_count(), 0, order),
        LiveOrder::Show(session) => {
            let frame = Order::Frame(*session);
            sessions.fault(Mode::Play, machine.tier_count(), 0, &frame)
        }
        LiveOrder::Body(patch) => {
            if machine.fast_body(*patch).is_some() {
                None
            } else {
                Some(ScriptFault::NotThere(0))
            }
        }
        LiveOrder::Turns(_) => None,
    }
}

// What words order, or their first fault.
#[tactic(auto, unfolding(live_model::specs::LiveOrders::live_words_in))]
fn judge_words<S: Store>(
    machine: &Machine<S>,
    sessions: &Sessions,
    words: &[&[u8]],
) -> Result<Option<LiveOrder>, ScriptFault>
    requires { HasHistory machine.now sessions.now }
    ensures { result ≡
        live_words_in (place_of (world_of machine.now) (run_state machine.now))
        (map (λ word. word.now) words.now) }
{
    if words.is_empty() {
        return Ok(None);
    }
    match live_spelt(words) {
        Ok(order) => match fault_of(machine, sessions, &order) {
            None => Ok(Some(order)),
            Some(fault) => Err(fault),
        },
        Err(fault) => Err(fault),
    }
}

/// What a line of at most 4,096 bytes orders of the machine, or its fault of the least number. `sessions` is how far the
/// machine's sessions have come.
#[tactic(auto, unfolding(live_model::specs::LiveOrders::live_in))]
pub fn judge<S: Store>(
    alloc: Global,
    machine: &Machine<S>,
    sessions: &Sessions,
    line: &[u8],
) -> Result<Result<Option<LiveOrder>, ScriptFault>, NoMemory>
    requires history { HasHistory machine.now sessions.now }
    requires short { length line.now ≤ 4096 }
    ensures { IfOk result
        (λ judged.
        judged ≡ live_in (place_of (world_of machine.now) (run_state machine.now)) line.now) }
{
    if !is_text(line) {
        return Ok(Err(ScriptFault::NotText(0)));
    }
    let words = words_of(alloc, line)?;
    Ok(judge_words(machine, sessions, &words))
}
