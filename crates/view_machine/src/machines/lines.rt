//! The lines of a script.

ghost use Rattle.std.specs.Prelude.{◌≡◌, ℕ, ◌+◌, ◌^◌, ◌<◌, ◌≤◌, true, length, Err, IfErr, OnOk};
ghost use Rattle.round_model.specs.Views.{ViewSeen};
ghost use Rattle.script_model.specs.declared.orders.Order.TheVariants as orders;
ghost use Rattle.script_model.specs.Histories.{history_after};
ghost use Rattle.script_model.specs.OrderFaults.{allows};
ghost use Rattle.view_machine.specs.declared.refusals.RunRefusal.TheVariants.{Memory};
ghost use Rattle.view_machine.specs.Machines.{world_of, run_state, KeepsPlace};
ghost use Rattle.view_machine.specs.LineEnds.{history_of, FewFrames, FramesRise, PrintsLine, StopsLine};
ghost use Rattle.view_machine.specs.LineOutputs.{LineGives};

use crate::machines::Machine;
use crate::refusals::RunRefusal;
use grid_vertex::NoMemory;
use script_model::Order;
use std::alloc::Global;
use view_outside::{Sink, Store, write_all};

impl<'a, S: Store> Machine<'a, S> {
    /// Does what the order says, and gives the text of its line, as `line` would write it. Conditions as of `line`.
    pub fn line_output(&mut self, alloc: Global, order: &Order) -> Result<Vec<u8>, NoMemory>
        requires allowed { allows (length self.old.chain.tiers) (history_of self.old) order.now
            ≡ true }
        requires few { self.old.board.version < 2 ^ 63 }
        requires few_frames { FewFrames self.old }
        ensures { LineGives order.now self.old self.new (S.files self.old.chain.store)
            (S.files self.new.chain.store) (S.faults self.old.chain.store)
            (S.faults self.new.chain.store) (S.taken self.old.chain.store)
            (S.taken self.new.chain.store) result (λ text. text.items) }
    {
        match order {
            Order::Open(session) => self.open(alloc, *session),
            Order::View(session, view) => self.view(alloc, *session, *view),
            Order::Step(session) => self.step(alloc, *session),
            Order::Frame(session) => self.frame(alloc, *session),
            Order::Free(session) => self.free(alloc, *session),
            Order::Close(session) => self.close(alloc, *session),
            Order::Turn(tier) => self.turn(alloc, *tier),
            Order::Settle => self.settle(alloc),
            Order::Status => self.status(alloc),
        }
    }

    /// Does what the order says, and then writes the text of its line. Condition: a script that is played may have
    /// the order here, and the version of the board and each session's count of frames are below 2^63.
    ///
    /// After `Memory` the steps that were made stay, and nothing of the line is written; a view that is refused is
    /// neither posted nor set. After `WriteFault` all steps were made, and a proper prefix of the text is written.
    pub fn line<O: Sink>(
        &mut self,
        alloc: Global,
        order: &Order,
        sink: &mut O,
    ) -> Result<(), RunRefusal>
        requires allowed { allows (length self.old.chain.tiers) (history_of self.old) order.now
            ≡ true }
        requires few { self.old.board.version < 2 ^ 63 }
        requires few_frames { FewFrames self.old }
        ensures did { OnOk result
            (PrintsLine (world_of self.old) order.now (run_state self.old) (run_state self.new)
            (S.faults self.old.chain.store) (S.faults self.new.chain.store)
            (S.taken self.old.chain.store) (S.taken self.new.chain.store) (O.written sink.old)
            (O.written sink.new)) }
        ensures stops { IfErr result
            (λ refusal.
            StopsLine refusal (world_of self.old) order.now (run_state self.old)
            (run_state self.new) (S.faults self.old.chain.store) (S.faults self.new.chain.store)
            (O.faults sink.old) (O.faults sink.new) (O.written sink.old) (O.written sink.new)) }
        ensures refused { (session : ℕ) (view : ViewSeen)
            → order.now ≡ orders.View session view → result ≡ Err Memory → self.new ≡ self.old }
        ensures place { KeepsPlace self.old self.new }
        ensures files { S.files self.new.chain.store ≡ S.files self.old.chain.store }
        ensures later { S.faults self.old.chain.store ≤ S.faults self.new.chain.store }
        ensures sink { O.faults sink.old ≤ O.faults sink.new }
        ensures version { self.new.board.version ≤ self.old.board.version + 1 }
        ensures frames { FramesRise self.old self.new }
        ensures history { OnOk result
            (history_of self.new ≡ history_after (history_of self.old) order.now) }
        ensures tiers { length self.new.chain.tiers ≡ length self.old.chain.tiers }
    {
        let text = self.line_output(alloc, order)?;
        write_all(&text, sink)?;
        Ok(())
    }
}
