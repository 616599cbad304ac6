//! How a script is played.

ghost use Rattle.std.specs.Prelude.{◌≡◌, ℕ, ◌^◌, ◌<◌, ◌≤◌, None, length, IfErr, OnOk};
ghost use Rattle.script_model.specs.declared.modes.Mode.{Mode};
ghost use Rattle.script_model.specs.Scripts.{AreLines};
ghost use Rattle.run_model.specs.RunTexts.{orders_of};
ghost use Rattle.session_seats.specs.Seats.{at_seat};
ghost use Rattle.view_machine.specs.Machines.{world_of, run_state, KeepsPlace};
ghost use Rattle.view_machine.specs.RunEnds.{RanLines, StopsRun};

use crate::machines::Machine;
use crate::refusals::RunRefusal;
use script_model::Line;
use std::alloc::Global;
use view_outside::{Sink, Store};
use view_script::Script;

impl<'a, S: Store> Machine<'a, S> {
    /// Plays all lines of the script, and writes what they print. Condition: no session is open, the version of
    /// the board is below 2^62, and the script was read for as many tiers as there are.
    ///
    /// After a refusal the steps that were made stay.
    pub fn play<O: Sink>(
        &mut self,
        alloc: Global,
        script: &Script,
        sink: &mut O,
    ) -> Result<(), RunRefusal>
        requires closed { (i : ℕ) → at_seat self.old.seats.sessions i ≡ None }
        requires few { self.old.board.version < 2 ^ 62 }
        requires tiers { script.now.tiers ≡ length self.old.chain.tiers }
        ensures ran { OnOk result
            (RanLines (world_of self.old) (orders_of script.now.lines) (run_state self.old)
            (run_state self.new) (S.faults self.old.chain.store) (S.faults self.new.chain.store)
            (S.taken self.old.chain.store) (S.taken self.new.chain.store) (O.written sink.old)
            (O.written sink.new)) }
        ensures stops { IfErr result
            (λ refusal.
            StopsRun refusal (world_of self.old) (orders_of script.now.lines)
            (run_state self.old) (run_state self.new) (S.faults self.old.chain.store)
            (S.faults self.new.chain.store) (O.faults sink.old) (O.faults sink.new)
            (O.written sink.old) (O.written sink.new)) }
        ensures place { KeepsPlace self.old self.new }
        ensures files { S.files self.new.chain.store ≡ S.files self.old.chain.store }
        ensures later { S.faults self.old.chain.store ≤ S.faults self.new.chain.store }
        ensures sink { O.faults sink.old ≤ O.faults sink.new }
    {
        self.play_lines(alloc, script.lines(), sink)
    }

    // Plays these lines.
    fn play_lines<O: Sink>(
        &mut self,
        alloc: Global,
        lines: &[Line],
        sink: &mut O,
    ) -> Result<(), RunRefusal>
        requires closed { (i : ℕ) → at_seat self.old.seats.sessions i ≡ None }
        requires few { self.old.board.version < 2 ^ 62 }
        requires rules { (mode : Mode) × AreLines mode (length self.old.chain.tiers) lines.now }
        ensures ran { OnOk result
            (RanLines (world_of self.old) (orders_of lines.now) (run_state self.old)
            (run_state self.new) (S.faults self.old.chain.store) (S.faults self.new.chain.store)
            (S.taken self.old.chain.store) (S.taken self.new.chain.store) (O.written sink.old)
            (O.written sink.new)) }
        ensures stops { IfErr result
            (λ refusal.
            StopsRun refusal (world_of self.old) (orders_of lines.now) (run_state self.old)
            (run_state self.new) (S.faults self.old.chain.store)
            (S.faults self.new.chain.store) (O.faults sink.old) (O.faults sink.new)
            (O.written sink.old) (O.written sink.new)) }
        ensures place { KeepsPlace self.old self.new }
        ensures files { S.files self.new.chain.store ≡ S.files self.old.chain.store }
        ensures later { S.faults self.old.chain.store ≤ S.faults self.new.chain.store }
        ensures sink { O.faults sink.old ≤ O.faults sink.new }
    {
        'plays: for line in lines {
            // The proof alone reads the number, which is at least the count of lines so far.
            let _number = line.number;
            self.line(alloc, &line.order, sink)?;
        }
        Ok(())
    }
}
