//! Rounds of turns.

ghost use Rattle.std.specs.Prelude.{◌≡◌, ◌≤◌, IfOk, OnOk, OnErr};
ghost use Rattle.live_model.specs.LiveTurns.{is_idle};
ghost use Rattle.view_machine.specs.Machines.{world_of, run_state, KeepsPlace};
ghost use Rattle.view_machine.specs.Stops.{StopsAt};
ghost use Rattle.view_machine.specs.TurnRounds.{AddsOnce, AddsRounds};

use crate::machines::Machine;
use grid_vertex::NoMemory;
use run_texts::add_turn;
use std::alloc::Global;
use tier_model::Turn;
use view_outside::Store;

// Whether the tier found nothing to do.
fn is_idle(turn: Turn) -> bool
    ensures { result ≡ is_idle turn }
{
    matches!(turn, Turn::Idle)
}

impl<'a, S: Store> Machine<'a, S> {
    // One turn of each tier, from the lowest to the top, with its line behind the text. Answers whether all were idle.
    fn turn_once(&mut self, alloc: Global, out: &mut Vec<u8>) -> Result<bool, NoMemory>
        ensures once { IfOk result
            (AddsOnce (world_of self.old) (run_state self.old) (run_state self.new)
            out.old.items out.new.items) }
        ensures none { OnErr result
            (StopsAt (world_of self.old) (run_state self.old) (run_state self.new)) }
        ensures place { KeepsPlace self.old self.new }
        ensures seats { self.new.seats ≡ self.old.seats }
        ensures board { self.new.board ≡ self.old.board }
        ensures files { S.files self.new.chain.store ≡ S.files self.old.chain.store }
        ensures later { S.faults self.old.chain.store ≤ S.faults self.new.chain.store }
    {
        let mut idle = true;
        let mut left = self.tier_count();
        'tiers: while left > 0 {
            left -= 1;
            let turn = self.turn_tier(alloc, left)?;
            add_turn(alloc, left, turn, out)?;
            idle = idle && is_idle(turn);
        }
        Ok(idle)
    }

    /// Makes so many rounds of one turn of each tier, from the lowest to the top; a round in which all were idle is the
    /// last. The turns' lines are put behind the text. Without memory the turns that were made stay.
    pub fn turn_rounds(
        &mut self,
        alloc: Global,
        rounds: u32,
        out: &mut Vec<u8>,
    ) -> Result<(), NoMemory>
        ensures rounds { OnOk result
            (AddsRounds (world_of self.old) rounds (run_state self.old) (run_state self.new)
            out.old.items out.new.items) }
        ensures none { OnErr result
            (StopsAt (world_of self.old) (run_state self.old) (run_state self.new)) }
        ensures place { KeepsPlace self.old self.new }
        ensures seats { self.new.seats ≡ self.old.seats }
        ensures board { self.new.board ≡ self.old.board }
        ensures files { S.files self.new.chain.store ≡ S.files self.old.chain.store }
        ensures later { S.faults self.old.chain.store ≤ S.faults self.new.chain.store }
    {
        let mut left = rounds;
        'rounds: while left > 0 {
            left -= 1;
            if self.turn_once(alloc, out)? {
                return Ok(());
            }
        }
        Ok(())
    }
}
