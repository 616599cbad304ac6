//! The lines of tiers. Each call does what its line orders, and gives the text.

ghost use Rattle.std.specs.Prelude.{◌≡◌, ◌<◌, ◌≤◌, [], ◌∷◌, length, map, Some, slice_get, IfOk, OnOk, OnErr};
ghost use Rattle.script_model.specs.declared.orders.Order.TheVariants as orders;
ghost use Rattle.text_model.specs.Lines.{Adds};
ghost use Rattle.tier_model.specs.Tiers.{TierState};
ghost use Rattle.run_model.specs.Turning.{TurnsTo};
ghost use Rattle.run_model.specs.Lines.{tier_status};
ghost use Rattle.run_model.specs.LineTexts.{turn_lines, tier_line};
ghost use Rattle.view_machine.specs.Machines.{world_of, run_state, KeepsPlace};
ghost use Rattle.view_machine.specs.OwnStops.{StopsIn};
ghost use Rattle.view_machine.specs.LineTells.{DoesLine};
ghost use Rattle.view_machine.specs.LineCounts.{CountsTurns, DoesCounted};
ghost use Rattle.view_machine.specs.TurnClauses.{turn_in, LogsLine};

use crate::machines::Machine;
use cache_chain::TurnLine;
use grid_vertex::NoMemory;
use run_texts::{add_tier, add_turn};
use std::alloc::Global;
use tier_model::Turn;
use view_outside::Store;

impl<'a, S: Store> Machine<'a, S> {
    /// The tier of this number makes one turn.
    pub fn turn_tier(&mut self, alloc: Global, tier: u32) -> Result<Turn, NoMemory>
        requires { tier < length self.old.chain.tiers }
        ensures turns { IfOk result
            (λ answer.
            TurnsTo (world_of self.old) tier (run_state self.old) answer (run_state self.new)) }
        ensures counts { IfOk result
            (λ answer.
            CountsTurns (world_of self.old) ((tier, answer) ∷ [])
            (S.faults self.old.chain.store) (S.faults self.new.chain.store)
            (S.taken self.old.chain.store) (S.taken self.new.chain.store)) }
        ensures none { OnErr result
            (StopsIn (world_of self.old) (run_state self.old) (orders.Turn tier)
            (run_state self.new)) }
        ensures place { KeepsPlace self.old self.new }
        ensures seats { self.new.seats ≡ self.old.seats }
        ensures board { self.new.board ≡ self.old.board }
        ensures files { S.files self.new.chain.store ≡ S.files self.old.chain.store }
        ensures later { S.faults self.old.chain.store ≤ S.faults self.new.chain.store }
    {
        self.chain.turn(alloc, tier, &self.board, &mut self.words)
    }

    /// One turn of the tier of this number.
    pub fn turn(&mut self, alloc: Global, tier: u32) -> Result<Vec<u8>, NoMemory>
        requires { tier < length self.old.chain.tiers }
        ensures line { IfOk result
            (λ text.
            DoesCounted (world_of self.old) (orders.Turn tier) (run_state self.old)
            (run_state self.new) text.items (S.faults self.old.chain.store)
            (S.faults self.new.chain.store) (S.taken self.old.chain.store)
            (S.taken self.new.chain.store)) }
        ensures none { OnErr result
            (StopsIn (world_of self.old) (run_state self.old) (orders.Turn tier)
            (run_state self.new)) }
        ensures place { KeepsPlace self.old self.new }
        ensures seats { self.new.seats ≡ self.old.seats }
        ensures board { self.new.board ≡ self.old.board }
        ensures files { S.files self.new.chain.store ≡ S.files self.old.chain.store }
        ensures later { S.faults self.old.chain.store ≤ S.faults self.new.chain.store }
    {
        let turn = self.turn_tier(alloc, tier)?;
        let mut text = Vec::new(alloc);
        add_turn(alloc, tier, turn, &mut text)?;
        Ok(text)
    }

    /// Each tier makes turns until it is idle, from the lowest to the top, and each turn is logged.
    pub fn settle_tiers(&mut self, alloc: Global, log: &mut Vec<TurnLine>) -> Result<(), NoMemory>
        ensures settles { OnOk result
            (LogsLine (world_of self.old) (run_state self.old) log.old.items log.new.items
            (run_state self.new) (S.faults self.old.chain.store)
            (S.faults self.new.chain.store) (S.taken self.old.chain.store)
            (S.taken self.new.chain.store)) }
        ensures none { OnErr result
            (StopsIn (world_of self.old) (run_state self.old) orders.Settle
            (run_state self.new)) }
        ensures place { KeepsPlace self.old self.new }
        ensures seats { self.new.seats ≡ self.old.seats }
        ensures board { self.new.board ≡ self.old.board }
        ensures files { S.files self.new.chain.store ≡ S.files self.old.chain.store }
        ensures later { S.faults self.old.chain.store ≤ S.faults self.new.chain.store }
    {
        self.chain.settle(alloc, &self.board, &mut self.words, log)
    }

    /// All tiers settle: each makes turns until it is idle, from the lowest to the top. Without memory the
    /// turns that were made stay, and so does the settling where only its text found none.
    pub fn settle(&mut self, alloc: Global) -> Result<Vec<u8>, NoMemory>
        ensures line { IfOk result
            (λ text.
            DoesCounted (world_of self.old) orders.Settle (run_state self.old)
            (run_state self.new) text.items (S.faults self.old.chain.store)
            (S.faults self.new.chain.store) (S.taken self.old.chain.store)
            (S.taken self.new.chain.store)) }
        ensures none { OnErr result
            (StopsIn (world_of self.old) (run_state self.old) orders.Settle
            (run_state self.new)) }
        ensures place { KeepsPlace self.old self.new }
        ensures seats { self.new.seats ≡ self.old.seats }
        ensures board { self.new.board ≡ self.old.board }
        ensures files { S.files self.new.chain.store ≡ S.files self.old.chain.store }
        ensures later { S.faults self.old.chain.store ≤ S.faults self.new.chain.store }
    {
        let mut log = Vec::new(alloc);
        self.settle_tiers(alloc, &mut log)?;
        turns_text(alloc, &log)
    }

    // Appends the line of the tier of this number.
    fn add_tier_of(&self, alloc: Global, tier: u32, out: &mut Vec<u8>) -> Result<(), NoMemory>
        requires { tier < length self.now.chain.tiers }
        ensures { OnOk result
            ((t : TierState) → slice_get self.now.chain.tiers tier ≡ Some t
            → Adds out.old.items out.new.items (tier_line tier (tier_status t))) }
    {
        add_tier(alloc, tier, self.chain.tier(tier), out)
    }

    /// A line for each tier, the top first: its budget and load in bytes, how many patches it holds, and those
    /// that come.
    pub fn status(&self, alloc: Global) -> Result<Vec<u8>, NoMemory>
        ensures line { IfOk result
            (λ text.
            DoesLine (world_of self.now) orders.Status (run_state self.now)
            (run_state self.now) text.items) }
    {
        let mut text = Vec::new(alloc);
        for tier in 0..self.chain.tier_count() {
            self.add_tier_of(alloc, tier, &mut text)?;
        }
        Ok(text)
    }
}

// The lines of these turns, in their order.
fn turns_text(alloc: Global, log: &[TurnLine]) -> Result<Vec<u8>, NoMemory>
    ensures { IfOk result (λ text. text.items ≡ turn_lines (map turn_in log.now)) }
{
    let mut text = Vec::new(alloc);
    for line in log {
        add_turn(alloc, line.tier, line.turn, &mut text)?;
    }
    Ok(text)
}
