//! One turn of a level, over its store or over the level below it.

ghost use Rattle.std.specs.Prelude.{◌≡◌, true, slice_index, Some, slice_get};
ghost use Rattle.tier_model.specs.Tiers.{is_held};
ghost use Rattle.transfer_step.specs.TurnWords.{told_of};
ghost use Rattle.cache_chain.specs.ChainStates.{IsFileBody};
ghost use Rattle.level_model.specs.Levels.{seat_of};
ghost use Rattle.level_model.specs.LevelTurns.{TurnsRanked, TurnsSeat};

use crate::floors::{Floor, Ground, NoFloor};
use crate::levels::Level;
use crate::ranked::ranked_over;
use crate::tier_numbers::TierNumber;
use grid_vertex::NoMemory;
use std::alloc::Global;
use tier_budget::Turn;
use token_table::{Member, Naming, TierSeat, TokenTable};
use transfer_step::TierSupply;
use view_outside::Store;

impl<'m, 's, N: Naming, T: TierNumber, K: Member, S: Store> Level<'m, N, T, K, Floor<'s, S>> {
    /// One turn over the wishes that the tier keeps. What comes is the file's that the run began with.
    ///
    /// Without memory the tier and the words are as they were.
    pub fn turn_over_store(&mut self, alloc: Global, table: &TokenTable) -> Result<Turn, NoMemory>
        requires { table.now ≡ N.table }
        ensures turns { TurnsRanked
            (told_of (λ _. true) K.has_words (slice_index (K.desk self.old.seat).epochs))
            (IsFileBody N.setup.mesh N.setup.bytes) result self.old.tier.state
            self.new.tier.state }
        ensures seat { TurnsSeat result self.new.tier.state
            (seat_of K.has_words (K.home self.old.seat N.table) (K.tier self.old.seat)
            (K.desk self.old.seat))
            (seat_of K.has_words (K.home self.new.seat N.table) (K.tier self.new.seat)
            (K.desk self.new.seat)) }
        ensures mesh { self.new.mesh ≡ self.old.mesh }
    {
        let mesh = self.mesh;
        self.floor
            .turn(alloc, mesh.index(), table, &mut self.tier, &mut self.seat)
    }
}

impl<'m, N: Naming, T: TierNumber, K: Member> Level<'m, N, T, K, NoFloor> {
    /// One turn over the wishes that the tier keeps, over the level below. What comes is a body that this holds.
    ///
    /// Without memory the tier and the words are as they were.
    pub fn turn_over_tier<U: TierNumber, G: Ground>(
        &mut self,
        alloc: Global,
        table: &TokenTable,
        below: &Level<'m, N, U, TierSeat, G>,
    ) -> Result<Turn, NoMemory>
        requires { table.now ≡ N.table }
        ensures turns { TurnsRanked
            (told_of (is_held below.now.tier.state) K.has_words
            (slice_index (K.desk self.old.seat).epochs))
            (λ p body. slice_get below.now.tier.state.held p ≡ Some (Some body)) result
            self.old.tier.state self.new.tier.state }
        ensures seat { TurnsSeat result self.new.tier.state
            (seat_of K.has_words (K.home self.old.seat N.table) (K.tier self.old.seat)
            (K.desk self.old.seat))
            (seat_of K.has_words (K.home self.new.seat N.table) (K.tier self.new.seat)
            (K.desk self.new.seat)) }
        ensures mesh { self.new.mesh ≡ self.old.mesh }
    {
        let mesh = self.mesh;
        let mut supply = TierSupply { tier: &below.tier };
        ranked_over(
            alloc,
            mesh.index(),
            table,
            &mut self.tier,
            &mut self.seat,
            &mut supply,
        )
    }
}
