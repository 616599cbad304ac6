//! A level: a tier with the seat of its owner and its floor.

use crate::floors::Ground;
use crate::tier_numbers::TierNumber;
use accepted_mesh::Mesh;
use patch_file::Body;
use std::marker::{Model, PhantomData};
use std::sync::Arc;
use tier_budget::{Tier, Wishes};
use token_table::{KeeperSeat, Member, Naming, SessionSeat, TokenTable};
use transfer_step::take_wishes;

/// A tier with the mesh that it was made for, the seat of its owner and its floor, as one lock keeps them. It is a
/// level of the run that N names, with the tier that T names.
#[derive(Drop)]
pub struct Level<'m, N: Naming, T: TierNumber, K: Member, F: Ground> {
    pub(crate) mesh: &'m Mesh,
    pub(crate) tier: Tier,
    pub(crate) seat: K,
    pub(crate) floor: F,
    run: PhantomData<N>,
    number: PhantomData<T>,
}

impl<'m, N: Naming, T: TierNumber, K: Member, F: Ground> Model for Level<'m, N, T, K, F> {
    ghost use Rattle.level_model.specs.Levels.{run_of, seat_of};
    ghost use Rattle.tier_levels.specs.LevelViews.{LevelSeen, IsKept};

    ghost Value = { LevelSeen K F };

    ghost view = { λ l.
        record { mesh = l.mesh.now; tier = l.tier; seat = l.seat; floor = l.floor } };

    ghost invariant = { λ l.
        IsKept (run_of N.table N.sessions N.setup N.lender) T.tier l.mesh.now l.tier
        (seat_of K.has_words (K.home l.seat N.table) (K.tier l.seat) (K.desk l.seat))
        (F.seen l.floor) };
}

/// What a level is made of.
#[derive(Drop)]
pub struct LevelParts<'m, K, F> {
    pub mesh: &'m Mesh,
    pub tier: Tier,
    pub seat: K,
    pub floor: F,
}

impl<'m, N: Naming, T: TierNumber, K: Member, F: Ground> Level<'m, N, T, K, F> {
    ghost use Rattle.std.specs.Prelude.{◌≡◌, ◌<◌, ◌≤◌, false, length, Some, slice_get, MatchOption, IfSome};
    ghost use Rattle.std.specs.Arc.{arc_value};
    ghost use Rattle.tier_model.specs.Tiers.{is_held};
    ghost use Rattle.tier_model.specs.Turns.{begun};
    ghost use Rattle.transfer_step.specs.TurnWords.{board_of};
    ghost use Rattle.cache_chain.specs.ChainStates.{IsFileBody};
    ghost use Rattle.level_model.specs.Levels.{run_of, seat_of};
    ghost use Rattle.tier_levels.specs.LevelViews.{IsKept};

    /// The level of these parts. Condition: they are one of the run.
    pub fn new(mesh: &'m Mesh, tier: Tier, seat: K, floor: F) -> Level<'m, N, T, K, F>
        requires { IsKept (run_of N.table N.sessions N.setup N.lender) T.tier mesh.now tier
            (seat_of K.has_words (K.home seat N.table) (K.tier seat) (K.desk seat))
            (F.seen floor) }
        ensures mesh { result.mesh ≡ mesh.entry.now }
        ensures tier { result.tier ≡ tier }
        ensures seat { result.seat ≡ seat }
        ensures floor { result.floor ≡ floor }
    {
        Level {
            mesh,
            tier,
            seat,
            floor,
            run: PhantomData,
            number: PhantomData,
        }
    }

    /// The level's parts.
    pub fn into_parts(self) -> LevelParts<'m, K, F>
        ensures mesh { result.mesh.now ≡ self.entry.mesh }
        ensures tier { result.tier ≡ self.entry.tier }
        ensures seat { result.seat ≡ self.entry.seat }
        ensures floor { result.floor ≡ self.entry.floor }
        ensures keeps { IsKept (run_of N.table N.sessions N.setup N.lender) T.tier
            self.entry.mesh self.entry.tier
            (seat_of K.has_words (K.home self.entry.seat N.table) (K.tier self.entry.seat)
            (K.desk self.entry.seat)) (F.seen self.entry.floor) }
    {
        let Level {
            mesh,
            tier,
            seat,
            floor,
            run: _,
            number: _,
        } = self;
        LevelParts {
            mesh,
            tier,
            seat,
            floor,
        }
    }

    /// The version of the wishes that the tier keeps.
    pub fn version(&self) -> u64
        ensures { result ≡ self.now.tier.state.version }
    {
        self.tier.version()
    }

    /// The body of a patch, None exactly where the tier doesn't hold it. It is the file's that the run began with.
    pub fn held(&self, patch: u32) -> Option<&Arc<Body>>
        requires { patch < length N.setup.mesh.fields }
        ensures held { MatchOption result (is_held self.now.tier.state patch ≡ false)
            (λ body. slice_get self.now.tier.state.held patch ≡ Some (Some (arc_value body.now))) }
        ensures of_file { IfSome result
            (λ body. IsFileBody N.setup.mesh N.setup.bytes patch (arc_value body.now)) }
    {
        self.tier.held(patch)
    }

    /// Takes the wishes, where their version isn't the tier's. Condition: they are for the mesh's patches.
    pub fn take_wishes<W: Wishes>(&mut self, wishes: &W)
        requires { length N.setup.mesh.fields ≤ W.patches wishes.now }
        ensures state { self.new.tier.state
            ≡ begun (board_of (W.wish_of wishes.now) (W.version_of wishes.now))
            self.old.tier.state }
        ensures mesh { self.new.mesh ≡ self.old.mesh }
        ensures seat { self.new.seat ≡ self.old.seat }
        ensures floor { self.new.floor ≡ self.old.floor }
    {
        take_wishes(&mut self.tier, wishes);
    }
}

impl<'m, N: Naming, T: TierNumber, F: Ground> Level<'m, N, T, KeeperSeat, F> {
    ghost use Rattle.std.specs.Prelude.{◌≡◌, ℕ, ◌<◌, ◌⊎◌, true, length};
    ghost use Rattle.token_table.specs.Known.{has};
    ghost use Rattle.token_table.specs.Seats.{IsSeatOf};
    ghost use Rattle.tier_model.specs.Places.{is_marked};
    ghost use Rattle.tier_model.specs.Tiers.{is_held, base_marks};

    /// A session visits the keeper of the top tier, who sees that each base patch and all patches that the session has
    /// locked are held.
    pub fn visit(&mut self, table: &TokenTable, seat: SessionSeat) -> SessionSeat
        requires table { table.now ≡ N.table }
        requires seat { IsSeatOf N.table seat }
        ensures seat { result ≡ seat }
        ensures level { self.new ≡ self.old }
        ensures held { (p : ℕ) → p < length N.setup.mesh.fields
            → (is_marked (base_marks N.setup.mesh.fields) p ≡ true) ⊎ (has seat.own.locks p ≡ true)
            → is_held self.new.tier.state p ≡ true }
    {
        table.visit(&mut self.seat, seat)
    }
}
