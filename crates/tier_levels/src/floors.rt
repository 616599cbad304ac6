//! What a level stands on.

use view_outside::Store;

/// Tells contracts what a level stands on. No call reads it.
pub trait Ground {
    ghost use Rattle.level_model.specs.Levels.{FloorSeen};

    ghost seen: { Self → FloorSeen };
}

/// The floor of the lowest level: the file of this number in a store.
#[derive(Drop)]
pub struct Floor<'s, S: Store> {
    pub store: &'s mut S,
    pub file: u32,
}

impl<'s, S: Store> Ground for Floor<'s, S> {
    ghost use Rattle.level_model.specs.Levels.{store_floor};

    ghost seen = { λ floor.
        store_floor (S.files floor.store.now) floor.file (S.faults floor.store.now)
        (S.taken floor.store.now) floor.store.ghost_name };
}

/// The floor of a level that stands on another.
#[derive(Clone, Copy, Debug)]
pub struct NoFloor;

impl Ground for NoFloor {
    ghost use Rattle.level_model.specs.Levels.{tier_floor};

    ghost seen = { λ _. tier_floor };
}

/// The floor of a level whose tier takes no turn.
#[derive(Clone, Copy, Debug)]
pub struct StillFloor;

impl Ground for StillFloor {
    ghost use Rattle.level_model.specs.Levels.{still_floor};

    ghost seen = { λ _. still_floor };
}
