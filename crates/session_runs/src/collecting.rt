//! How a session collects bodies from the top level.

ghost use Rattle.std.specs.Prelude.{◌≡◌, ℕ, ◌<◌, ◌≤◌, true, length, All, IfOk, MatchResult};
ghost use Rattle.std.specs.Arc.{arc_value};
ghost use Rattle.tier_model.specs.Tiers.{is_held};
ghost use Rattle.token_table.specs.Seats.{IsSeatOf};
ghost use Rattle.session_runs.specs.Bodies.{IsSetupBody, IsShared, IsAtHand, AddsBodies, AddsSome};

use crate::body_list::BodyList;
use grid_vertex::NoMemory;
use patch_file::Body;
use std::sync::{Arc, Wait};
use tier_levels::{Ground, Level, TopLock, TopTier};
use token_table::{KeeperSeat, Naming, SessionSeat, TokenTable};

// The body of a patch that the tier holds, shared with it.
fn share<'m, N: Naming, F: Ground>(
    level: &Level<'m, N, TopTier, KeeperSeat, F>,
    patch: u32,
) -> Result<Arc<Body>, NoMemory>
    requires { IsAtHand N.setup level.now.tier.state patch }
    ensures { IfOk result (λ body. IsSetupBody N.setup patch (arc_value body)) }
{
    match level.held(patch) {
        Some(body) => Ok(body.clone()?),
        None => unreachable!(),
    }
}

// Appends the bodies of patches that the tier holds, shared with it.
fn share_all<'m, N: Naming, F: Ground>(
    level: &Level<'m, N, TopTier, KeeperSeat, F>,
    patches: &[u32],
    bodies: &mut BodyList,
) -> Result<(), NoMemory>
    requires held { All (IsAtHand N.setup level.now.tier.state) patches.now }
    requires room { length patches.now ≤ bodies.old.spare }
    ensures { MatchResult result (λ _. AddsBodies N.setup patches.now bodies.old bodies.new)
        (λ _. AddsSome N.setup patches.now bodies.old bodies.new) }
{
    for patch in patches {
        let body = share(level, *patch)?;
        bodies.add(body);
    }
    Ok(())
}

/// Appends the body of each patch, as the file has it that the run began with. Condition: each is a base patch or
/// locked by the session, and there is room for all. Waits for the lock of the top level.
///
/// NoMemory comes only where a body couldn't be shared; then the bodies of the patches before it were appended.
pub fn collect<'m, N: Naming, F: Ground, R: Wait>(
    rt: &R,
    top: &TopLock<'m, N, F>,
    table: &TokenTable,
    seat: SessionSeat,
    patches: &[u32],
    bodies: &mut BodyList,
) -> (SessionSeat, Result<(), NoMemory>)
    requires table { table.now ≡ N.table }
    requires seat { IsSeatOf N.table seat }
    requires patches { All (IsShared N.setup seat.own) patches.now }
    requires room { length patches.now ≤ bodies.old.spare }
    ensures seat { result.0 ≡ seat }
    ensures bodies { MatchResult result.1 (λ _. AddsBodies N.setup patches.now bodies.old bodies.new)
        (λ _. AddsSome N.setup patches.now bodies.old bodies.new) }
{
    let mut guard = top.lock(rt);
    let level = &mut *guard;
    let seat = level.visit(table, seat);
    let shared = share_all(level, patches, bodies);
    (seat, shared)
}
