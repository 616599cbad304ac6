//! The workers.

ghost use Rattle.std.specs.Prelude.{◌≡◌};

use grid_vertex::NoMemory;
use std::alloc::Global;
use std::sync::{Mutex, Wait};
use tier_budget::Turn;
use tier_levels::{BoardLock, Floor, Ground, Level, LowLock, NoFloor, TierNumber};
use token_table::{Member, Naming, TokenTable};
use view_outside::{Gate, GatePoint, Store};

/// What a turn answered, and the version of the wishes that it was made over.
struct Turned {
    turn: Turn,
    version: u64,
}

/// One turn of the lowest level, under its lock.
fn turn_lowest<'m, 's, R: Wait, N: Naming, T: TierNumber, K: Member, S: Store>(
    rt: &R,
    alloc: Global,
    level: &Mutex<Level<'m, N, T, K, Floor<'s, S>>>,
    table: &TokenTable,
    board: &BoardLock<N>,
) -> Result<Turned, NoMemory>
    requires { table.now ≡ N.table }
{
    let mut guard = level.lock(rt);
    let level = &mut *guard;
    board.rank(rt, level);
    let turn = level.turn_over_store(alloc, table)?;
    let version = level.version();
    Ok(Turned { turn, version })
}

/// One turn of a level over the one below it, under the locks of both.
fn turn_above<'m, R: Wait, N: Naming, T: TierNumber, U: TierNumber, K: Member, F: Ground>(
    rt: &R,
    alloc: Global,
    level: &Mutex<Level<'m, N, T, K, NoFloor>>,
    below: &LowLock<'m, N, U, F>,
    table: &TokenTable,
    board: &BoardLock<N>,
) -> Result<Turned, NoMemory>
    requires { table.now ≡ N.table }
{
    let mut guard = level.lock(rt);
    let under = below.lock(rt);
    let level = &mut *guard;
    board.rank(rt, level);
    let turn = level.turn_over_tier(alloc, table, &*under)?;
    let version = level.version();
    Ok(Turned { turn, version })
}

/// Whether a turn may have left something to do for another worker.
fn wakes_others(turn: Turn) -> bool {
    matches!(
        turn,
        Turn::Commit(_) | Turn::Evict(_) | Turn::Got(_) | Turn::Lost(_)
    )
}

/// Behind a turn: wakes other workers if it may have left them something to do, passes the gate, and after an idle turn
/// waits until a view was posted or taken off, or workers were stirred since the turn began, or are to end.
fn rest<R: Wait, N: Naming, G: Gate>(
    rt: &R,
    tier: u32,
    turned: Turned,
    stirs: u64,
    board: &BoardLock<N>,
    gate: &G,
) {
    let Turned { turn, version } = turned;
    if wakes_others(turn) {
        board.stir(rt);
    }
    gate.pass(GatePoint::TierTurn(tier));
    if turn == Turn::Idle {
        board.wait_past(rt, version, stirs);
    }
}

/// Turns the lowest level, over its store, until the end mark is set. An idle worker waits for the bell, and one that
/// finds no memory stops. `tier` is the number that the gate is passed with. Condition: the table is the one that N names.
pub fn worker_lowest<'m, 's, R: Wait, N: Naming, T: TierNumber, K: Member, S: Store, G: Gate>(
    rt: &R,
    alloc: Global,
    tier: u32,
    level: &Mutex<Level<'m, N, T, K, Floor<'s, S>>>,
    table: &TokenTable,
    board: &BoardLock<N>,
    gate: &G,
)
    requires { table.now ≡ N.table }
{
    for _ in rt.forever() {
        let sight = board.look(rt);
        if sight.is_ended {
            return;
        }
        let Ok(turned) = turn_lowest(rt, alloc, level, table, board) else {
            return;
        };
        rest(rt, tier, turned, sight.stirs, board, gate);
    }
}

/// Turns a level over the one below it, as `worker_lowest` does the lowest. Both locks are held for each turn, the upper
/// level's taken first.
pub fn worker_above<
    'm,
    R: Wait,
    N: Naming,
    T: TierNumber,
    U: TierNumber,
    K: Member,
    F: Ground,
    G: Gate,
>(
    rt: &R,
    alloc: Global,
    tier: u32,
    level: &Mutex<Level<'m, N, T, K, NoFloor>>,
    below: &LowLock<'m, N, U, F>,
    table: &TokenTable,
    board: &BoardLock<N>,
    gate: &G,
)
    requires { table.now ≡ N.table }
{
    for _ in rt.forever() {
        let sight = board.look(rt);
        if sight.is_ended {
            return;
        }
        let Ok(turned) = turn_above(rt, alloc, level, below, table, board) else {
            return;
        };
        rest(rt, tier, turned, sight.stirs, board, gate);
    }
}
