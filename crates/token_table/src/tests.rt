//! Tables that several threads or seats use.

ghost use Rattle.std.specs.Prelude.{◌≡◌, ℕ, ◌+◌, ◌<◌, true, All, IfOk, IfSome};
ghost use Rattle.std.specs.Thread.{IsSync};
ghost use Rattle.file_model.specs.Tries.{is_odd};
ghost use Rattle.token_table.specs.Known.{has};
ghost use Rattle.token_table.specs.Seats.{IsIdle};

use crate::making::Made;
use crate::seats::SessionSeat;
use crate::tables::TokenTable;
use std::process::Abort;
use std::test::Fail;
use std::thread::{Threads, join};
use token_words::Evict;

mod last_epochs;
mod lists;

/// A session tries to lock a patch, and ends its use.
fn lock_once(table: &TokenTable, seat: &mut SessionSeat, patch: u32)
    requires seat { IsIdle table.now seat.old }
    requires patch { patch < table.now.words }
    ensures seat { IsIdle table.now seat.new }
{
    if table.try_lock(seat, patch).is_granted() {
        table.unlock(seat, patch);
    } else {
        table.withdraw(seat, patch);
    }
}

/// A session tries to lock a patch so many times.
fn lock_often(table: &TokenTable, mut seat: SessionSeat, patch: u32, times: u32) -> SessionSeat
    requires seat { IsIdle table.now seat }
    requires patch { patch < table.now.words }
    ensures { IsIdle table.now result }
{
    for _time in 0..times {
        lock_once(table, &mut seat, patch);
    }
    seat
}

/// Two threads try to lock a patch so many times each.
fn lock_by_two(
    rt: &(impl Threads + Sync),
    table: &TokenTable,
    first: SessionSeat,
    second: SessionSeat,
    patch: u32,
) -> (SessionSeat, SessionSeat)
    requires first { IsIdle table.now first }
    requires second { IsIdle table.now second }
    requires patch { patch < table.now.words }
    ensures first { IsIdle table.now result.0 }
    ensures second { IsIdle table.now result.1 }
{
    join(
        rt,
        || -> SessionSeat
            requires { IsIdle table.now first × (patch < table.now.words) }
            ensures { IsIdle table.entry.now result }
        { lock_often(table, first, patch, 1000) },
        || -> SessionSeat
            requires { IsIdle table.now second × (patch < table.now.words) }
            ensures { IsIdle table.entry.now result }
        { lock_often(table, second, patch, 1000) },
    )
}

/// A seat that uses no patch.
fn next_seat(table: &TokenTable, seats: &mut Vec<SessionSeat>) -> Option<SessionSeat>
    requires { All (IsIdle table.now) seats.old.items }
    ensures seat { IfSome result (IsIdle table.now) }
    ensures others { All (IsIdle table.now) seats.new.items }
{
    let _ = table;
    seats.pop()
}

#[test]
fn two_threads_leave_no_use(rt: HostRuntime) -> Result<(), Fail> {
    let made = TokenTable::new(rt.alloc(), 2, &[0], 2)?;
    let Made {
        table,
        mut keeper,
        sessions: mut seats,
    } = made;
    table.admit(&mut keeper, 1);
    let first = next_seat(&table, &mut seats).expect(&rt, "a seat for each session");
    let second = next_seat(&table, &mut seats).expect(&rt, "a seat for each session");
    let (first, second) = lock_by_two(&rt, &table, first, second, 1);
    table.hand_back(&mut keeper, first);
    table.hand_back(&mut keeper, second);
    assert!(rt; table.evict(&mut keeper, 1) == Evict::Gone);
    Ok(())
}

/// All seats lock a patch.
fn lock_all(rt: &impl Abort, table: &TokenTable, mut seats: Vec<SessionSeat>, patch: u32)
    requires seats { All (IsIdle table.now) seats.items }
    requires patch { patch < table.now.words }
{
    for _seat in 0..seats.len() {
        let Some(mut seat) = next_seat(table, &mut seats) else {
            return;
        };
        assert!(rt; table.try_lock(&mut seat, patch).epoch == 1);
    }
}

#[test]
fn all_seats_use_one_word(rt: HostRuntime) -> Result<(), Fail> {
    let made = TokenTable::new(rt.alloc(), 2, &[0], 64)?;
    let Made {
        table,
        mut keeper,
        sessions: seats,
    } = made;
    assert!(rt; seats.len() == 64);
    lock_all(&rt, &table, seats, 0);
    assert!(rt; table.evict(&mut keeper, 0) == Evict::Kept(65));
    Ok(())
}
