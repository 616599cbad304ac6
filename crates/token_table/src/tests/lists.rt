//! One list of calls over plain words and over a table, with equal answers.

ghost use Rattle.std.specs.Prelude.{◌≡◌, ℕ, ◌+◌, ◌<◌, true, false, length};
ghost use Rattle.token_words.specs.Changes.{SetsStay, Stays};
ghost use Rattle.token_words.specs.Sessions.{IsSession};
ghost use Rattle.token_words.specs.PlainTokens.{patch_count, is_user, is_locker, is_pinned, session_of};
ghost use Rattle.token_table.specs.Known.{has};
ghost use Rattle.token_table.specs.Seats.{IsIdle, IsSeatOf};

use super::next_seat;
use crate::making::Made;
use crate::seats::{KeeperSeat, SessionSeat};
use crate::tables::TokenTable;
use std::process::Abort;
use std::test::Fail;
use token_words::{Evict, Keeper, LAST_EPOCH, PlainPass, PlainTokens, Tokens};

/// The answers of eight calls: a refused try that is withdrawn, an admission, a granted try, two
/// evictions beside the lock, the lock given back, and an eviction.
#[derive(Clone, Copy, PartialEq, Eq, Debug)]
struct Answers {
    refused: u32,
    granted: u32,
    first: Evict,
    second: Evict,
    last: Evict,
}

fn admit_plain(rt: &impl Abort, tokens: &mut PlainTokens, patch: u32)
    requires { patch < patch_count tokens.old }
    ensures count { patch_count tokens.new ≡ patch_count tokens.old }
    ensures users { SetsStay (is_user tokens.old) (is_user tokens.new) }
    ensures pins { Stays (is_pinned tokens.old) (is_pinned tokens.new) }
{
    let epoch = tokens.epoch(patch);
    assert!(rt; epoch % 2 == 0 && epoch < LAST_EPOCH);
    tokens.admit(patch);
}

fn evict_plain(rt: &impl Abort, tokens: &mut PlainTokens, patch: u32) -> Evict
    requires patch { patch < patch_count tokens.old }
    requires free { is_pinned tokens.old patch ≡ false }
    ensures count { patch_count tokens.new ≡ patch_count tokens.old }
    ensures users { SetsStay (is_user tokens.old) (is_user tokens.new) }
    ensures lockers { SetsStay (is_locker tokens.old) (is_locker tokens.new) }
    ensures pins { Stays (is_pinned tokens.old) (is_pinned tokens.new) }
{
    let epoch = tokens.epoch(patch);
    assert!(rt; epoch % 2 == 1);
    tokens.evict(patch)
}

fn refuse_plain(rt: &impl Abort, tokens: &mut PlainTokens, pass: &mut PlainPass, patch: u32) -> u32
    requires session { IsSession (session_of pass.old) }
    requires patch { patch < patch_count tokens.old }
    requires unused { is_user tokens.old (session_of pass.old) patch ≡ false }
    ensures session { session_of pass.new ≡ session_of pass.old }
    ensures count { patch_count tokens.new ≡ patch_count tokens.old }
    ensures unused { is_user tokens.new (session_of pass.old) patch ≡ false }
    ensures pins { Stays (is_pinned tokens.old) (is_pinned tokens.new) }
{
    let seen = tokens.try_lock(pass, patch);
    assert!(rt; !seen.is_granted());
    tokens.withdraw(pass, patch);
    seen.epoch
}

fn hold_plain(
    rt: &impl Abort,
    tokens: &mut PlainTokens,
    pass: &mut PlainPass,
    patch: u32,
) -> (u32, Evict, Evict)
    requires session { IsSession (session_of pass.old) }
    requires patch { patch < patch_count tokens.old }
    requires unused { is_user tokens.old (session_of pass.old) patch ≡ false }
    requires free { is_pinned tokens.old patch ≡ false }
    ensures session { session_of pass.new ≡ session_of pass.old }
    ensures count { patch_count tokens.new ≡ patch_count tokens.old }
    ensures unused { is_user tokens.new (session_of pass.old) patch ≡ false }
    ensures pins { Stays (is_pinned tokens.old) (is_pinned tokens.new) }
{
    let seen = tokens.try_lock(pass, patch);
    assert!(rt; seen.is_granted());
    let first = evict_plain(rt, tokens, patch);
    let second = evict_plain(rt, tokens, patch);
    tokens.unlock(pass, patch);
    (seen.epoch, first, second)
}

fn call_plain(
    rt: &impl Abort,
    tokens: &mut PlainTokens,
    pass: &mut PlainPass,
    patch: u32,
) -> Answers
    requires session { IsSession (session_of pass.old) }
    requires patch { patch < patch_count tokens.old }
    requires unused { is_user tokens.old (session_of pass.old) patch ≡ false }
    requires free { is_pinned tokens.old patch ≡ false }
    ensures session { session_of pass.new ≡ session_of pass.old }
    ensures count { patch_count tokens.new ≡ patch_count tokens.old }
    ensures unused { is_user tokens.new (session_of pass.old) patch ≡ false }
    ensures pins { Stays (is_pinned tokens.old) (is_pinned tokens.new) }
{
    let refused = refuse_plain(rt, tokens, pass, patch);
    admit_plain(rt, tokens, patch);
    let (granted, first, second) = hold_plain(rt, tokens, pass, patch);
    let last = evict_plain(rt, tokens, patch);
    Answers {
        refused,
        granted,
        first,
        second,
        last,
    }
}

pub(super) fn admit_shared(rt: &impl Abort, table: &TokenTable, keeper: &mut KeeperSeat, patch: u32)
    requires table { keeper.old.table ≡ table.now }
    requires patch { patch < length keeper.old.desk.epochs }
    ensures table { keeper.new.table ≡ table.now }
    ensures count { length keeper.new.desk.epochs ≡ length keeper.old.desk.epochs }
{
    let epoch = table.epoch(keeper, patch);
    assert!(rt; epoch % 2 == 0 && epoch < LAST_EPOCH);
    table.admit(keeper, patch);
}

#[tactic(auto, using(crate::proofs::Uses::epochs_kept))]
pub(super) fn evict_shared(
    rt: &impl Abort,
    table: &TokenTable,
    keeper: &mut KeeperSeat,
    patch: u32,
) -> Evict
    requires table { keeper.old.table ≡ table.now }
    requires patch { patch < length keeper.old.desk.epochs }
    ensures table { keeper.new.table ≡ table.now }
    ensures count { length keeper.new.desk.epochs ≡ length keeper.old.desk.epochs }
{
    let epoch = table.epoch(keeper, patch);
    assert!(rt; epoch % 2 == 1);
    table.evict(keeper, patch)
}

pub(super) fn refuse_shared(
    rt: &impl Abort,
    table: &TokenTable,
    seat: &mut SessionSeat,
    patch: u32,
) -> u32
    requires seat { IsIdle table.now seat.old }
    requires patch { patch < table.now.words }
    ensures { IsIdle table.now seat.new }
{
    let seen = table.try_lock(seat, patch);
    assert!(rt; !seen.is_granted());
    table.withdraw(seat, patch);
    seen.epoch
}

pub(super) fn hold_shared(
    rt: &impl Abort,
    table: &TokenTable,
    keeper: &mut KeeperSeat,
    seat: &mut SessionSeat,
    patch: u32,
) -> (u32, Evict, Evict)
    requires table { keeper.old.table ≡ table.now }
    requires known { patch < length keeper.old.desk.epochs }
    requires seat { IsIdle table.now seat.old }
    requires patch { patch < table.now.words }
    ensures table { keeper.new.table ≡ table.now }
    ensures count { length keeper.new.desk.epochs ≡ length keeper.old.desk.epochs }
    ensures seat { IsIdle table.now seat.new }
{
    let seen = table.try_lock(seat, patch);
    assert!(rt; seen.is_granted());
    let first = evict_shared(rt, table, keeper, patch);
    let second = evict_shared(rt, table, keeper, patch);
    table.unlock(seat, patch);
    (seen.epoch, first, second)
}

fn call_shared(
    rt: &impl Abort,
    table: &TokenTable,
    keeper: &mut KeeperSeat,
    seat: &mut SessionSeat,
    patch: u32,
) -> Answers
    requires table { keeper.old.table ≡ table.now }
    requires known { patch < length keeper.old.desk.epochs }
    requires seat { IsIdle table.now seat.old }
    requires patch { patch < table.now.words }
    ensures table { keeper.new.table ≡ table.now }
    ensures count { length keeper.new.desk.epochs ≡ length keeper.old.desk.epochs }
    ensures seat { IsIdle table.now seat.new }
{
    let refused = refuse_shared(rt, table, seat, patch);
    admit_shared(rt, table, keeper, patch);
    let (granted, first, second) = hold_shared(rt, table, keeper, seat, patch);
    let last = evict_shared(rt, table, keeper, patch);
    Answers {
        refused,
        granted,
        first,
        second,
        last,
    }
}

/// The eight calls over both, with equal answers.
fn compare(
    rt: &impl Abort,
    tokens: &mut PlainTokens,
    pass: &mut PlainPass,
    table: &TokenTable,
    keeper: &mut KeeperSeat,
    seat: &mut SessionSeat,
)
    requires session { IsSession (session_of pass.old) }
    requires plain { 1 < patch_count tokens.old }
    requires unused { is_user tokens.old (session_of pass.old) 1 ≡ false }
    requires free { is_pinned tokens.old 1 ≡ false }
    requires table { keeper.old.table ≡ table.now }
    requires known { 1 < length keeper.old.desk.epochs }
    requires seat { IsIdle table.now seat.old }
    requires patch { 1 < table.now.words }
    ensures session { session_of pass.new ≡ session_of pass.old }
    ensures plain { patch_count tokens.new ≡ patch_count tokens.old }
    ensures unused { is_user tokens.new (session_of pass.old) 1 ≡ false }
    ensures free { is_pinned tokens.new 1 ≡ false }
    ensures table { keeper.new.table ≡ table.now }
    ensures known { length keeper.new.desk.epochs ≡ length keeper.old.desk.epochs }
    ensures seat { IsIdle table.now seat.new }
{
    let plain = call_plain(rt, tokens, pass, 1);
    let shared = call_shared(rt, table, keeper, seat, 1);
    assert!(rt; plain == shared);
    assert!(rt; shared.first == Evict::Kept(1) && shared.last == Evict::Gone);
}

/// Forty calls of one list.
#[test]
fn plain_words_and_a_table_answer_alike(rt: HostRuntime) -> Result<(), Fail> {
    let mut tokens = PlainTokens::new(rt.alloc(), 2, &[0])?;
    let mut pass = tokens.pass(1);
    let made = TokenTable::new(rt.alloc(), 2, &[0], 1)?;
    let Made {
        table,
        mut keeper,
        sessions: mut seats,
    } = made;
    let mut seat = next_seat(&table, &mut seats).expect(&rt, "a seat for the session");
    compare(&rt, &mut tokens, &mut pass, &table, &mut keeper, &mut seat);
    compare(&rt, &mut tokens, &mut pass, &table, &mut keeper, &mut seat);
    compare(&rt, &mut tokens, &mut pass, &table, &mut keeper, &mut seat);
    compare(&rt, &mut tokens, &mut pass, &table, &mut keeper, &mut seat);
    compare(&rt, &mut tokens, &mut pass, &table, &mut keeper, &mut seat);
    assert!(rt; tokens.epoch(1) == 10 && table.epoch(&keeper, 1) == 10);
    Ok(())
}
