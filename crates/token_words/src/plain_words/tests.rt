//! One list of calls over plain words, with the answers that it must get.

ghost use Rattle.std.specs.Prelude.{◌≡◌, ◌+◌, ◌<◌, true, false};
ghost use Rattle.token_words.specs.Changes.{SetAt};
ghost use Rattle.file_model.specs.Tries.{is_odd};
ghost use Rattle.token_words.specs.Evictions.{epoch_after, NeedsUse};
ghost use Rattle.token_words.specs.Sessions.{IsSession, has_session};
ghost use Rattle.token_words.specs.PlainTokens.{patch_count, is_user, is_locker, session_of};

use super::{PlainPass, PlainTokens};
use crate::answers::Evict;
use crate::entries::{Entry, Word};
use crate::keeping::{Keeper, LAST_EPOCH, NoWords};
use crate::locking::Tokens;
use crate::locking::tests::are_there;
use crate::session_sets::SessionSet;
use std::process::Abort;
use std::test::Fail;

fn contains(set: &SessionSet, session: u32) -> bool
    requires { IsSession session }
    ensures { result ≡ has_session set.now.mask session }
{
    (set.mask >> (session - 1)) & 1 == 1
}

fn uses(tokens: &PlainTokens, pass: &PlainPass, patch: u32) -> bool
    requires { IsSession (session_of pass.now) }
    ensures { result ≡ is_user tokens.now (session_of pass.now) patch }
{
    match tokens.entries.get(patch as usize) {
        Some(entry) => contains(&entry.users, pass.session),
        None => false,
    }
}

fn has_locked(tokens: &PlainTokens, pass: &PlainPass, patch: u32) -> bool
    requires { IsSession (session_of pass.now) }
    ensures { result ≡ is_locker tokens.now (session_of pass.now) patch }
{
    match tokens.entries.get(patch as usize) {
        Some(entry) => contains(&entry.lockers, pass.session),
        None => false,
    }
}

fn assert_word(rt: &impl Abort, tokens: &PlainTokens, pass: &PlainPass, patch: u32)
    ensures session { IsSession (session_of pass.now) }
    ensures patch { patch < patch_count tokens.now }
{
    assert!(rt; 1 <= pass.session && pass.session <= 64);
    assert!(rt; (patch as usize) < tokens.entries.len());
}

fn is_locked(rt: &impl Abort, tokens: &PlainTokens, pass: &PlainPass, patch: u32) -> bool {
    assert_word(rt, tokens, pass, patch);
    has_locked(tokens, pass, patch)
}

fn epoch(rt: &impl Abort, tokens: &PlainTokens, patch: u32) -> u32 {
    assert!(rt; (patch as usize) < tokens.entries.len());
    tokens.epoch(patch)
}

fn try_lock(rt: &impl Abort, tokens: &mut PlainTokens, pass: &mut PlainPass, patch: u32) -> u32 {
    assert_word(rt, tokens, pass, patch);
    assert!(rt; !uses(tokens, pass, patch));
    tokens.try_lock(pass, patch).epoch
}

fn withdraw(rt: &impl Abort, tokens: &mut PlainTokens, pass: &mut PlainPass, patch: u32) {
    assert_word(rt, tokens, pass, patch);
    assert!(rt; uses(tokens, pass, patch));
    assert!(rt; !has_locked(tokens, pass, patch));
    tokens.withdraw(pass, patch);
}

fn unlock(rt: &impl Abort, tokens: &mut PlainTokens, pass: &mut PlainPass, patch: u32) {
    assert_word(rt, tokens, pass, patch);
    assert!(rt; has_locked(tokens, pass, patch));
    tokens.unlock(pass, patch);
}

fn admit(rt: &impl Abort, tokens: &mut PlainTokens, patch: u32) {
    assert!(rt; (patch as usize) < tokens.entries.len());
    let epoch = tokens.epoch(patch);
    assert!(rt; epoch % 2 == 0 && epoch < LAST_EPOCH);
    tokens.admit(patch);
}

fn evict(rt: &impl Abort, tokens: &mut PlainTokens, patch: u32) -> Evict {
    assert!(rt; (patch as usize) < tokens.entries.len());
    assert!(rt; tokens.epoch(patch) % 2 == 1);
    assert!(rt; !tokens.entries[patch as usize].word.is_pinned);
    tokens.evict(patch)
}

/// A keeper brings a patch and drops it again.
fn admit_and_evict<K: Keeper>(keeper: &mut K, patch: u32) -> Evict
    requires patch { K.has_words ≡ true → patch < K.patches keeper.old }
    requires away { K.has_words ≡ true → is_odd (K.epochs keeper.old patch) ≡ false }
    requires below { K.has_words ≡ true → K.epochs keeper.old patch < LAST_EPOCH }
    requires free { K.has_words ≡ true → K.pinned keeper.old patch ≡ false }
    ensures kept { NeedsUse result }
    ensures gone { K.has_words ≡ false → result ≡ Evict.Gone }
    ensures epochs { K.has_words ≡ true →
        SetAt (K.epochs keeper.old) patch
        (epoch_after result (K.epochs keeper.old patch + 1)) (K.epochs keeper.new) }
{
    keeper.admit(patch);
    keeper.evict(patch)
}

#[test]
fn a_keeper_without_words_lets_all_go(rt: HostRuntime) {
    let mut keeper = NoWords;
    assert_eq!(rt; keeper.epoch(7), 0);
    assert_eq!(rt; admit_and_evict(&mut keeper, 7), Evict::Gone);
}

#[test]
fn answers_a_list_of_calls(rt: HostRuntime) -> Result<(), Fail> {
    let mut tokens = PlainTokens::new(rt.alloc(), 4, &[0, 2])?;
    let mut first = tokens.pass(1);
    let mut second = tokens.pass(64);
    assert_eq!(rt;
        [
            epoch(&rt, &tokens, 0),
            epoch(&rt, &tokens, 1),
            epoch(&rt, &tokens, 2)
        ],
        [1, 0, 1]
    );

    // A patch that is away refuses, and one that is there is locked.
    assert_eq!(rt; try_lock(&rt, &mut tokens, &mut first, 1), 0);
    assert_eq!(rt; try_lock(&rt, &mut tokens, &mut first, 2), 1);
    assert!(rt; !is_locked(&rt, &tokens, &first, 1) && is_locked(&rt, &tokens, &first, 2));

    // A refused try that was not withdrawn keeps the patch that came meanwhile.
    admit(&rt, &mut tokens, 1);
    assert_eq!(rt; evict(&rt, &mut tokens, 1), Evict::Kept(1));
    assert_eq!(rt; try_lock(&rt, &mut tokens, &mut second, 1), 1);
    assert_eq!(rt; evict(&rt, &mut tokens, 1), Evict::Kept(2));
    withdraw(&rt, &mut tokens, &mut first, 1);
    assert_eq!(rt; evict(&rt, &mut tokens, 1), Evict::Kept(1));
    unlock(&rt, &mut tokens, &mut second, 1);
    assert_eq!(rt; evict(&rt, &mut tokens, 1), Evict::Gone);
    assert_eq!(rt;
        [
            epoch(&rt, &tokens, 0),
            epoch(&rt, &tokens, 1),
            epoch(&rt, &tokens, 2)
        ],
        [1, 2, 1]
    );

    // A try afterwards is answered by the new epoch, and the other session's lock is still there.
    assert_eq!(rt; try_lock(&rt, &mut tokens, &mut second, 1), 2);
    assert!(rt; !is_locked(&rt, &tokens, &second, 1) && is_locked(&rt, &tokens, &first, 2));
    Ok(())
}

#[test]
fn counts_64_sessions_and_a_pin(rt: HostRuntime) -> Result<(), Fail> {
    let mut tokens = PlainTokens::new(rt.alloc(), 2, &[0])?;
    admit(&rt, &mut tokens, 1);
    for session in 1..65 {
        let mut pass = PlainPass { session };
        assert_eq!(rt; try_lock(&rt, &mut tokens, &mut pass, 0), 1);
        assert_eq!(rt; try_lock(&rt, &mut tokens, &mut pass, 1), 1);
    }
    assert_eq!(rt; tokens.entries.get(0).map(Entry::uses), Some(65));
    assert_eq!(rt; evict(&rt, &mut tokens, 1), Evict::Kept(64));
    for session in 1..65 {
        let mut pass = PlainPass { session };
        unlock(&rt, &mut tokens, &mut pass, 1);
    }
    assert_eq!(rt; evict(&rt, &mut tokens, 1), Evict::Gone);
    Ok(())
}

#[test]
fn counts_to_the_last_epoch(rt: HostRuntime) -> Result<(), Fail> {
    let words = [Word {
        epoch: 4_294_967_292,
        is_pinned: false,
    }];
    let mut tokens = PlainTokens::with_words(rt.alloc(), &words)?;
    admit(&rt, &mut tokens, 0);
    assert_eq!(rt; epoch(&rt, &tokens, 0), 4_294_967_293);
    assert_eq!(rt; evict(&rt, &mut tokens, 0), Evict::Gone);
    assert_eq!(rt; epoch(&rt, &tokens, 0), 4_294_967_294);
    Ok(())
}

#[test]
fn tries_all_and_gives_them_back(rt: HostRuntime) -> Result<(), Fail> {
    let mut tokens = PlainTokens::new(rt.alloc(), 4, &[0, 2])?;
    let mut pass = tokens.pass(3);
    assert!(rt; are_there(&mut tokens, &mut pass, &[0, 2]));
    assert!(rt; !are_there(&mut tokens, &mut pass, &[0, 1, 2]));
    Ok(())
}
