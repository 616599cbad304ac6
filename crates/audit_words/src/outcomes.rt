//! What the fetches of the lowest tier gave.

ghost use Rattle.std.specs.Prelude.{◌≡◌, ◌≤◌, map, codes, bytes_eq, IfOk};
ghost use Rattle.std.specs.Option.{option_map};
ghost use Rattle.audit_spelling.specs.Words.{words_in};
ghost use Rattle.audit_spelling.specs.Spellings.{outcome_kind_in, plain_in, turn_in, tier_turn_in, outcome_in};

use crate::entries::{changed_of, is_changed};
use crate::words::{patch_of, small_number, words_of};
use audit_spelling::TierTurn;
use std::alloc::{AllocError, Global};
use tier_model::Turn;

/// The outcome that a turn line spells, over so many patches: a body, a failure, or a change of the file.
pub fn read_outcome(
    alloc: Global,
    line: &[u8],
    patches: u32,
) -> Result<Option<TierTurn>, AllocError>
    requires { 1 ≤ patches }
    ensures { IfOk result (λ read. read ≡ outcome_in patches (words_in line.now)) }
{
    let words = words_of(alloc, line)?;
    Ok(outcome_of(&words, patches))
}

fn outcome_of(words: &[&[u8]], patches: u32) -> Option<TierTurn>
    requires { 1 ≤ patches }
    ensures { result ≡ outcome_in patches (map (λ word. word.now) words.now) }
{
    match words {
        [first, others @ ..] => {
            if is_turn(first) {
                tier_turn_of(others, patches)
            } else {
                None
            }
        },
        [] => None,
    }
}

fn is_turn(word: &[u8]) -> bool
    ensures { result ≡ bytes_eq word.now (codes "turn") }
{
    word == b"turn".as_slice()
}

fn tier_turn_of(words: &[&[u8]], patches: u32) -> Option<TierTurn>
    requires { 1 ≤ patches }
    ensures { result ≡ tier_turn_in patches (map (λ word. word.now) words.now) }
{
    match words {
        [first, others @ ..] => {
            let tier = small_number(first)?;
            let turn = turn_of(others, patches)?;
            Some(TierTurn { tier, turn })
        },
        [] => None,
    }
}

fn turn_of(words: &[&[u8]], patches: u32) -> Option<Turn>
    requires { 1 ≤ patches }
    ensures { result ≡ turn_in patches outcome_kind_in (map (λ word. word.now) words.now) }
{
    match words {
        [first, others @ ..] => {
            if is_changed(first) {
                changed_of(others, patches)
            } else {
                plain_outcome(words, patches)
            }
        },
        [] => None,
    }
}

fn plain_outcome(words: &[&[u8]], patches: u32) -> Option<Turn>
    requires { 1 ≤ patches }
    ensures { result ≡ plain_in patches outcome_kind_in (map (λ word. word.now) words.now) }
{
    match words {
        [kind, patch] => simple_outcome(kind, patch_of(patch, patches)?),
        _ => None,
    }
}

/// The outcome that the word names, at the patch.
fn simple_outcome(kind: &[u8], patch: u32) -> Option<Turn>
    ensures { result ≡ option_map (λ turn. turn patch) (outcome_kind_in kind.now) }
{
    match kind {
        b"got" => Some(Turn::Got(patch)),
        b"fault" => Some(Turn::Fault(patch)),
        _ => None,
    }
}
