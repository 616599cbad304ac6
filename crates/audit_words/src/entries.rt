//! The entries of a journal.

ghost use Rattle.std.specs.Prelude.{◌≡◌, ◌≤◌, ◌∷◌, map, codes, bytes_eq, IfOk};
ghost use Rattle.std.specs.Option.{option_map};
ghost use Rattle.audit_spelling.specs.Words.{words_in};
ghost use Rattle.audit_spelling.specs.Spellings.{kind_in, plain_in, changed_in, entry_in};

use crate::faults::fault_of;
use crate::words::{patch_of, words_of};
use std::alloc::{AllocError, Global};
use tier_model::Turn;

/// The entry that a line spells, over so many patches: a turn that a journal keeps, without its tier.
pub fn read_entry(alloc: Global, line: &[u8], patches: u32) -> Result<Option<Turn>, AllocError>
    requires { 1 ≤ patches }
    ensures { IfOk result (λ read. read ≡ entry_in patches (words_in line.now)) }
{
    let words = words_of(alloc, line)?;
    Ok(entry_of(&words, patches))
}

fn entry_of(words: &[&[u8]], patches: u32) -> Option<Turn>
    requires { 1 ≤ patches }
    ensures { result ≡ entry_in patches (map (λ word. word.now) words.now) }
{
    match words {
        [first, others @ ..] => {
            if is_changed(first) {
                changed_of(others, patches)
            } else {
                plain_entry(words, patches)
            }
        },
        [] => None,
    }
}

pub(crate) fn is_changed(word: &[u8]) -> bool
    ensures { result ≡ bytes_eq word.now (codes "changed") }
{
    word == b"changed".as_slice()
}

/// A patch under which the file has changed, and the fault of its body.
pub(crate) fn changed_of(words: &[&[u8]], patches: u32) -> Option<Turn>
    requires { 1 ≤ patches }
    ensures { result ≡ changed_in patches (map (λ word. word.now) words.now) }
{
    match words {
        [first, others @ ..] => {
            let patch = patch_of(first, patches)?;
            let fault = fault_of(others)?;
            Some(Turn::Changed(patch, fault))
        },
        [] => None,
    }
}

fn plain_entry(words: &[&[u8]], patches: u32) -> Option<Turn>
    requires { 1 ≤ patches }
    ensures { result ≡ plain_in patches kind_in (map (λ word. word.now) words.now) }
{
    match words {
        [kind, patch] => simple_entry(kind, patch_of(patch, patches)?),
        _ => None,
    }
}

/// The entry that the word names, at the patch.
fn simple_entry(kind: &[u8], patch: u32) -> Option<Turn>
    ensures { result ≡ option_map (λ turn. turn patch) (kind_in kind.now) }
{
    match kind {
        b"reserve" => Some(Turn::Reserve(patch)),
        b"evict" => Some(Turn::Evict(patch)),
        b"got" => Some(Turn::Got(patch)),
        b"lost" => Some(Turn::Lost(patch)),
        b"fault" => Some(Turn::Fault(patch)),
        b"commit" => Some(Turn::Commit(patch)),
        _ => None,
    }
}
