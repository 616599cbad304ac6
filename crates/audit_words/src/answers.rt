//! The answers of a frame.

ghost use Rattle.std.specs.Prelude.{◌≡◌, ◌≤◌, map, codes, bytes_eq, Some, None, IfOk, MatchOption};
ghost use Rattle.audit_spelling.specs.Words.{words_in, each_in};
ghost use Rattle.audit_spelling.specs.Spellings.{try_in_parts, try_in, tries_in};

use crate::words::{parts_of, patch_of, small_number, words_of};
use file_model::Try;
use std::alloc::{AllocError, Global};

/// The answers that a line spells, over so many patches: `tries` and the answers as `P:E`.
pub fn read_tries(alloc: Global, line: &[u8], patches: u32) -> Result<Option<Vec<Try>>, AllocError>
    requires { 1 ≤ patches }
    ensures { IfOk result (λ read. MatchOption read (tries_in patches (words_in line.now) ≡ None)
        (λ tries. tries_in patches (words_in line.now) ≡ Some tries.items)) }
{
    let words = words_of(alloc, line)?;
    tries_of(alloc, &words, patches)
}

fn tries_of(alloc: Global, words: &[&[u8]], patches: u32) -> Result<Option<Vec<Try>>, AllocError>
    requires { 1 ≤ patches }
    ensures { IfOk result (λ read. MatchOption read
        (tries_in patches (map (λ word. word.now) words.now) ≡ None)
        (λ tries. tries_in patches (map (λ word. word.now) words.now) ≡ Some tries.items)) }
{
    match words {
        [first, others @ ..] => {
            if is_tries(first) {
                each_try(alloc, others, patches)
            } else {
                Ok(None)
            }
        },
        [] => Ok(None),
    }
}

fn is_tries(word: &[u8]) -> bool
    ensures { result ≡ bytes_eq word.now (codes "tries") }
{
    word == b"tries".as_slice()
}

/// What each of the words spells, if each of them spells an answer.
fn each_try(alloc: Global, words: &[&[u8]], patches: u32) -> Result<Option<Vec<Try>>, AllocError>
    requires { 1 ≤ patches }
    ensures { IfOk result (λ read. MatchOption read
        (each_in (try_in patches) (map (λ word. word.now) words.now) ≡ None)
        (λ tries. each_in (try_in patches) (map (λ word. word.now) words.now) ≡ Some tries.items)) }
{
    let mut tries = Vec::new(alloc);
    for word in words {
        match try_of(alloc, word, patches)? {
            Some(answer) => tries.push(answer)?,
            None => return Ok(None),
        }
    }
    Ok(Some(tries))
}

fn try_of(alloc: Global, word: &[u8], patches: u32) -> Result<Option<Try>, AllocError>
    requires { 1 ≤ patches }
    ensures { IfOk result (λ read. read ≡ try_in patches word.now) }
{
    let parts = parts_of(alloc, word)?;
    Ok(try_of_parts(&parts, patches))
}

fn try_of_parts(parts: &[&[u8]], patches: u32) -> Option<Try>
    requires { 1 ≤ patches }
    ensures { result ≡ try_in_parts patches (map (λ part. part.now) parts.now) }
{
    match parts {
        [first, last] => {
            let patch = patch_of(first, patches)?;
            let epoch = small_number(last)?;
            Some(Try { patch, epoch })
        },
        _ => None,
    }
}
