//! The head of a journal.

ghost use Rattle.std.specs.Prelude.{◌≡◌, map, codes, bytes_eq, IfOk};
ghost use Rattle.audit_spelling.specs.Words.{words_in};
ghost use Rattle.audit_spelling.specs.Spellings.{head_in, head_in_numbers};

use crate::words::{small_number, words_of};
use audit_spelling::Head;
use number_words::read_number;
use std::alloc::{AllocError, Global};

/// The head that a line spells: `journal`, the tier's number and how many entries there are.
pub fn read_head(alloc: Global, line: &[u8]) -> Result<Option<Head>, AllocError>
    ensures { IfOk result (λ read. read ≡ head_in (words_in line.now)) }
{
    let words = words_of(alloc, line)?;
    Ok(head_of(&words))
}

fn head_of(words: &[&[u8]]) -> Option<Head>
    ensures { result ≡ head_in (map (λ word. word.now) words.now) }
{
    match words {
        [first, others @ ..] => {
            if is_journal(first) {
                numbers_of(others)
            } else {
                None
            }
        },
        [] => None,
    }
}

fn is_journal(word: &[u8]) -> bool
    ensures { result ≡ bytes_eq word.now (codes "journal") }
{
    word == b"journal".as_slice()
}

fn numbers_of(words: &[&[u8]]) -> Option<Head>
    ensures { result ≡ head_in_numbers (map (λ word. word.now) words.now) }
{
    match words {
        [first, last] => {
            let tier = small_number(first)?;
            let entries = read_number(last, u64::MAX)?;
            Some(Head { tier, entries })
        },
        _ => None,
    }
}
