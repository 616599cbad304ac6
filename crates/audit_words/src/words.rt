//! Lines as words, and words as numbers.

ghost use Rattle.std.specs.Prelude.{◌≡◌, ◌≤◌, ◌<◌, map, IfOk, IfSome};
ghost use Rattle.number_words.specs.Numbers.{number_in};
ghost use Rattle.audit_spelling.specs.Words.{words_in};
ghost use Rattle.audit_spelling.specs.Spellings.{most_32, patch_in, parts_in};

use number_words::read_number;
use std::alloc::{AllocError, Global};

/// What stands between spaces in a line.
pub(crate) fn words_of(alloc: Global, line: &[u8]) -> Result<Vec<&[u8]>, AllocError>
    ensures { IfOk result (λ words. map (λ word. word.now) words.items ≡ words_in line.now) }
{
    line.split(|byte| *byte == b' ').collect(alloc)
}

/// What stands between colons in a word.
pub(crate) fn parts_of(alloc: Global, word: &[u8]) -> Result<Vec<&[u8]>, AllocError>
    ensures { IfOk result (λ parts. map (λ part. part.now) parts.items ≡ parts_in word.now) }
{
    word.split(|byte| *byte == b':').collect(alloc)
}

/// A number of 32 bits.
pub(crate) fn small_number(word: &[u8]) -> Option<u32>
    ensures { result ≡ number_in most_32 word.now }
{
    let number = read_number(word, u64::from(u32::MAX))?;
    Some(number as u32)
}

/// A patch of so many.
pub(crate) fn patch_of(word: &[u8], patches: u32) -> Option<u32>
    requires { 1 ≤ patches }
    ensures { result ≡ patch_in patches word.now }
{
    let patch = read_number(word, u64::from(patches - 1))?;
    Some(patch as u32)
}
