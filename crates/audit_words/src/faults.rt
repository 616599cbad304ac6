//! A fault of a file, as its number and its arguments.

ghost use Rattle.std.specs.Prelude.{◌≡◌, ◌<◌, ◌≤◌, map};
ghost use Rattle.number_words.specs.Numbers.{number_in};
ghost use Rattle.serve_model.specs.FittingFaults.{has_bits};
ghost use Rattle.audit_spelling.specs.Spellings.{most_64, fault_alone, fault_with_small, fault_with_one, fault_with_pair, fault_with_two, fault_with_three, fault_in};

use file_model::FileFault;
use number_words::read_number;

/// The fault that words spell.
pub(crate) fn fault_of(words: &[&[u8]]) -> Option<FileFault>
    ensures { result ≡ fault_in (map (λ word. word.now) words.now) }
{
    match words {
        [number] => alone(any_number(number)?),
        [number, a] => with_one(any_number(number)?, any_number(a)?),
        [number, a, b] => with_two(any_number(number)?, any_number(a)?, any_number(b)?),
        [number, a, b, c] => {
            with_three(
                any_number(number)?,
                any_number(a)?,
                any_number(b)?,
                any_number(c)?,
            )
        },
        _ => None,
    }
}

fn any_number(word: &[u8]) -> Option<u64>
    ensures { result ≡ number_in most_64 word.now }
{
    read_number(word, u64::MAX)
}

fn is_small(number: u64) -> bool
    ensures { result ≡ has_bits 32 number }
{
    number <= u64::from(u32::MAX)
}

fn alone(number: u64) -> Option<FileFault>
    ensures { result ≡ fault_alone number }
{
    if number == 1 {
        Some(FileFault::Magic)
    } else if number == 3 {
        Some(FileFault::NotZero)
    } else {
        None
    }
}

fn with_small(number: u64, a: u32) -> Option<FileFault>
    ensures { result ≡ fault_with_small number a }
{
    if number == 4 {
        Some(FileFault::NodeCount(a))
    } else if number == 5 {
        Some(FileFault::PatchCount(a))
    } else if number == 8 {
        Some(FileFault::NodeOutOfGrid(a))
    } else if number == 9 {
        Some(FileFault::ArcEnd(a))
    } else if number == 10 {
        Some(FileFault::BodyCount(a))
    } else {
        None
    }
}

fn version(found: u64) -> Option<FileFault>
    ensures { result ≡ fault_with_one 2 found }
{
    if found <= u64::from(u16::MAX) {
        Some(FileFault::Version(found as u16))
    } else {
        None
    }
}

fn with_one(number: u64, a: u64) -> Option<FileFault>
    ensures { result ≡ fault_with_one number a }
{
    if number == 2 {
        version(a)
    } else if number == 6 {
        Some(FileFault::Truncated(a))
    } else if number == 7 {
        Some(FileFault::Trailing(a))
    } else if is_small(a) {
        with_small(number, a as u32)
    } else {
        None
    }
}

fn with_pair(number: u64, a: u32, b: u32) -> Option<FileFault>
    ensures { result ≡ fault_with_pair number a b }
{
    if number == 11 {
        Some(FileFault::PointOutOfGrid(a, b))
    } else if number == 13 {
        Some(FileFault::Flat(a, b))
    } else if number == 14 {
        Some(FileFault::Loose(a, b))
    } else {
        None
    }
}

fn with_two(number: u64, a: u64, b: u64) -> Option<FileFault>
    ensures { result ≡ fault_with_two number a b }
{
    if is_small(a) && is_small(b) {
        with_pair(number, a as u32, b as u32)
    } else {
        None
    }
}

fn with_three(number: u64, a: u64, b: u64, c: u64) -> Option<FileFault>
    ensures { result ≡ fault_with_three number a b c }
{
    if number == 12 && is_small(a) && is_small(b) && is_small(c) {
        Some(FileFault::CornerIndex(a as u32, b as u32, c as u32))
    } else {
        None
    }
}
