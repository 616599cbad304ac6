//! Numbers as words of a command line or a script.
//!
//! A number is spelt by its decimal digits with no 0 before another digit, and an integer below 0 has
//! `-` in front. Nothing else is a number: no `+5`, no `-0`, no `05`, no blanks, and no empty word.
#![tactic(auto)]

ghost use Rattle.std.specs.Prelude.{◌≡◌, ℕ, ◌^◌, ◌<◌, ◌≤◌, ◌↔◌, List, ℤ, unsigned_abs, Some};
ghost use Rattle.std.specs.Fmt.{decimal, signed_decimal};
ghost use Rattle.number_words.specs.Numbers.{number_in, signed_in};

mod reading;

pub use reading::{read_number, read_signed, read_wide_signed};

/// A word spells a number exactly where it is what the number prints as. What is printed has at most
/// 64 digits.
pub fn a_number_has_one_spelling()
    ensures number { (most n : ℕ) (word : List ℕ) → most < 10 ^ 64
        → (number_in most word ≡ Some n) ↔ ((word ≡ decimal n) × (n ≤ most)) }
    ensures signed { (most : ℕ) (z : ℤ) (word : List ℕ) → most < 10 ^ 64
        → (signed_in most word ≡ Some z) ↔ ((word ≡ signed_decimal z) × (unsigned_abs z ≤ most)) }
{}

#[cfg(test)]
mod tests;
