//! Reading the words of `play`, `playw` and `live`.

ghost use Rattle.std.specs.Prelude.{◌≡◌, ◌≤◌, length, map, string_bytes, Some, option_map, IfSome};
ghost use Rattle.tier_model.specs.Tiers.{IsWidth};
ghost use Rattle.viewer_program.specs.Playing.{budgets_in, width_in, play_with, wide_play_with, play_in, live_play_in};

use super::{GREATEST_BUDGET, MOST_TIERS, Play};
use arrayvec::ArrayVec;
use number_words::read_number;
use tier_model::MOST_WIDTH;

/// The play that the words ask for; none where they ask for none. They don't include the program's
/// name.
pub fn play_of(words: &[String]) -> Option<Play>
    ensures { result ≡ play_in (map string_bytes words.now) }
{
    match words {
        [first, name, numbers @ ..] => match first.as_str() {
            "play" => play_with(name.as_str(), Some(1), numbers),
            "playw" => wide_play_with(name.as_str(), numbers),
            _ => None,
        },
        _ => None,
    }
}

/// The run that a driver's words ask for; none where they ask for none. They don't include the program's name.
pub fn live_of(words: &[String]) -> Option<Play>
    ensures { result ≡ live_play_in (map string_bytes words.now) }
{
    match words {
        [first, name, numbers @ ..] => match first.as_str() {
            "live" => play_with(name.as_str(), Some(1), numbers),
            _ => None,
        },
        _ => None,
    }
}

// The play of these words, the first of which is the width.
fn wide_play_with(name: &str, words: &[String]) -> Option<Play>
    ensures { result ≡ wide_play_with name.now (map string_bytes words.now) }
{
    match words {
        [width, budgets @ ..] => play_with(name, read_width(width.as_str()), budgets),
        [] => None,
    }
}

// The play of a width and the budgets that words spell.
fn play_with(name: &str, width: Option<u32>, words: &[String]) -> Option<Play>
    requires { IfSome width IsWidth }
    ensures { result ≡ play_with name.now width (map string_bytes words.now) }
{
    if words.is_empty() || words.len() > MOST_TIERS || name.is_empty() {
        return None;
    }
    let width = width?;
    let budgets = read_budgets(words)?;
    Some(Play { width, budgets })
}

// The width that a word spells.
fn read_width(word: &str) -> Option<u32>
    ensures value { result ≡ width_in word.now }
    ensures wide { IfSome result IsWidth }
{
    match read_number(word.as_bytes(), u64::from(MOST_WIDTH))? {
        0 => None,
        width => Some(width as u32),
    }
}

// The budgets that the words spell.
fn read_budgets(words: &[String]) -> Option<ArrayVec<u64, MOST_TIERS>>
    requires { length words.now ≤ MOST_TIERS }
    ensures value { option_map (λ budgets. budgets.items) result
        ≡ budgets_in (map string_bytes words.now) }
    ensures many { IfSome result (λ budgets. length budgets.items ≡ length words.now) }
{
    let mut budgets = ArrayVec::new();
    for word in words {
        budgets.push(read_number(word.as_bytes(), GREATEST_BUDGET)?);
    }
    Some(budgets)
}
