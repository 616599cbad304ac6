//! The numbers that words spell, and the view that they make.

ghost use Rattle.std.specs.Prelude.{◌≡◌, ◌≤◌, length, map, true, IfOk};
ghost use Rattle.grid_vertex.specs.Points.{is_within, is_point_within};
ghost use Rattle.file_model.specs.Rules.{is_between};
ghost use Rattle.script_model.specs.Orders.{count_at, coordinate_at, positive_at, eye_in, view_in};

use crate::words::word_at;
use grid_vertex::Point;
use number_words::{read_number, read_signed};
use round_model::{EYE_REACH, GREATEST_FOCAL, GREATEST_THRESHOLD, View};

/// The count that the word of this number spells. Err is that number.
pub fn count_at(number: u32, words: &[&[u8]]) -> Result<u32, u32>
    requires first { 1 ≤ number }
    requires last { number ≤ length words.now }
    ensures { result ≡ count_at number (map (λ word. word.now) words.now) }
{
    match read_number(word_at(number, words), u64::from(u32::MAX)) {
        Some(count) => Ok(count as u32),
        None => Err(number),
    }
}

/// The number from 1 to the greatest that the word of this number spells. Err is the word's number.
fn positive_at(greatest: u32, number: u32, words: &[&[u8]]) -> Result<u32, u32>
    requires first { 1 ≤ number }
    requires last { number ≤ length words.now }
    ensures value { result ≡ positive_at greatest number (map (λ word. word.now) words.now) }
    ensures range { IfOk result (λ positive. is_between 1 greatest positive ≡ true) }
{
    match read_number(word_at(number, words), u64::from(greatest)) {
        Some(positive) if 1 <= positive => Ok(positive as u32),
        _ => Err(number),
    }
}

/// The coordinate of an eye that the word of this number spells. Err is the word's number.
fn coordinate_at(number: u32, words: &[&[u8]]) -> Result<i32, u32>
    requires first { 1 ≤ number }
    requires last { number ≤ length words.now }
    ensures value { result ≡ coordinate_at number (map (λ word. word.now) words.now) }
    ensures range { IfOk result (λ coordinate. is_within EYE_REACH coordinate ≡ true) }
{
    match read_signed(word_at(number, words), EYE_REACH) {
        Some(coordinate) => Ok(coordinate),
        None => Err(number),
    }
}

/// The eye that the words 3 to 5 spell. Err is the number of the first of them that spells no coordinate.
#[tactic(auto, unfolding(script_model::specs::Orders::eye_in))]
fn eye_of(words: &[&[u8]]) -> Result<Point, u32>
    requires { 5 ≤ length words.now }
    ensures value { result ≡ eye_in (map (λ word. word.now) words.now) }
    ensures range { IfOk result (λ eye. is_point_within EYE_REACH eye ≡ true) }
{
    let x = coordinate_at(3, words)?;
    let y = coordinate_at(4, words)?;
    let z = coordinate_at(5, words)?;
    Ok(Point { x, y, z })
}

/// The view that the words 3 to 8 spell: the eye, the focal number, the threshold and the limit. Err is the number
/// of the first of them that spells nothing in its range.
#[tactic(auto, unfolding(script_model::specs::Orders::view_in))]
pub fn view_of(words: &[&[u8]]) -> Result<View, u32>
    requires { 8 ≤ length words.now }
    ensures { result ≡ view_in (map (λ word. word.now) words.now) }
{
    let eye = eye_of(words)?;
    let focal = positive_at(GREATEST_FOCAL, 6, words)?;
    let threshold = positive_at(GREATEST_THRESHOLD, 7, words)?;
    let limit = count_at(8, words)?;
    Ok(View::new(eye, focal, threshold, limit).unwrap())
}
