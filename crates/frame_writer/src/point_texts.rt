//! Texts of points, which grow towards their beginning.

use grid_vertex::Point;
use itoa::write_digits;
use std::marker::Model;

/// Three numbers of up to 11 bytes with a space between them.
const ROOM: usize = 35;

/// The coordinates of a point as words.
#[derive(Drop)]
pub struct PointText {
    bytes: [u8; ROOM],
    start: usize,
}

impl Model for PointText {
    ghost use Rattle.std.specs.Prelude.{ℕ, ◌≤◌, List, drop};

    ghost Value = { List ℕ };

    ghost view = { λ text. drop text.start text.bytes };

    ghost invariant = { λ text. text.start ≤ 35 };
}

impl PointText {
    ghost use Rattle.std.specs.Prelude.{◌≡◌, ◌+◌, ◌<◌, ◌≤◌, [], ◌∷◌, ◌++◌, length};
    ghost use Rattle.std.specs.Fmt.{signed_decimal};
    ghost use Rattle.frame_writer.specs.PointTexts.{shown_point};

    /// x, y and z with a space between them.
    #[tactic(auto, unfolding(crate::specs::PointTexts::shown_point))]
    pub fn new(point: Point) -> PointText
        ensures { result ≡ shown_point point }
    {
        let mut text = PointText::empty();
        text.put_number(point.z);
        text.put(b' ');
        text.put_number(point.y);
        text.put(b' ');
        text.put_number(point.x);
        text
    }

    /// The text.
    pub fn as_bytes(&self) -> &[u8]
        ensures { result.now ≡ self.now }
    {
        &self.bytes[self.start..]
    }

    /// No text yet.
    fn empty() -> PointText
        ensures { result ≡ [] }
    {
        PointText {
            bytes: [0; ROOM],
            start: ROOM,
        }
    }

    /// Puts the byte before the text.
    fn put(&mut self, byte: u8)
        requires { length self.old < 35 }
        ensures { self.new ≡ byte ∷ self.old }
    {
        self.start -= 1;
        self.bytes[self.start] = byte;
    }

    /// Puts the number before the text.
    fn put_number(&mut self, number: i32)
        requires { length self.old + 11 ≤ 35 }
        ensures text { self.new ≡ signed_decimal number ++ self.old }
        ensures length { length self.new ≤ length self.old + 11 }
    {
        let digits = u64::from(number.unsigned_abs());
        self.start = write_digits(digits, &mut self.bytes, self.start);
        if number < 0 {
            self.put(b'-');
        }
    }
}
