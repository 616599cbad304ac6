//! A message that waits in a place of its own.

ghost use Rattle.std.specs.Prelude.{◌≡◌, ◌≤◌, length, take};

use std::marker::Model;

/// The bytes of a message, at most 1,280.
#[derive(Drop)]
pub struct Held {
    room: [u8; 1280],
    size: usize,
}

impl Model for Held {
    ghost use Rattle.std.specs.Prelude.{ℕ, List, take, ◌≤◌};

    ghost Value = { List ℕ };

    ghost view = { λ held. take held.size held.room };

    ghost invariant = { λ held. held.size ≤ 1280 };
}

impl Held {
    /// A copy of these bytes.
    pub fn new(bytes: &[u8]) -> Held
        requires { length bytes.now ≤ 1280 }
        ensures { result ≡ bytes.now }
    {
        let mut room = [0; 1280];
        room[..bytes.len()].copy_from_slice(bytes);
        Held {
            room,
            size: bytes.len(),
        }
    }

    /// Copies the bytes to the front of the buffer, and answers how many there are.
    pub fn copy_to(&self, buffer: &mut [u8]) -> usize
        requires { 1280 ≤ length buffer.old }
        ensures size { result ≤ 1280 }
        ensures bytes { take result buffer.new ≡ self.now }
        ensures room { length buffer.new ≡ length buffer.old }
    {
        buffer[..self.size].copy_from_slice(&self.room[..self.size]);
        self.size
    }
}
