//! Calls that are to fail.

ghost use Rattle.std.specs.Prelude.{◌≡◌};
ghost use Rattle.view_outside.specs.Planned.{fails_next, calls_after, fails_next_at, read_after, reads_after};

use std::marker::Model;

/// The calls that are to fail, each by how many calls it is away: 1 is the next call, 0 is a call that is over.
#[derive(Drop)]
pub struct PlannedCalls {
    away: Vec<u64>,
}

impl Model for PlannedCalls {
    ghost use Rattle.std.specs.Prelude.{ℕ, List};

    ghost Value = { List ℕ };

    ghost view = { λ planned. planned.away.items };
}

impl PlannedCalls {
    /// The calls of these numbers, counted from 1.
    pub fn new(numbers: Vec<u64>) -> PlannedCalls
        ensures { result ≡ numbers.items }
    {
        PlannedCalls { away: numbers }
    }

    /// Counts a call, and tells whether it is to fail.
    pub fn count(&mut self) -> bool
        ensures fails { result ≡ fails_next self.old }
        ensures after { self.new ≡ calls_after self.old }
    {
        let fails = self.away.iter().any(|away| *away == 1);
        for away in self.away.iter_mut() {
            *away = away.saturating_sub(1);
        }
        fails
    }
}

/// The reads that are to fail, each by its offset and by how many reads at that offset it is away.
#[derive(Drop)]
pub struct PlannedReads {
    away: Vec<(u64, u32)>,
}

impl Model for PlannedReads {
    ghost use Rattle.std.specs.Prelude.{ℕ, List};

    ghost Value = { List (ℕ × ℕ) };

    ghost view = { λ planned. planned.away.items };
}

impl PlannedReads {
    /// The reads of these offsets and numbers, counted from 1 at each offset.
    pub fn new(reads: Vec<(u64, u32)>) -> PlannedReads
        ensures { result ≡ reads.items }
    {
        PlannedReads { away: reads }
    }

    /// Counts a read at this offset, and tells whether it is to fail.
    pub fn count(&mut self, offset: u64) -> bool
        ensures fails { result ≡ fails_next_at offset self.old }
        ensures after { self.new ≡ reads_after offset self.old }
    {
        let fails = self.away.iter().any(|read| read.0 == offset && read.1 == 1);
        for read in self.away.iter_mut() {
            *read = nearer(*read, offset);
        }
        fails
    }
}

/// A planned read after a read at this offset.
fn nearer(read: (u64, u32), offset: u64) -> (u64, u32)
    ensures { result ≡ read_after offset read }
{
    let (planned, away) = read;
    if planned == offset {
        (planned, away.saturating_sub(1))
    } else {
        (planned, away)
    }
}
