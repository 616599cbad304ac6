//! Places in a run at which others may be waited for.
//!
//! A gate answers nothing and promises nothing; runs that are watched or steered pass through one.

use std::sync::atomic::AtomicBool;
use std::sync::atomic::Ordering::SeqCst;
use std::thread;

/// A place in a run.
#[derive(Clone, Copy, Debug, PartialEq, Eq)]
pub enum GatePoint {
    /// A worker of this tier took a turn.
    TierTurn(u32),
    /// A session of this number is about to try a lock.
    LockTry(u32),
    /// A session of this number made the text of a frame.
    FrameDone(u32),
}

/// What is passed at each such place. No lock is held meanwhile.
pub trait Gate {
    /// Passes a place.
    fn pass(&self, point: GatePoint);
}

/// A gate that holds nobody.
#[derive(Clone, Copy, Debug)]
pub struct OpenGate;

impl Gate for OpenGate {
    fn pass(&self, _point: GatePoint) {}
}

/// A gate that holds who passes one place until another was passed, for so many turns at most.
#[derive(Drop)]
pub struct HoldGate {
    hold: GatePoint,
    until: GatePoint,
    turns: u64,
    was_passed: AtomicBool,
    is_late: AtomicBool,
}

impl HoldGate {
    /// A gate that holds who passes `hold` until somebody passed `until`, at most `turns` turns of a loop.
    pub fn new(hold: GatePoint, until: GatePoint, turns: u64) -> HoldGate {
        HoldGate {
            hold,
            until,
            turns,
            was_passed: AtomicBool::new(false),
            is_late: AtomicBool::new(false),
        }
    }

    /// Tells whether somebody was let go before `until` was passed.
    pub fn late(&self) -> bool {
        self.is_late.load(SeqCst)
    }

    /// Waits until the other place was passed, for so many turns at most.
    fn wait(&self) {
        for _ in 0..self.turns {
            if self.was_passed.load(SeqCst) {
                return;
            }
            thread::yield_now();
        }
        self.is_late.store(true, SeqCst);
    }
}

impl Gate for HoldGate {
    fn pass(&self, point: GatePoint) {
        if point == self.until {
            self.was_passed.store(true, SeqCst);
        }
        if point == self.hold {
            self.wait();
        }
    }
}
