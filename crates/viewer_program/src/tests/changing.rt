//! A store whose file changes.

ghost use Rattle.std.specs.Prelude.{◌≡◌, None};

use view_outside::{Failed, Store};

/// A byte that is another from its second read on.
#[derive(Clone, Copy, Debug, PartialEq, Eq)]
pub struct Change {
    place: u64,
    byte: u8,
    was_read: bool,
}

impl Change {
    /// The byte in this place becomes this one.
    pub fn new(place: u64, byte: u8) -> Change {
        Change {
            place,
            byte,
            was_read: false,
        }
    }
}

/// A store of one file, of which it tells nothing. It gives a byte at a time.
#[derive(Drop)]
pub struct ChangingStore {
    bytes: Vec<u8>,
    changes: Vec<Change>,
    taken: u128,
}

impl ChangingStore {
    /// The store of these bytes, which change so.
    pub fn new(bytes: Vec<u8>, changes: Vec<Change>) -> ChangingStore {
        ChangingStore {
            bytes,
            changes,
            taken: 0,
        }
    }

    // The byte at the offset.
    fn byte_at(&mut self, offset: u64) -> Option<u8>
        ensures { self.new.taken ≡ self.old.taken }
    {
        for change in &mut self.changes {
            if change.place == offset {
                if change.was_read {
                    return Some(change.byte);
                }
                change.was_read = true;
            }
        }
        self.bytes.get(offset as usize).copied()
    }
}

impl Store for ChangingStore {
    ghost files = { λ _. None };

    ghost faults = { λ _. 0 };

    ghost taken = { λ store. store.taken };

    fn find(&mut self, _name: &str) -> Result<u32, Failed> {
        Ok(0)
    }

    fn read_at(&mut self, _file: u32, offset: u64, buffer: &mut [u8]) -> Result<usize, Failed> {
        let Some(first) = buffer.first_mut() else {
            return Ok(0);
        };
        let Some(byte) = self.byte_at(offset) else {
            return Ok(0);
        };
        *first = byte;
        self.taken = self.taken.saturating_add(1);
        Ok(1)
    }
}
