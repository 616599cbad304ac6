//! What the seats know. No value of these types is made: they stand in contracts alone.

use std::alloc::Global;
use std::collections::LinkedList;

/// What a session knows: its number, the patches that it uses, those of them that it has locked,
/// and its tries, each with its patch and the answered epoch.
pub struct Own {
    pub number: u32,
    pub uses: LinkedList<u32, Global>,
    pub locks: LinkedList<u32, Global>,
    pub tries: LinkedList<(u32, u32), Global>,
}

/// What is kept of a session that gave its seat back.
pub struct Ended {
    pub number: u32,
    pub tries: LinkedList<(u32, u32), Global>,
}

/// What the keeper knows: how many sessions were made, by patch the pins and the epoch, the session
/// that visits, the sessions that ended, and the refused evictions, each with its patch and the
/// uses that it found.
pub struct Desk {
    pub made: u32,
    pub pins: LinkedList<u32, Global>,
    pub epochs: LinkedList<u32, Global>,
    pub guest: Option<Own>,
    pub ended: LinkedList<Ended, Global>,
    pub misses: LinkedList<(u32, u32), Global>,
}

/// What a seat knows. A spent seat was joined into the keeper's.
pub enum View {
    Spent,
    Session(Own),
    Keeper(Desk),
}
