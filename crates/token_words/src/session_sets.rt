//! A set of sessions as a mask of 64 bits.

ghost use Rattle.std.specs.Prelude.{◌≡◌, ◌≤◌, true, false};
ghost use Rattle.token_words.specs.Changes.{SetAt};
ghost use Rattle.token_words.specs.declared.session_sets.TheConstants.{SESSIONS};
ghost use Rattle.token_words.specs.Sessions.{IsSession, has_session, session_count};

/// The greatest number of a session; the least is 1.
pub const SESSIONS: u32 = 64;

/// A set of sessions, whose numbers are 1 to `SESSIONS`. Session s is bit s - 1.
#[derive(Clone, Copy)]
pub struct SessionSet {
    pub mask: u64,
}

impl SessionSet {
    pub const EMPTY: SessionSet = SessionSet { mask: 0 };

    pub fn insert(&mut self, session: u32)
        requires { IsSession session }
        ensures { SetAt (has_session self.old.mask) session true (has_session self.new.mask) }
    {
        self.mask |= 1 << (session - 1);
    }

    pub fn remove(&mut self, session: u32)
        requires { IsSession session }
        ensures { SetAt (has_session self.old.mask) session false (has_session self.new.mask) }
    {
        let mask = self.mask;
        self.mask = mask & !(1 << (session - 1));
    }

    pub fn len(&self) -> u32
        ensures count { result ≡ session_count (has_session self.now.mask) }
        ensures most { result ≤ SESSIONS }
    {
        let mask = self.mask;
        mask.count_ones()
    }
}
