//! What the plain words keep for one patch.

ghost use Rattle.std.specs.Prelude.{◌≡◌, ℕ, ◌+◌, ◌<◌, ◌≤◌, ◌||◌, true, false, nat_lt, if◌then◌else◌};
ghost use Rattle.token_words.specs.Changes.{SetAt};
ghost use Rattle.file_model.specs.Tries.{is_odd};
ghost use Rattle.token_words.specs.Evictions.{epoch_after, uses_found, NeedsUse};
ghost use Rattle.token_words.specs.declared.keeping.TheConstants.{LAST_EPOCH};
ghost use Rattle.token_words.specs.Sessions.{IsSession, has_session, session_count, IsWithin};

use crate::answers::{Evict, Seen};
use crate::keeping::LAST_EPOCH;
use crate::session_sets::SessionSet;

/// The word of a patch that no session uses.
#[derive(Clone, Copy, Debug, PartialEq, Eq)]
pub struct Word {
    /// How often the patch came and went.
    pub epoch: u32,
    /// Whether the patch may never leave.
    pub is_pinned: bool,
    ghost capped: { epoch ≤ LAST_EPOCH },
}

/// The word of a patch, with the sessions that use the patch and those that have it locked.
#[derive(Clone, Copy)]
pub struct Entry {
    pub word: Word,
    pub users: SessionSet,
    pub lockers: SessionSet,
    ghost locked_is_used: { IsWithin lockers.mask users.mask },
}

impl Entry {
    pub fn unused(word: Word) -> Entry
        ensures epoch { result.word.epoch ≡ word.epoch }
        ensures pin { result.word.is_pinned ≡ word.is_pinned }
        ensures users { (s : ℕ) → has_session result.users.mask s ≡ false }
        ensures lockers { (s : ℕ) → has_session result.lockers.mask s ≡ false }
    {
        Entry {
            word,
            users: SessionSet::EMPTY,
            lockers: SessionSet::EMPTY,
        }
    }

    /// The number of uses: one for each session that uses the patch, and one for a pin.
    pub fn uses(&self) -> u32
        ensures { result ≡
            session_count (has_session self.now.users.mask)
            + (if self.now.word.is_pinned then 1 else 0) }
    {
        self.users.len() + u32::from(self.word.is_pinned)
    }

    /// Whether some session has the patch locked, or it is pinned.
    pub fn is_fast(&self) -> bool
        ensures { result ≡
            (self.now.word.is_pinned
            || nat_lt 0 (session_count (has_session self.now.lockers.mask))) }
    {
        self.word.is_pinned || self.lockers.len() > 0
    }

    /// A session uses the patch from now on, and has it locked if it is there.
    pub fn try_lock(&mut self, session: u32) -> Seen
        requires session { IsSession session }
        requires free { has_session self.old.users.mask session ≡ false }
        ensures seen { result.epoch ≡ self.old.word.epoch }
        ensures epoch { self.new.word.epoch ≡ self.old.word.epoch }
        ensures pin { self.new.word.is_pinned ≡ self.old.word.is_pinned }
        ensures users { SetAt (has_session self.old.users.mask) session true
            (has_session self.new.users.mask) }
        ensures lockers { SetAt (has_session self.old.lockers.mask) session (is_odd result.epoch)
            (has_session self.new.lockers.mask) }
    {
        let seen = Seen {
            epoch: self.word.epoch,
        };
        self.users.insert(session);
        if seen.is_granted() {
            self.lockers.insert(session);
        }
        seen
    }

    /// A session that doesn't have the patch locked doesn't use it any more.
    pub fn withdraw(&mut self, session: u32)
        requires session { IsSession session }
        requires refused { has_session self.old.lockers.mask session ≡ false }
        ensures epoch { self.new.word.epoch ≡ self.old.word.epoch }
        ensures pin { self.new.word.is_pinned ≡ self.old.word.is_pinned }
        ensures users { SetAt (has_session self.old.users.mask) session false
            (has_session self.new.users.mask) }
        ensures lockers { self.new.lockers.mask ≡ self.old.lockers.mask }
    {
        self.users.remove(session);
    }

    /// A session neither has the patch locked nor uses it any more.
    pub fn unlock(&mut self, session: u32)
        requires { IsSession session }
        ensures epoch { self.new.word.epoch ≡ self.old.word.epoch }
        ensures pin { self.new.word.is_pinned ≡ self.old.word.is_pinned }
        ensures users { SetAt (has_session self.old.users.mask) session false
            (has_session self.new.users.mask) }
        ensures lockers { SetAt (has_session self.old.lockers.mask) session false
            (has_session self.new.lockers.mask) }
    {
        self.users.remove(session);
        self.lockers.remove(session);
    }

    /// Counts the admission of the patch.
    pub fn admit(&mut self)
        requires { self.old.word.epoch < LAST_EPOCH }
        ensures epoch { self.new.word.epoch ≡ self.old.word.epoch + 1 }
        ensures pin { self.new.word.is_pinned ≡ self.old.word.is_pinned }
        ensures users { self.new.users.mask ≡ self.old.users.mask }
        ensures lockers { self.new.lockers.mask ≡ self.old.lockers.mask }
    {
        self.word.epoch += 1;
    }

    /// Counts the eviction of the patch, if nothing uses it.
    pub fn evict(&mut self) -> Evict
        requires there { is_odd self.old.word.epoch ≡ true }
        requires free { self.old.word.is_pinned ≡ false }
        ensures kept { NeedsUse result }
        ensures found { uses_found result ≡ session_count (has_session self.old.users.mask) }
        ensures epoch { self.new.word.epoch ≡ epoch_after result self.old.word.epoch }
        ensures pin { self.new.word.is_pinned ≡ self.old.word.is_pinned }
        ensures users { self.new.users.mask ≡ self.old.users.mask }
        ensures lockers { self.new.lockers.mask ≡ self.old.lockers.mask }
    {
        match self.uses() {
            0 => {
                self.word.epoch += 1;
                Evict::Gone
            }
            uses => Evict::Kept(uses),
        }
    }
}
