//! The words as plain data of one thread.

ghost use Rattle.std.specs.Prelude.{◌≡◌, ℕ, ◌<◌, ◌≤◌, ◌||◌, true, false, [], length, nat_lt, All, IfOk, refl};
ghost use Rattle.token_words.specs.Changes.{SetAt, Stays};
ghost use Rattle.token_words.specs.PlainTokens.{patch_count, epoch_of, is_pinned, is_user, is_locker, session_of, IsUnused, IsStart, HasWords, HasEpochs, is_user-of_locker};
ghost use Rattle.token_words.specs.Sessions.{IsSession, session_count};
ghost use Rattle.token_words.specs.declared.keeping.TheConstants.{LAST_EPOCH};

use crate::answers::{Evict, Seen};
use crate::entries::{Entry, Word};
use crate::keeping::Keeper;
use crate::locking::Tokens;
use grid_vertex::NoMemory;
use std::alloc::Global;

/// The words of all patches. They tell their epochs and their sets.
#[derive(Drop)]
pub struct PlainTokens {
    entries: Vec<Entry>,
}

/// The pass of a session. It tells no tries.
#[derive(Drop)]
pub struct PlainPass {
    session: u32,
}

impl PlainTokens {
    /// The words of patches 0 to `patches - 1`, which no session uses. The patches of `base` are
    /// there and pinned.
    pub fn new(alloc: Global, patches: u32, base: &[u32]) -> Result<PlainTokens, NoMemory>
        requires { All (λ patch. patch < patches) base.now }
        ensures { IfOk result (IsStart patches base.now) }
    {
        let mut tokens = PlainTokens::away(alloc, patches)?;
        for &patch in base {
            tokens.pin(patch);
        }
        Ok(tokens)
    }

    /// The words where no patch is there.
    fn away(alloc: Global, patches: u32) -> Result<PlainTokens, NoMemory>
        ensures { IfOk result (IsStart patches []) }
    {
        let word = Word {
            epoch: 0,
            is_pinned: false,
        };
        let entries = vec![in alloc; Entry::unused(word); patches as usize]?;
        Ok(PlainTokens { entries })
    }

    /// A base patch is there and pinned.
    fn pin(&mut self, patch: u32)
        requires { patch < patch_count self.old }
        ensures patches { patch_count self.new ≡ patch_count self.old }
        ensures epochs { SetAt (epoch_of self.old) patch 1 (epoch_of self.new) }
        ensures pins { SetAt (is_pinned self.old) patch true (is_pinned self.new) }
        ensures unused { IsUnused self.old → IsUnused self.new }
    {
        self.entries[patch as usize] = Entry::unused(Word {
            epoch: 1,
            is_pinned: true,
        });
    }

    /// These words, one for each patch, which no session uses.
    pub fn with_words(alloc: Global, words: &[Word]) -> Result<PlainTokens, NoMemory>
        ensures { IfOk result (HasWords words.now) }
    {
        let mut tokens = PlainTokens {
            entries: Vec::with_capacity(alloc, words.len())?,
        };
        for &word in words {
            tokens.entries.push(Entry::unused(word))?;
        }
        Ok(tokens)
    }

    /// Words with these epochs, one for each patch, which no session uses. The patches of `base` are pinned.
    pub fn with_epochs(alloc: Global, epochs: &[u32], base: &[u32]) -> Result<PlainTokens, NoMemory>
        requires epochs { All (λ epoch. epoch ≤ LAST_EPOCH) epochs.now }
        requires base { All (λ patch. patch < length epochs.now) base.now }
        ensures { IfOk result (HasEpochs epochs.now base.now) }
    {
        let mut tokens = PlainTokens::unpinned(alloc, epochs)?;
        for &patch in base {
            tokens.pin_as_is(patch);
        }
        Ok(tokens)
    }

    /// The same where no patch is pinned.
    fn unpinned(alloc: Global, epochs: &[u32]) -> Result<PlainTokens, NoMemory>
        requires { All (λ epoch. epoch ≤ LAST_EPOCH) epochs.now }
        ensures { IfOk result (HasEpochs epochs.now []) }
    {
        let mut tokens = PlainTokens {
            entries: Vec::with_capacity(alloc, epochs.len())?,
        };
        for &epoch in epochs {
            let is_pinned = false;
            tokens
                .entries
                .push(Entry::unused(Word { epoch, is_pinned }))?;
        }
        Ok(tokens)
    }

    /// A patch is pinned, with the epoch that it has.
    fn pin_as_is(&mut self, patch: u32)
        requires { patch < patch_count self.old }
        ensures patches { patch_count self.new ≡ patch_count self.old }
        ensures epochs { Stays (epoch_of self.old) (epoch_of self.new) }
        ensures pins { SetAt (is_pinned self.old) patch true (is_pinned self.new) }
        ensures unused { IsUnused self.old → IsUnused self.new }
    {
        self.entries[patch as usize].word.is_pinned = true;
    }

    /// Whether some session has the patch locked, or it is pinned. A patch without a word is neither.
    pub fn is_fast(&self, patch: u32) -> bool
        ensures { result ≡
            (is_pinned self.now patch
            || nat_lt 0 (session_count (λ session. is_locker self.now session patch))) }
    {
        match self.entries.get(patch as usize) {
            Some(entry) => entry.is_fast(),
            None => false,
        }
    }

    /// The pass of a session that uses no patch.
    pub fn pass(&self, session: u32) -> PlainPass
        requires session { IsSession session }
        requires unused { (patch : ℕ) → is_user self.now session patch ≡ false }
        ensures session { session_of result ≡ session }
        ensures unlocked { (patch : ℕ) → is_locker self.now session patch ≡ false }
    {
        PlainPass { session }
    }
}

impl Tokens for PlainTokens {
    type Pass = PlainPass;

    ghost Name = { Unit {0} };

    ghost table = { λ _. tt };

    ghost pass_table = { λ _. tt };

    ghost patches = { patch_count };

    ghost IsPass = { λ _ pass. IsSession (session_of pass) };

    ghost number = { session_of };

    ghost uses = { λ tokens pass. is_user tokens (session_of pass) };

    ghost locks = { λ tokens pass. is_locker tokens (session_of pass) };

    ghost tells_tries = { false };

    ghost tries = { λ _. [] };

    ghost tells_epochs = { true };

    ghost epochs = { epoch_of };

    ghost tells_sets = { true };

    ghost session_uses = { is_user };

    ghost session_locks = { is_locker };

    ghost pinned = { is_pinned };

    fn try_lock(&mut self, pass: &mut PlainPass, patch: u32) -> Seen {
        self.entries[patch as usize].try_lock(pass.session)
    }

    fn withdraw(&mut self, pass: &mut PlainPass, patch: u32) {
        self.entries[patch as usize].withdraw(pass.session);
    }

    fn unlock(&mut self, pass: &mut PlainPass, patch: u32) {
        self.entries[patch as usize].unlock(pass.session);
    }

    ghost locks_are_uses = { λ words pass patch _.
        is_user-of_locker words (session_of pass) patch };

    ghost uses_are_sets = { λ _ _ _ _ _. refl };

    ghost locks_are_sets = { λ _ _ _ _ _. refl };
}

impl Keeper for PlainTokens {
    ghost has_words = { true };

    ghost Place = { Unit {0} };

    ghost place = { λ _. tt };

    ghost patches = { patch_count };

    ghost epochs = { epoch_of };

    ghost pinned = { is_pinned };

    ghost tells_sets = { true };

    ghost session_uses = { is_user };

    ghost session_locks = { is_locker };

    ghost tells_misses = { false };

    ghost misses = { λ _. [] };

    fn epoch(&self, patch: u32) -> u32 {
        self.entries[patch as usize].word.epoch
    }

    fn admit(&mut self, patch: u32) {
        self.entries[patch as usize].admit();
    }

    fn evict(&mut self, patch: u32) -> Evict {
        self.entries[patch as usize].evict()
    }
}

#[cfg(test)]
mod tests;
