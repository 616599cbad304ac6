//! What the owner of the top tier does with the words.

ghost use Rattle.std.specs.Prelude.{◌≡◌, ℕ, ◌+◌, ◌<◌, Bool, true, false, List, [], ◌++◌};
ghost use Rattle.token_words.specs.Changes.{SetAt, Stays, SetsStay};
ghost use Rattle.file_model.specs.Tries.{is_odd};
ghost use Rattle.token_words.specs.Evictions.{epoch_after, uses_found, misses_of, NeedsUse};
ghost use Rattle.token_words.specs.Sessions.{session_count};

use crate::answers::Evict;

/// The last epoch. A patch that has it is not admitted any more.
pub const LAST_EPOCH: u32 = 4_294_967_294;

/// The words of all patches, as the owner of a tier uses them. A lower tier has no words: there
/// each epoch is 0, each eviction goes through, and nothing changes.
pub trait Keeper {
    /// Whether there are words.
    ghost has_words: { Bool };

    /// What stays as it is, as plain data.
    ghost Place: { Type 0 };

    ghost place: { Self → Place };

    /// How many patches have a word.
    ghost patches: { Self → ℕ };

    /// The epoch of a patch, and whether it is pinned.
    ghost epochs: { Self → ℕ → ℕ };

    ghost pinned: { Self → ℕ → Bool };

    /// Whether the sets are told, and whether a session uses a patch and whether it has it locked.
    ghost tells_sets: { Bool };

    ghost session_uses: { Self → ℕ → ℕ → Bool };

    ghost session_locks: { Self → ℕ → ℕ → Bool };

    /// Whether refused evictions are told, and these: each with its patch and the uses found.
    ghost tells_misses: { Bool };

    ghost misses: { Self → List (ℕ × ℕ) };

    /// The epoch of a patch, and 0 without words.
    fn epoch(&self, patch: u32) -> u32
        requires patch { has_words ≡ true → patch < patches self.now }
        ensures told { has_words ≡ true → result ≡ epochs self.now patch }
        ensures without { has_words ≡ false → result ≡ 0 };

    /// Counts the admission of a patch.
    fn admit(&mut self, patch: u32)
        requires patch { has_words ≡ true → patch < patches self.old }
        requires away { has_words ≡ true → is_odd (epochs self.old patch) ≡ false }
        requires below { has_words ≡ true → epochs self.old patch < LAST_EPOCH }
        ensures epochs { has_words ≡ true →
            SetAt (epochs self.old) patch (epochs self.old patch + 1) (epochs self.new) }
        ensures without { has_words ≡ false → Stays (epochs self.old) (epochs self.new) }
        ensures pins { Stays (pinned self.old) (pinned self.new) }
        ensures use_sets { tells_sets ≡ true
            → SetsStay (session_uses self.old) (session_uses self.new) }
        ensures lock_sets { tells_sets ≡ true
            → SetsStay (session_locks self.old) (session_locks self.new) }
        ensures misses { tells_misses ≡ true → misses self.new ≡ misses self.old }
        ensures place { (place self.new ≡ place self.old) × (patches self.new ≡ patches self.old) };

    /// Counts the eviction of a patch, if nothing uses it.
    fn evict(&mut self, patch: u32) -> Evict
        requires patch { has_words ≡ true → patch < patches self.old }
        requires there { has_words ≡ true → is_odd (epochs self.old patch) ≡ true }
        requires free { has_words ≡ true → pinned self.old patch ≡ false }
        ensures kept { NeedsUse result }
        ensures found { has_words ≡ true →
            tells_sets ≡ true
            → uses_found result ≡ session_count (λ session. session_uses self.old session patch) }
        ensures gone { has_words ≡ false → result ≡ Evict.Gone }
        ensures epochs { has_words ≡ true →
            SetAt (epochs self.old) patch (epoch_after result (epochs self.old patch))
            (epochs self.new) }
        ensures without { has_words ≡ false → Stays (epochs self.old) (epochs self.new) }
        ensures pins { Stays (pinned self.old) (pinned self.new) }
        ensures use_sets { tells_sets ≡ true
            → SetsStay (session_uses self.old) (session_uses self.new) }
        ensures lock_sets { tells_sets ≡ true
            → SetsStay (session_locks self.old) (session_locks self.new) }
        ensures misses { tells_misses ≡ true
            → misses self.new ≡ misses self.old ++ misses_of result patch }
        ensures place { (place self.new ≡ place self.old) × (patches self.new ≡ patches self.old) };
}

/// The keeper of a tier below the top one.
#[derive(Clone, Copy, Debug, PartialEq, Eq)]
pub struct NoWords;

impl Keeper for NoWords {
    ghost has_words = { false };

    ghost Place = { Unit {0} };

    ghost place = { λ _. tt };

    ghost patches = { λ _. 0 };

    ghost epochs = { λ _ _. 0 };

    ghost pinned = { λ _ _. false };

    ghost tells_sets = { false };

    ghost session_uses = { λ _ _ _. false };

    ghost session_locks = { λ _ _ _. false };

    ghost tells_misses = { false };

    ghost misses = { λ _. [] };

    fn epoch(&self, _patch: u32) -> u32 {
        0
    }

    fn admit(&mut self, _patch: u32) {}

    fn evict(&mut self, _patch: u32) -> Evict {
        Evict::Gone
    }
}
