//! What sessions do with the words.

ghost use Rattle.std.specs.Prelude.{◌≡◌, ℕ, ◌<◌, Bool, true, false, List, [], ◌∷◌, ◌++◌};
ghost use Rattle.token_words.specs.Changes.{SetAt, Stays, ChangesOnly};
ghost use Rattle.file_model.specs.Tries.{is_odd};

use crate::answers::Seen;

/// The words of all patches, as sessions use them.
///
/// A session has a pass, which is seen as the patches that it uses and, among them, those that it
/// has locked. A use that is no lock is a refused try.
pub trait Tokens {
    type Pass;

    /// What a table is told apart by.
    ghost Name: { Type 0 };

    /// The table of the words, and that of a pass.
    ghost table: { Self → Name };

    ghost pass_table: { Self.Pass → Name };

    /// How many patches have a word.
    ghost patches: { Self → ℕ };

    /// Which passes are of the words.
    ghost IsPass: { Self → Self.Pass → Type 0 };

    /// The number of a pass, which is its session's.
    ghost number: { Self.Pass → ℕ };

    /// Whether a pass uses a patch, and whether it has it locked.
    ghost uses: { Self → Self.Pass → ℕ → Bool };

    ghost locks: { Self → Self.Pass → ℕ → Bool };

    /// Whether passes tell their tries, and the tries: each with its patch and the answered epoch.
    ghost tells_tries: { Bool };

    ghost tries: { Self.Pass → List (ℕ × ℕ) };

    /// Whether the words tell their epochs, and the epoch of a patch.
    ghost tells_epochs: { Bool };

    ghost epochs: { Self → ℕ → ℕ };

    /// Whether the words tell their sets, and whether a session uses a patch, whether it has it
    /// locked, and whether a patch is pinned.
    ghost tells_sets: { Bool };

    ghost session_uses: { Self → ℕ → ℕ → Bool };

    ghost session_locks: { Self → ℕ → ℕ → Bool };

    ghost pinned: { Self → ℕ → Bool };

    /// Tries to lock a patch. The pass uses the patch from now on, and has it locked exactly where
    /// the answered epoch is odd.
    fn try_lock(&mut self, pass: &mut Self::Pass, patch: u32) -> Seen
        requires pass { IsPass self.old pass.old }
        requires patch { patch < patches self.old }
        requires free { uses self.old pass.old patch ≡ false }
        ensures pass { IsPass self.new pass.new }
        ensures number { (number pass.new ≡ number pass.old)
            × (pass_table pass.new ≡ pass_table pass.old) }
        ensures words { (table self.new ≡ table self.old) × (patches self.new ≡ patches self.old) }
        ensures uses { SetAt (uses self.old pass.old) patch true (uses self.new pass.new) }
        ensures locks { SetAt (locks self.old pass.old) patch (is_odd result.epoch)
            (locks self.new pass.new) }
        ensures tries { tells_tries ≡ true
            → tries pass.new ≡ tries pass.old ++ (patch, result.epoch) ∷ [] }
        ensures epoch { tells_epochs ≡ true → result.epoch ≡ epochs self.old patch }
        ensures epochs { tells_epochs ≡ true → Stays (epochs self.old) (epochs self.new) }
        ensures use_sets { tells_sets ≡ true →
            ChangesOnly (number pass.old) (session_uses self.old) (session_uses self.new) }
        ensures lock_sets { tells_sets ≡ true →
            ChangesOnly (number pass.old) (session_locks self.old) (session_locks self.new) }
        ensures pins { tells_sets ≡ true → Stays (pinned self.old) (pinned self.new) };

    /// Ends a refused try.
    fn withdraw(&mut self, pass: &mut Self::Pass, patch: u32)
        requires pass { IsPass self.old pass.old }
        requires patch { patch < patches self.old }
        requires tried { uses self.old pass.old patch ≡ true }
        requires refused { locks self.old pass.old patch ≡ false }
        ensures pass { IsPass self.new pass.new }
        ensures number { (number pass.new ≡ number pass.old)
            × (pass_table pass.new ≡ pass_table pass.old) }
        ensures words { (table self.new ≡ table self.old) × (patches self.new ≡ patches self.old) }
        ensures uses { SetAt (uses self.old pass.old) patch false (uses self.new pass.new) }
        ensures locks { Stays (locks self.old pass.old) (locks self.new pass.new) }
        ensures tries { tells_tries ≡ true → tries pass.new ≡ tries pass.old }
        ensures epochs { tells_epochs ≡ true → Stays (epochs self.old) (epochs self.new) }
        ensures use_sets { tells_sets ≡ true →
            ChangesOnly (number pass.old) (session_uses self.old) (session_uses self.new) }
        ensures lock_sets { tells_sets ≡ true →
            ChangesOnly (number pass.old) (session_locks self.old) (session_locks self.new) }
        ensures pins { tells_sets ≡ true → Stays (pinned self.old) (pinned self.new) };

    /// Gives a lock back.
    fn unlock(&mut self, pass: &mut Self::Pass, patch: u32)
        requires pass { IsPass self.old pass.old }
        requires patch { patch < patches self.old }
        requires locked { locks self.old pass.old patch ≡ true }
        ensures pass { IsPass self.new pass.new }
        ensures number { (number pass.new ≡ number pass.old)
            × (pass_table pass.new ≡ pass_table pass.old) }
        ensures words { (table self.new ≡ table self.old) × (patches self.new ≡ patches self.old) }
        ensures uses { SetAt (uses self.old pass.old) patch false (uses self.new pass.new) }
        ensures locks { SetAt (locks self.old pass.old) patch false (locks self.new pass.new) }
        ensures tries { tells_tries ≡ true → tries pass.new ≡ tries pass.old }
        ensures epochs { tells_epochs ≡ true → Stays (epochs self.old) (epochs self.new) }
        ensures use_sets { tells_sets ≡ true →
            ChangesOnly (number pass.old) (session_uses self.old) (session_uses self.new) }
        ensures lock_sets { tells_sets ≡ true →
            ChangesOnly (number pass.old) (session_locks self.old) (session_locks self.new) }
        ensures pins { tells_sets ≡ true → Stays (pinned self.old) (pinned self.new) };

    /// A lock is a use.
    ghost locks_are_uses: { (words : Self) (pass : Self.Pass) (patch : ℕ) → IsPass words pass
        → locks words pass patch ≡ true → uses words pass patch ≡ true };

    /// Where the sets are told, the uses and the locks of a pass are its session's sets.
    ghost uses_are_sets: { tells_sets ≡ true → (words : Self) (pass : Self.Pass) → IsPass words pass
        → (patch : ℕ) → uses words pass patch ≡ session_uses words (number pass) patch };

    ghost locks_are_sets: { tells_sets ≡ true → (words : Self) (pass : Self.Pass)
        → IsPass words pass → (patch : ℕ)
        → locks words pass patch ≡ session_locks words (number pass) patch };
}

#[cfg(test)]
pub mod tests;
