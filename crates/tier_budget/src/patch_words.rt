//! Sets of patches in words of 64.

ghost use Rattle.std.specs.Prelude.{◌≡◌, ◌<◌, ◌%◌, ◌^◌, length};

use grid_vertex::NoMemory;
use std::alloc::Global;
use std::marker::Model;

/// A set of patches with a bit for each. It may have patches that it was not given, but lacks none that it
/// was given and that wasn't taken out since.
#[derive(Drop)]
pub struct PatchWords {
    words: Vec<u64>,
}

impl Model for PatchWords {
    ghost use Rattle.std.specs.Prelude.{List, ℕ};

    ghost Value = { List ℕ };

    ghost view = { λ set. set.words.items };
}

/// The bit of a patch within its word.
fn bit_of(patch: u32) -> u64
    ensures { result ≡ 2 ^ (patch % 64) }
{
    1 << (patch % 64)
}

impl PatchWords {
    ghost use Rattle.std.specs.Prelude.{◌≡◌, ◌≢◌, ℕ, ◌<◌, ◌/◌, ◌+◌, [], true, false, length, IfOk};
    ghost use Rattle.tier_budget.specs.PatchSets.{HasPatch};

    /// A set of no patches, with room for none.
    pub fn new(alloc: Global) -> PatchWords
        ensures { result ≡ [] }
    {
        PatchWords {
            words: Vec::new(alloc),
        }
    }

    /// A set of no patches, with room for so many.
    pub fn with_patches(alloc: Global, patches: u32) -> Result<PatchWords, NoMemory>
        ensures { IfOk result (λ set. length set ≡ patches / 64 + 1) }
    {
        Ok(PatchWords {
            words: vec![in alloc; 0; (patches / 64) as usize + 1]?,
        })
    }

    /// Gives the set a patch.
    pub fn insert(&mut self, patch: u32)
        requires { patch / 64 < length self.old }
        ensures has { HasPatch self.new patch }
        ensures others { (p : ℕ) → HasPatch self.old p → HasPatch self.new p }
        ensures room { length self.new ≡ length self.old }
    {
        self.words[(patch / 64) as usize] |= bit_of(patch);
    }

    /// Takes a patch out of the set.
    pub fn remove(&mut self, patch: u32)
        requires { patch / 64 < length self.old }
        ensures others { (p : ℕ) → p ≢ patch → HasPatch self.old p → HasPatch self.new p }
        ensures room { length self.new ≡ length self.old }
    {
        self.words[(patch / 64) as usize] &= !bit_of(patch);
    }

    /// Gives the set a patch, or takes it out.
    pub fn set(&mut self, patch: u32, is_in: bool)
        requires { patch / 64 < length self.old }
        ensures has { is_in ≡ true → HasPatch self.new patch }
        ensures others { (p : ℕ) → p ≢ patch → HasPatch self.old p → HasPatch self.new p }
        ensures room { length self.new ≡ length self.old }
    {
        if is_in {
            self.insert(patch);
        } else {
            self.remove(patch);
        }
    }

    /// Whether a patch may be in both sets. False only where none is.
    pub fn meets(&self, other: &PatchWords) -> bool
        ensures { result ≡ false → (p : ℕ) → HasPatch self.now p → HasPatch other.now p → ⊥ }
    {
        let many = self.words.len().min(other.words.len());
        for at in 0..many {
            if self.words[at] & other.words[at] != 0 {
                return true;
            }
        }
        false
    }
}
