//! A caller that knows the words by their trait alone.

ghost use Rattle.std.specs.Prelude.{◌≡◌, ◌<◌, ◌≤◌, true, false, length, take, All, ◌==◌};
ghost use Rattle.std.specs.List.{list_all};
ghost use Rattle.std.specs.List.Sorted.{IsStrictlyIncreasing};
ghost use Rattle.token_words.specs.Batches.{Gains, Loses};
ghost use Rattle.token_words.specs.Changes.{Stays, ChangesOnly};
ghost use Rattle.file_model.specs.Tries.{is_odd};

use crate::locking::Tokens;

/// Locks patches in order up to the first refusal, which is withdrawn. Returns how many are locked.
#[tactic(auto, using(crate::proofs::Batches::is_new))]
fn lock_up_to_refusal<T: Tokens>(tokens: &mut T, pass: &mut T::Pass, patches: &[u32]) -> usize
    requires pass { T.IsPass tokens.old pass.old }
    requires patches { All (λ p. p < T.patches tokens.old) patches.now }
    requires ascending { IsStrictlyIncreasing patches.now }
    requires free { All (λ p. T.uses tokens.old pass.old p ≡ false) patches.now }
    ensures pass { T.IsPass tokens.new pass.new }
    ensures patches { T.patches tokens.new ≡ T.patches tokens.old }
    ensures within { result ≤ length patches.now }
    ensures uses { Gains (T.uses tokens.old pass.old) (take result patches.now)
        (T.uses tokens.new pass.new) }
    ensures locks { Gains (T.locks tokens.old pass.old) (take result patches.now)
        (T.locks tokens.new pass.new) }
    ensures epochs { T.tells_epochs ≡ true → Stays (T.epochs tokens.old) (T.epochs tokens.new) }
    ensures answer { T.tells_epochs ≡ true →
        (result == length patches.now)
        ≡ list_all (λ p. is_odd (T.epochs tokens.old p)) patches.now }
    ensures number { T.number pass.new ≡ T.number pass.old }
    ensures sets { T.tells_sets ≡ true →
        ChangesOnly (T.number pass.old) (T.session_uses tokens.old) (T.session_uses tokens.new) }
{
    for (i, &patch) in patches.iter().enumerate() {
        if !tokens.try_lock(pass, patch).is_granted() {
            tokens.withdraw(pass, patch);
            return i;
        }
    }
    patches.len()
}

/// Gives back the locks of patches, in order.
#[tactic(auto, using(crate::proofs::Batches::is_new))]
fn unlock_all<T: Tokens>(tokens: &mut T, pass: &mut T::Pass, patches: &[u32])
    requires pass { T.IsPass tokens.old pass.old }
    requires patches { All (λ p. p < T.patches tokens.old) patches.now }
    requires ascending { IsStrictlyIncreasing patches.now }
    requires locked { All (λ p. T.locks tokens.old pass.old p ≡ true) patches.now }
    ensures pass { T.IsPass tokens.new pass.new }
    ensures patches { T.patches tokens.new ≡ T.patches tokens.old }
    ensures uses { Loses (T.uses tokens.old pass.old) patches.now (T.uses tokens.new pass.new) }
    ensures locks { Loses (T.locks tokens.old pass.old) patches.now (T.locks tokens.new pass.new) }
    ensures epochs { T.tells_epochs ≡ true → Stays (T.epochs tokens.old) (T.epochs tokens.new) }
    ensures number { T.number pass.new ≡ T.number pass.old }
    ensures sets { T.tells_sets ≡ true →
        ChangesOnly (T.number pass.old) (T.session_uses tokens.old) (T.session_uses tokens.new) }
{
    for &patch in patches {
        tokens.unlock(pass, patch);
    }
}

/// Whether all patches are there: tries to lock them in order, and gives back what it got.
pub fn are_there<T: Tokens>(tokens: &mut T, pass: &mut T::Pass, patches: &[u32]) -> bool
    requires pass { T.IsPass tokens.old pass.old }
    requires patches { All (λ p. p < T.patches tokens.old) patches.now }
    requires ascending { IsStrictlyIncreasing patches.now }
    requires free { All (λ p. T.uses tokens.old pass.old p ≡ false) patches.now }
    ensures pass { T.IsPass tokens.new pass.new }
    ensures patches { T.patches tokens.new ≡ T.patches tokens.old }
    ensures answer { T.tells_epochs ≡ true
        → result ≡ list_all (λ p. is_odd (T.epochs tokens.old p)) patches.now }
    ensures uses { Stays (T.uses tokens.old pass.old) (T.uses tokens.new pass.new) }
    ensures locks { Stays (T.locks tokens.old pass.old) (T.locks tokens.new pass.new) }
    ensures epochs { T.tells_epochs ≡ true → Stays (T.epochs tokens.old) (T.epochs tokens.new) }
    ensures sets { T.tells_sets ≡ true →
        ChangesOnly (T.number pass.old) (T.session_uses tokens.old) (T.session_uses tokens.new) }
{
    let locked = lock_up_to_refusal(tokens, pass, patches);
    unlock_all(tokens, pass, &patches[..locked]);
    locked == patches.len()
}
