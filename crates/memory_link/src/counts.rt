//! Counts that are kept since the last multiple, so that none overflows.

ghost use Rattle.std.specs.Prelude.{◌≡◌, ℕ, ◌<◌, ◌%◌, ◌==◌, false};
ghost use Rattle.memory_link.specs.Counts.{one_more, is_multiple, counted};

/// The count after one more, which begins anew at each multiple.
pub fn one_more(every: u32, count: u32) -> u32
    ensures { result ≡ one_more every count }
{
    if count >= every.saturating_sub(1) {
        0
    } else {
        count + 1
    }
}

/// Whether the count stands at a multiple. There is none of 0.
pub fn is_multiple(every: u32, count: u32) -> bool
    ensures { result ≡ is_multiple every count }
{
    every != 0 && count == 0
}

/// A count that is kept since the last multiple is the rest of the whole count, and it stands at a multiple where the
/// whole count is one.
pub fn a_count_is_the_rest()
    ensures rest { (every n : ℕ) → 0 < every → counted every n ≡ n % every }
    ensures multiple { (every n : ℕ) → 0 < every → is_multiple every (counted every n) ≡ (n % every == 0) }
    ensures none { (n : ℕ) → is_multiple 0 (counted 0 n) ≡ false }
{}
