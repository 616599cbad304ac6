//! The integer square root of a number.

ghost use Rattle.std.specs.Prelude.{◌≡◌, ℕ, ◌+◌, ◌*◌, ◌<◌, ◌≤◌};
ghost use Rattle.grid_vertex.specs.Roots.{root_of};

use std::num::{nearest_u64_to_f64, saturating_f64_to_u32};

fn square(root: u32) -> u64
    ensures { result ≡ root * root }
{
    u64::from(root) * u64::from(root)
}

/// The number, or the next lower one whose square is at most `n`.
fn lowered(mut root: u32, n: u64) -> u32
    ensures { result * result ≤ n }
{
    while n < square(root) {
        root -= 1;
    }
    root
}

/// The greatest number whose square is at most `n`, from one on whose square is.
fn raised(mut root: u32, n: u64) -> u32
    requires { root * root ≤ n }
    ensures square { result * result ≤ n }
    ensures next { n < (result + 1) * (result + 1) }
{
    while root < u32::MAX && square(root + 1) <= n {
        root += 1;
    }
    root
}

/// The greatest number whose square is at most `n`.
pub fn isqrt(n: u64) -> u32
    ensures value { result ≡ root_of n }
    ensures square { result * result ≤ n }
    ensures greatest { (s : ℕ) → s * s ≤ n → s ≤ result }
{
    // The floating-point root is rounded, so it is off by one at most.
    let near = saturating_f64_to_u32(nearest_u64_to_f64(n).sqrt());
    raised(lowered(near, n), n)
}
