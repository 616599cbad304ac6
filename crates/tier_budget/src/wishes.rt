//! How much patches are wished.

ghost use Rattle.std.specs.Prelude.{◌≡◌, ℕ, ◌<◌, ◌≤◌, length, map};
ghost use Rattle.std.specs.List.{range_with_len};

/// Tells how much each patch is wished, and which version of the wishes this is.
pub trait Wishes {
    /// For how many patches there are wishes.
    ghost patches: { Self → ℕ };

    ghost wish_of: { Self → ℕ → ℕ };

    ghost version_of: { Self → ℕ };

    /// The wish of a patch.
    fn wish(&self, patch: u32) -> u64
        requires { patch < patches self.now }
        ensures { result ≡ wish_of self.now patch };

    /// The version of the wishes.
    fn version(&self) -> u64
        ensures { result ≡ version_of self.now };
}

/// Writes the wish of each patch.
pub fn copy_wishes<W: Wishes>(kept: &mut [u64], wishes: &W)
    requires few { length kept.old ≤ 65536 }
    requires patches { length kept.old ≤ W.patches wishes.now }
    ensures { kept.new ≡ map (W.wish_of wishes.now) (range_with_len 0 (length kept.old)) }
{
    for patch in 0..kept.len() {
        kept[patch] = wishes.wish(patch as u32);
    }
}
