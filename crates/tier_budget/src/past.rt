//! What was told, for contracts alone.

use std::snapshot::Snapshot;
use tier_model::Turn;

/// All that a tier did, as contracts see it. It keeps the last entry, and takes no more memory as entries
/// are added: what stood before is known to contracts alone.
#[derive(Drop)]
pub enum Past {
    /// Nothing.
    Start,
    /// This entry, behind all that stood before.
    After(Snapshot<Past>, Turn),
}

impl Past {
    ghost use Rattle.std.specs.Prelude.{◌≡◌, [], ◌∷◌, ◌++◌};
    ghost use Rattle.tier_budget.specs.Pasts.{told_in};

    /// Nothing.
    pub fn new() -> Past
        ensures { told_in result ≡ [] }
    {
        Past::Start
    }

    /// Adds an entry.
    pub fn push(&mut self, entry: Turn)
        ensures { told_in self.new ≡ told_in self.old ++ entry ∷ [] }
    {
        *self = Past::After(Snapshot::of(self), entry);
    }
}
