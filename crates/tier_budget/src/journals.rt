//! The journal of a tier.

use crate::past::Past;
use grid_vertex::NoMemory;
use std::alloc::Global;
use std::marker::Model;
use tier_model::Turn;

/// How a journal keeps its entries.
#[derive(Drop)]
enum Keeping {
    /// It keeps none, and has room for so many more.
    Silent(Past, u32),
    /// As a list.
    Recording(Vec<Turn>),
}

/// All that a tier did. A silent journal keeps none of its entries, so that contracts alone know them, and
/// takes no memory.
#[derive(Drop)]
pub struct Journal {
    keeping: Keeping,
}

impl Model for Journal {
    ghost use Rattle.tier_budget.specs.JournalView.{JournalSeen, journal_view};

    ghost Value = { JournalSeen };

    ghost view = { journal_view };
}

impl Journal {
    ghost use Rattle.std.specs.Prelude.{◌≡◌, ◌+◌, ◌≤◌, [], ◌∷◌, ◌++◌, true, false, IsOk, OnOk, MatchOption};

    /// A journal of no entries, which keeps those to come or doesn't.
    pub fn new(alloc: Global, records: bool) -> Journal
        ensures entries { result.entries ≡ [] }
        ensures records { result.records ≡ records }
    {
        let keeping = if records {
            Keeping::Recording(Vec::new(alloc))
        } else {
            Keeping::Silent(Past::new(), 0)
        };
        Journal { keeping }
    }

    /// Makes room for an entry. It takes no memory where the journal is silent.
    pub fn reserve_one(&mut self) -> Result<(), NoMemory>
        ensures entries { self.new.entries ≡ self.old.entries }
        ensures records { self.new.records ≡ self.old.records }
        ensures place { OnOk result (1 ≤ self.new.spare) }
        ensures silent { self.old.records ≡ false → IsOk result }
    {
        match &mut self.keeping {
            Keeping::Silent(_, places) => {
                if *places == 0 {
                    *places = 1;
                }
            }
            Keeping::Recording(entries) => entries.reserve(1)?,
        }
        Ok(())
    }

    /// Adds an entry. Condition: there is room for it.
    pub fn push_reserved(&mut self, entry: Turn)
        requires { 1 ≤ self.old.spare }
        ensures entries { self.new.entries ≡ self.old.entries ++ entry ∷ [] }
        ensures spare { self.new.spare + 1 ≡ self.old.spare }
        ensures records { self.new.records ≡ self.old.records }
    {
        match &mut self.keeping {
            Keeping::Silent(past, places) => {
                past.push(entry);
                *places -= 1;
            }
            Keeping::Recording(entries) => entries.push_reserved(entry),
        }
    }

    /// The entries, None exactly where the journal is silent.
    pub fn entries(&self) -> Option<&[Turn]>
        ensures { MatchOption result (self.now.records ≡ false)
            (λ entries. (self.now.records ≡ true) × (entries.now ≡ self.now.entries)) }
    {
        match &self.keeping {
            Keeping::Silent(_, _) => None,
            Keeping::Recording(entries) => Some(entries),
        }
    }
}
