//! Marks of patches.

ghost use Rattle.std.specs.Prelude.{◌≡◌, ◌<◌, [], true, false, length, replicate, slice_set, IfOk};
ghost use Rattle.tier_model.specs.Places.{is_marked};
ghost use Rattle.tier_budget.specs.Marked.{AreListed};

use grid_vertex::NoMemory;
use std::alloc::Global;
use std::marker::Model;

/// A mark for each patch, set or not. To clear all takes a time that grows with how many are set.
#[derive(Drop)]
pub struct Marks {
    marks: Vec<bool>,
    listed: Vec<u32>,
}

impl Model for Marks {
    ghost use Rattle.std.specs.Prelude.{List, Bool};

    ghost Value = { List Bool };

    ghost use Rattle.tier_budget.specs.MarksView.{marks_view, AreMarksInside};

    ghost view = { marks_view };

    ghost invariant = { AreMarksInside };
}

/// Whether the patch is marked.
pub fn has_mark(marks: &[bool], patch: u32) -> bool
    requires { patch < length marks.now }
    ensures { result ≡ is_marked marks.now patch }
{
    marks[patch as usize]
}

/// Takes the mark of each listed patch.
fn unmark(marks: &mut [bool], listed: &[u32])
    requires { AreListed marks.old listed.now }
    ensures { marks.new ≡ replicate (length marks.old) false }
{
    for patch in listed {
        marks[*patch as usize] = false;
    }
}

impl Marks {
    /// Marks of no patches.
    pub fn new(alloc: Global) -> Marks
        ensures { result ≡ [] }
    {
        Marks {
            marks: Vec::new(alloc),
            listed: Vec::new(alloc),
        }
    }

    /// Marks of so many patches, none set. No other call takes memory.
    pub fn with_patches(alloc: Global, patches: u32) -> Result<Marks, NoMemory>
        ensures { IfOk result (λ marks. marks ≡ replicate patches false) }
    {
        Ok(Marks {
            marks: vec![in alloc; false; patches as usize]?,
            listed: Vec::with_capacity(alloc, patches as usize)?,
        })
    }

    /// Whether the patch is marked.
    pub fn has(&self, patch: u32) -> bool
        requires { patch < length self.now }
        ensures { result ≡ is_marked self.now patch }
    {
        self.marks[patch as usize]
    }

    /// The marked patches.
    pub fn listed(&self) -> &[u32]
        ensures { AreListed self.now result.now }
    {
        &self.listed
    }

    /// Marks the patch.
    pub fn mark(&mut self, patch: u32)
        requires { patch < length self.old }
        ensures { self.new ≡ slice_set self.old patch true }
    {
        if self.marks[patch as usize] {
            return;
        }
        self.marks[patch as usize] = true;
        self.listed.push_reserved(patch);
    }

    /// No patch is marked any more.
    pub fn clear(&mut self)
        ensures { self.new ≡ replicate (length self.old) false }
    {
        unmark(&mut self.marks, &self.listed);
        self.listed.clear();
    }
}
