//! Chains of edges.

ghost use Rattle.std.specs.Prelude.{◌≡◌, false, ◌+◌, ◌*◌, ◌<◌, ◌≤◌, ◌^◌, ◌↔◌, List, [], ◌∷◌, ◌++◌, length, OnOk, OnErr, IfSome, None, IsTrue};
ghost use Rattle.std.specs.Map.{keys_of};
ghost use Rattle.grid_vertex.specs.declared.triangles.Triangle.{Triangle};
ghost use Rattle.grid_vertex.specs.Triangles.{is_flat_triangle};
ghost use Rattle.mesh_model.specs.Nets.{AreOpen, HaveOneNet};
ghost use Rattle.edge_chain.specs.Borders.{AreBorder, AddsEdges};
ghost use Rattle.edge_chain.specs.Chains.{HoldSame, Adds, IsNetOf, IsFirstDifference, IsFirstNetDifference};

use crate::counts::count_open;
use crate::differences::Difference;
use crate::edges::BorderEdge;
use crate::gathers::gather_sums;
use crate::scans::find_difference;
use crate::sums::{Sum, push_edges};
use grid_vertex::{NoMemory, Triangle};
use std::alloc::Global;
use std::marker::Model;

#[cfg(test)]
mod tests;

/// The sums of the edges of triangles, with sign, and the number of triangles.
///
/// A pair of points, the lesser one first, has the number of edges from it to the other less the
/// number of edges back; pairs with 0 don't count.
#[derive(Drop)]
pub struct EdgeChain {
    // Gathered sums, then what was added since: an edge may stand there more than once.
    sums: Vec<Sum>,
    // How many sums the last gathering left.
    settled: usize,
    // Whether nothing was added since then.
    gathered: bool,
    triangles: u64,
}

impl Model for EdgeChain {
    ghost use Rattle.edge_chain.specs.Chains.{Chain};
    ghost use Rattle.edge_chain.specs.Sums.{chain_of, AreSums};

    ghost Value = { Chain };

    ghost view = { λ c. chain_of c.sums.items c.triangles };

    ghost invariant = { λ c. AreSums c.sums.items c.gathered c.triangles };
}

impl EdgeChain {
    /// The chain of no triangle. It takes no memory.
    pub fn new(alloc: Global) -> EdgeChain
        ensures entries { result.entries ≡ [] }
        ensures count { result.count ≡ 0 }
        ensures nets { IsNetOf [] result }
    {
        EdgeChain {
            sums: Vec::new(alloc),
            settled: 0,
            gathered: true,
            triangles: 0,
        }
    }

    /// Adds a triangle's three edges. On want of memory the chain is as before. Condition: the
    /// triangle isn't flat, and there are fewer than 2^60 triangles.
    pub fn add(&mut self, triangle: Triangle) -> Result<(), NoMemory>
        requires area { is_flat_triangle triangle ≡ false }
        requires room { self.old.count < 2 ^ 60 }
        ensures added { OnOk result (Adds triangle self.old self.new) }
        ensures nets { OnOk result
            ((triangles : List Triangle) → IsNetOf triangles self.old
            → IsNetOf (triangles ++ triangle ∷ []) self.new) }
        ensures unchanged { OnErr result (self.new ≡ self.old) }
    {
        self.add_edges(&BorderEdge::sides(triangle), 1)
    }

    /// Adds edges that are the border of so many triangles. An edge from a point to itself adds
    /// nothing. On want of memory the chain is as before. Condition: there are at most three edges
    /// a triangle, and at most 2^60 triangles in all.
    pub fn add_edges(&mut self, edges: &[BorderEdge], triangles: u64) -> Result<(), NoMemory>
        requires room { self.old.count + triangles ≤ 2 ^ 60 }
        requires few { length edges.now ≤ 3 * triangles }
        ensures added { OnOk result (AddsEdges edges.now triangles self.old self.new) }
        ensures nets { OnOk result
            ((before more : List Triangle) → IsNetOf before self.old → AreBorder edges.now more
            → length more ≡ triangles → IsNetOf (before ++ more) self.new) }
        ensures unchanged { OnErr result (self.new ≡ self.old) }
    {
        self.gather_if_grown();
        self.sums.reserve(edges.len())?;
        push_edges(&mut self.sums, edges);
        self.gathered = false;
        self.triangles += triangles;
        Ok(())
    }

    /// Sorts the sums and joins those of one edge, which takes no memory: what is asked next needs
    /// one pass.
    pub fn gather(&mut self)
        ensures { self.new ≡ self.old }
    {
        if !self.gathered {
            gather_sums(&mut self.sums);
            self.settled = self.sums.len();
            self.gathered = true;
        }
    }

    // Gathers where the list has more than doubled: its room stays in proportion to the sums that are
    // left, and each edge is sorted a few times only.
    fn gather_if_grown(&mut self)
        ensures { self.new ≡ self.old }
    {
        if self.sums.len() / 2 > self.settled {
            self.gather();
        }
    }

    /// The number of triangles that were added.
    pub fn triangles(&self) -> u64
        ensures { result ≡ self.now.count }
    {
        self.triangles
    }

    /// The number of pairs whose edges don't cancel. It is right without `gather`, but then takes
    /// quadratic time.
    pub fn open_edges(&self) -> u64
        ensures pairs { result ≡ length self.now.entries }
        ensures nets { (triangles : List Triangle) → IsNetOf triangles self.now
            → AreOpen triangles (keys_of self.now.entries) }
    {
        count_open(&self.sums, self.gathered) as u64
    }

    /// Tells whether the sums are equal; the numbers of triangles don't count. It is right without
    /// `gather`, but then takes quadratic time.
    pub fn equals(&self, other: &EdgeChain) -> bool
        ensures entries { IsTrue result ↔ (self.now.entries ≡ other.now.entries) }
        ensures pairs { IsTrue result ↔ HoldSame self.now.entries other.now.entries }
        ensures nets { (here there : List Triangle) → IsNetOf here self.now
            → IsNetOf there other.now → IsTrue result ↔ HaveOneNet here there }
    {
        self.first_difference(other).is_none()
    }

    /// The least pair whose sums differ, or None where all are equal. It is right without `gather`
    /// of both, but then takes quadratic time.
    pub fn first_difference(&self, other: &EdgeChain) -> Option<Difference>
        ensures none { (result ≡ None) ↔ (self.now.entries ≡ other.now.entries) }
        ensures least { IfSome result (IsFirstDifference self.now.entries other.now.entries) }
        ensures one_net { (here there : List Triangle) → IsNetOf here self.now
            → IsNetOf there other.now → (result ≡ None) ↔ HaveOneNet here there }
        ensures nets { IfSome result
            (λ difference.
            (here there : List Triangle) → IsNetOf here self.now → IsNetOf there other.now
            → IsFirstNetDifference here there difference) }
    {
        find_difference(&self.sums, &other.sums, self.gathered && other.gathered)
    }
}
