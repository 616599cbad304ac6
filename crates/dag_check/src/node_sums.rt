//! What is kept of one node.

ghost use Rattle.std.specs.Prelude.{◌≡◌, ◌*◌, ◌^◌, ◌<◌, ◌≤◌, length, IfOk, OnOk};
ghost use Rattle.file_model.specs.declared.limits.TheConstants.{MOST_IN_PATCH, MOST_PATCHES};
ghost use Rattle.mesh_model.specs.Nets.{one_if};
ghost use Rattle.body_edges.specs.Borders.{IsBorderOf};
ghost use Rattle.dag_check.specs.NodeSums.{empty_node_sums, is_under_way, pairs_of, chain_on, IsGrown, settled, Compares, Takes};

use body_edges::{Border, add_border};
use edge_chain::{Difference, EdgeChain};
use grid_vertex::NoMemory;
use mesh_model::NodeSide;
use patch_file::Body;
use std::alloc::Global;

/// The sums on the two sides of an inner node, until they are compared. Of a node that isn't inner
/// nothing is kept.
#[derive(Drop)]
pub struct NodeSums {
    pub incoming: EdgeChain,
    pub outgoing: EdgeChain,
    /// How many patches an inner node has on its two sides together, and 0 for any other node.
    pub total: u32,
    /// How many of their bodies are still to come.
    pub left: u32,
}

impl NodeSums {
    /// No body was added to a node with so many patches.
    pub fn new(alloc: Global, total: u32) -> NodeSums
        ensures { result ≡ empty_node_sums total }
    {
        NodeSums {
            incoming: EdgeChain::new(alloc),
            outgoing: EdgeChain::new(alloc),
            total,
            left: total,
        }
    }

    /// 1 where some but not all of the node's bodies were added.
    pub fn open_nodes(&self) -> u32
        ensures { result ≡ one_if (is_under_way self.now) }
    {
        u32::from(0 < self.left && self.left < self.total)
    }

    /// How many pairs the two sums keep. It takes time that grows with the square of their number.
    pub fn kept_pairs(&self) -> u64
        requires { pairs_of self.now < 2 ^ 64 }
        ensures { result ≡ pairs_of self.now }
    {
        self.incoming.open_edges() + self.outgoing.open_edges()
    }

    /// Adds a body on one side. After the node's last body its sums are compared and dropped, and the
    /// answer is where they differ.
    pub fn take(
        &mut self,
        alloc: Global,
        side: NodeSide,
        border: &Border,
        body: &Body,
    ) -> Result<Option<Difference>, NoMemory>
        requires border { IsBorderOf border.now body.now.lists }
        requires room { (chain_on side self.old).count ≤ MOST_IN_PATCH * MOST_PATCHES }
        requires left { 0 < self.old.total → 0 < self.old.left }
        ensures { IfOk result (Takes side body.now.lists self.old self.new) }
    {
        if self.total == 0 {
            return Ok(None);
        }
        self.grow(side, border, body)?;
        if self.left > 0 {
            return Ok(None);
        }
        Ok(self.settle(alloc))
    }

    // Adds a body to the sum on one side.
    fn grow(&mut self, side: NodeSide, border: &Border, body: &Body) -> Result<(), NoMemory>
        requires border { IsBorderOf border.now body.now.lists }
        requires room { (chain_on side self.old).count ≤ MOST_IN_PATCH * MOST_PATCHES }
        requires left { 0 < self.old.left }
        ensures { OnOk result (IsGrown side body.now.lists self.old self.new) }
    {
        self.left -= 1;
        match side {
            NodeSide::Incoming => add_border(&mut self.incoming, border, body),
            NodeSide::Outgoing => add_border(&mut self.outgoing, border, body),
        }
    }

    // Compares the two sums, and drops them.
    fn settle(&mut self, alloc: Global) -> Option<Difference>
        ensures dropped { self.new ≡ settled self.old }
        ensures compared { Compares self.old result }
    {
        self.incoming.gather();
        self.outgoing.gather();
        let difference = self.incoming.first_difference(&self.outgoing);
        self.incoming = EdgeChain::new(alloc);
        self.outgoing = EdgeChain::new(alloc);
        difference
    }
}
