//! Errors and balls, nested along each patch.

ghost use Rattle.std.specs.Prelude.{◌≡◌, ℕ, ◌<◌, ◌≤◌, List, length, slice_get, MatchOption};
ghost use Rattle.file_model.specs.declared.limits.TheConstants.{MOST_PATCHES};
ghost use Rattle.file_model.specs.declared.fields.PatchField.{PatchField};
ghost use Rattle.grid_vertex.specs.Points.{IsNearGrid};
ghost use Rattle.mesh_model.specs.Accepted.{nested_by, AllNested, IsLeastUnnested};
ghost use Rattle.mesh_model.specs.declared.sides.NodeSide.TheVariants.{Incoming, Outgoing};
ghost use Rattle.mesh_graph.specs.Chains.{HaveNodes};
ghost use Rattle.mesh_graph.specs.Adjacency.{IsAdjacency};
ghost use Rattle.mesh_graph.specs.Graphs.{index_of};
ghost use Rattle.mesh_graph.specs.Nesting.{rule_of, AreNearGrid};

use crate::arcs::Adjacency;
use file_model::{Node, PatchField};
use grid_vertex::contains;

/// What is nested.
#[derive(Clone, Copy)]
pub enum Nesting {
    Errors,
    Balls,
}

/// Tells whether what the head has is nested in what the tail has.
fn keeps_rule(nesting: Nesting, tail: &Node, head: &Node) -> bool
    requires tail { IsNearGrid tail.now.ball.centre }
    requires head { IsNearGrid head.now.ball.centre }
    ensures { result ≡ rule_of nesting tail.now head.now }
{
    match nesting {
        Nesting::Errors => head.error <= tail.error,
        Nesting::Balls => contains(&tail.ball, &head.ball),
    }
}

/// Tells whether the patch keeps the rule, or leads to a sink.
fn is_nested(nesting: Nesting, outgoing: &Adjacency, nodes: &[Node], field: &PatchField) -> bool
    requires tail { field.now.tail < length nodes.now }
    requires head { field.now.head < length nodes.now }
    requires near { AreNearGrid nodes.now }
    requires as_many { length outgoing.now ≡ length nodes.now }
    ensures { (fields : List PatchField)
        → IsAdjacency Outgoing fields (length nodes.now) outgoing.now
        → result
        ≡ nested_by (rule_of nesting) fields (slice_get nodes.now field.now.tail)
        (slice_get nodes.now field.now.head) field.now.head }
{
    if outgoing.is_bare(field.head) {
        return true;
    }
    keeps_rule(
        nesting,
        &nodes[field.tail as usize],
        &nodes[field.head as usize],
    )
}

/// The least patch that breaks the rule and doesn't lead to a sink.
pub fn first_unnested(
    nesting: Nesting,
    outgoing: &Adjacency,
    nodes: &[Node],
    fields: &[PatchField],
) -> Option<u32>
    requires arcs { IsAdjacency Outgoing fields.now (length nodes.now) outgoing.now }
    requires tails { HaveNodes Outgoing (length nodes.now) fields.now }
    requires heads { HaveNodes Incoming (length nodes.now) fields.now }
    requires near { AreNearGrid nodes.now }
    requires count { length fields.now ≤ MOST_PATCHES }
    ensures { (version : ℕ)
        → MatchOption result (AllNested (rule_of nesting) (index_of version nodes.now fields.now))
        (IsLeastUnnested (rule_of nesting) (index_of version nodes.now fields.now)) }
{
    for (patch, field) in fields.iter().enumerate() {
        if !is_nested(nesting, outgoing, nodes, field) {
            return Some(patch as u32);
        }
    }
    None
}
