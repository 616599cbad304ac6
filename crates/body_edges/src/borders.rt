//! The border of a body.

ghost use Rattle.std.specs.Prelude.{◌≡◌, [], length, map, All, OnOk};
ghost use Rattle.body_edges.specs.Keys.{edge_between, IsKey};
ghost use Rattle.body_edges.specs.Borders.{IsBorderOf};

use crate::keys::{drop_opposites, from_place, push_keys, to_place};
use edge_chain::BorderEdge;
use grid_vertex::NoMemory;
use patch_body::Body;
use std::alloc::Global;
use std::marker::Model;

/// The border of a body: its triangles' edges without those that cancel. It is kept from one body to the next, so
/// that its memory serves all.
#[derive(Drop)]
pub struct Border {
    keys: Vec<u64>,
    edges: Vec<BorderEdge>,
}

impl Model for Border {
    ghost use Rattle.std.specs.Prelude.{List};
    ghost use Rattle.edge_chain.specs.declared.edges.BorderEdge.{BorderEdge};

    ghost Value = { List BorderEdge };

    ghost view = { λ b. b.edges.items };
}

/// Appends the edges of keys between the points of a body.
fn push_edges(edges: &mut Vec<BorderEdge>, keys: &[u64], body: &Body) -> Result<(), NoMemory>
    requires empty { edges.old.items ≡ [] }
    requires keys { All (IsKey (length body.now.lists.points)) keys.now }
    ensures { OnOk result
        (edges.new.items ≡ map (edge_between body.now.lists.points) keys.now) }
{
    let _points = body.point_count();
    for key in keys {
        edges.push(BorderEdge {
            from: body.point(from_place(*key)),
            to: body.point(to_place(*key)),
        })?;
    }
    Ok(())
}

impl Border {
    /// The border of no body. It takes no memory.
    pub fn new(alloc: Global) -> Border
        ensures { result ≡ [] }
    {
        Border {
            keys: Vec::new(alloc),
            edges: Vec::new(alloc),
        }
    }

    /// Finds the border of a body, in place of the one before. On want of memory part of it stands there.
    pub fn find(&mut self, body: &Body) -> Result<(), NoMemory>
        ensures { OnOk result (IsBorderOf self.new body.now.lists) }
    {
        let _patch = body.patch();
        self.keys.clear();
        self.edges.clear();
        push_keys(&mut self.keys, body)?;
        self.keys.sort_unstable();
        drop_opposites(&mut self.keys);
        push_edges(&mut self.edges, &self.keys, body)
    }

    /// The edges that are left.
    pub fn edges(&self) -> &[BorderEdge]
        ensures { result.now ≡ self.now }
    {
        &self.edges
    }
}
