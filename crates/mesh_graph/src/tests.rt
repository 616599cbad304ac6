//! Small graphs with each verdict.

ghost use Rattle.std.specs.Prelude.{◌≡◌, length, IsTrue};
ghost use Rattle.std.specs.List.{list_all};
ghost use Rattle.file_model.specs.Rules.{is_node, is_field, is_node_count, is_patch_count};

use super::*;
use file_model::{Node, PatchField};
use grid_vertex::{Ball, NoMemory, Point};
use mesh_model::DagFault;
use std::alloc::Global;
use std::test::Fail;

const TOP: Node = Node {
    ball: Ball {
        centre: Point { x: 2, y: 2, z: 0 },
        radius: 8,
    },
    error: 100,
};

const INNER: Node = Node {
    ball: Ball {
        centre: Point { x: 2, y: 2, z: 0 },
        radius: 4,
    },
    error: 10,
};

const SINK: Node = Node {
    ball: Ball {
        centre: Point { x: 0, y: 0, z: 0 },
        radius: 0,
    },
    error: 0,
};

fn arc(tail: u32, head: u32) -> PatchField
    ensures { result ≡ record { tail = tail; head = head; points = 1; triangles = 1 } }
{
    PatchField {
        tail,
        head,
        points: 1,
        triangles: 1,
    }
}

fn verdict(
    alloc: Global,
    nodes: &[Node],
    fields: &[PatchField],
) -> Result<Result<u32, DagFault>, NoMemory>
    requires node_count { IsTrue (is_node_count (length nodes.now)) }
    requires patch_count { IsTrue (is_patch_count (length fields.now)) }
    requires nodes { IsTrue (list_all is_node nodes.now) }
    requires fields { IsTrue (list_all (is_field (length nodes.now)) fields.now) }
{
    Ok(MeshGraph::of(alloc, nodes, fields)?.verdict())
}

#[test]
fn three_nodes_in_a_row(rt: HostRuntime) -> Result<(), Fail> {
    let graph = MeshGraph::of(rt.alloc(), &[TOP, INNER, SINK], &[arc(0, 1), arc(1, 2)])?;
    assert!(rt; graph.node_count() == 3);
    assert!(rt; graph.level(2) == Some(2));
    assert!(rt; graph.verdict() == Ok(0));
    Ok(())
}

#[test]
fn cycle_behind_the_root(rt: HostRuntime) -> Result<(), Fail> {
    let verdict = verdict(
        rt.alloc(),
        &[TOP, INNER, SINK],
        &[arc(0, 1), arc(1, 2), arc(2, 1)],
    )?;
    assert!(rt; verdict == Err(DagFault::Cycle(1)));
    Ok(())
}

#[test]
fn ball_that_is_too_large(rt: HostRuntime) -> Result<(), Fail> {
    let mut inner = INNER;
    inner.ball.radius = 9;
    let verdict = verdict(rt.alloc(), &[TOP, inner, SINK], &[arc(0, 1), arc(1, 2)])?;
    assert!(rt; verdict == Err(DagFault::BallNotNested(0)));
    Ok(())
}
