//! The room that a chain takes, which no contract tells.

use super::*;
use grid_vertex::Point;
use std::test::Fail;

#[test]
fn cancelled_edges_take_no_room(rt: HostRuntime) -> Result<(), Fail> {
    let from = Point { x: 0, y: 0, z: 0 };
    let to = Point { x: 4, y: 0, z: 0 };
    let there = BorderEdge { from, to };
    let back = BorderEdge { from: to, to: from };
    let mut chain = EdgeChain::new(rt.alloc());
    for _ in 0..100 {
        assert!(rt; chain.triangles() < 100);
        chain.add_edges(&[there, back], 1)?;
        assert!(rt; chain.sums.len() <= 4);
    }
    chain.gather();
    assert_eq!(rt; chain.sums.len(), 0);
    Ok(())
}
