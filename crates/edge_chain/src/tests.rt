//! A square of two triangles, and of four round its middle.

use super::*;
use grid_vertex::{NoMemory, Point, Triangle};
use std::alloc::Global;
use std::process::Abort;
use std::test::Fail;

const CORNERS: [Point; 4] = [
    Point { x: 0, y: 0, z: 0 },
    Point { x: 4, y: 0, z: 0 },
    Point { x: 4, y: 4, z: 0 },
    Point { x: 0, y: 4, z: 0 },
];

const MIDDLE: Point = Point { x: 2, y: 2, z: 0 };

fn triangle(a: Point, b: Point, c: Point) -> Triangle {
    Triangle { a, b, c }
}

fn chain(rt: &impl Abort, alloc: Global, triangles: &[Triangle]) -> Result<EdgeChain, NoMemory> {
    let mut chain = EdgeChain::new(alloc);
    for triangle in triangles {
        assert!(rt; !triangle.is_flat());
        assert!(rt; chain.triangles() < 4);
        chain.add(*triangle)?;
    }
    Ok(chain)
}

#[test]
fn border_of_a_square(rt: HostRuntime) -> Result<(), Fail> {
    let [sw, se, ne, nw] = CORNERS;
    let halves = [triangle(sw, se, ne), triangle(sw, ne, nw)];
    let round = [
        triangle(sw, se, MIDDLE),
        triangle(se, ne, MIDDLE),
        triangle(ne, nw, MIDDLE),
        triangle(nw, sw, MIDDLE),
    ];
    let turned = [
        triangle(se, sw, MIDDLE),
        triangle(ne, se, MIDDLE),
        triangle(nw, ne, MIDDLE),
        triangle(sw, nw, MIDDLE),
    ];
    let halves = chain(&rt, rt.alloc(), &halves)?;
    let round = chain(&rt, rt.alloc(), &round)?;
    let turned = chain(&rt, rt.alloc(), &turned)?;
    assert_eq!(rt; halves.triangles(), 2);
    assert_eq!(rt; halves.open_edges(), 4);
    assert!(rt; halves.equals(&round));
    assert_eq!(rt; halves.first_difference(&round), None);
    let difference = Difference {
        a: sw,
        b: nw,
        here: -1,
        there: 1,
    };
    assert!(rt; !halves.equals(&turned));
    assert_eq!(rt; halves.first_difference(&turned), Some(difference));
    Ok(())
}

#[test]
fn edges_that_cancel(rt: HostRuntime) -> Result<(), Fail> {
    let [sw, se, ne, _] = CORNERS;
    let there = BorderEdge { from: sw, to: se };
    let back = BorderEdge { from: se, to: sw };
    let onward = BorderEdge { from: se, to: ne };
    let still = BorderEdge { from: ne, to: ne };
    let mut chain = EdgeChain::new(rt.alloc());
    chain.add_edges(&[onward, there, there], 1)?;
    chain.gather();
    assert_eq!(rt; chain.open_edges(), 2);
    assert!(rt; chain.triangles() < 4);
    chain.add_edges(&[back, still], 1)?;
    let none = EdgeChain::new(rt.alloc());
    let left = Difference {
        a: sw,
        b: se,
        here: 1,
        there: 0,
    };
    assert_eq!(rt; chain.open_edges(), 2);
    assert_eq!(rt; chain.first_difference(&none), Some(left));
    chain.gather();
    assert_eq!(rt; chain.open_edges(), 2);
    assert_eq!(rt; chain.first_difference(&none), Some(left));
    assert!(rt; chain.triangles() < 4);
    chain.add_edges(&[back], 1)?;
    assert_eq!(rt; chain.open_edges(), 1);
    assert_eq!(rt; chain.triangles(), 3);
    Ok(())
}
