//! The borders of a square, of two triangles with an edge that both pass the same way, and of three with it back.

use super::*;
use edge_chain::{BorderEdge, EdgeChain};
use grid_vertex::Point;
use patch_body::Body;
use std::test::Fail;

const CORNERS: [Point; 4] = [
    Point { x: 0, y: 0, z: 0 },
    Point { x: 4, y: 0, z: 0 },
    Point { x: 4, y: 4, z: 0 },
    Point { x: 0, y: 4, z: 0 },
];

fn edge(from: Point, to: Point) -> BorderEdge {
    BorderEdge { from, to }
}

#[test]
#[tactic(auto, unfolding(file_model::specs::Rules::is_body, file_model::specs::Lists::triangle_of, file_model::specs::Lists::point_at_place, grid_vertex::specs::Triangles::is_flat_triangle))]
fn borders_of_bodies(rt: HostRuntime) -> Result<(), Fail> {
    let alloc = rt.alloc();
    let [sw, se, ne, nw] = CORNERS;
    let mut border = Border::new(alloc);
    assert!(rt; border.edges().is_empty());

    let square = Body::from_lists(alloc, 0, &CORNERS, &[[0, 1, 2], [0, 2, 3]])?;
    border.find(&square)?;
    let round = [edge(sw, se), edge(nw, sw), edge(se, ne), edge(ne, nw)];
    assert_eq!(rt; border.edges(), round.as_slice());

    let twice = Body::from_lists(alloc, 1, &CORNERS, &[[0, 1, 2], [0, 1, 3]])?;
    border.find(&twice)?;
    let both = [
        edge(sw, se),
        edge(sw, se),
        edge(ne, sw),
        edge(nw, sw),
        edge(se, ne),
        edge(se, nw),
    ];
    assert_eq!(rt; border.edges(), both.as_slice());

    let back = Body::from_lists(alloc, 2, &CORNERS, &[[0, 1, 2], [1, 0, 3], [0, 1, 3]])?;
    border.find(&back)?;
    let one = [edge(sw, se), edge(ne, sw), edge(se, ne)];
    assert_eq!(rt; border.edges(), one.as_slice());
    Ok(())
}

#[test]
#[tactic(auto, unfolding(file_model::specs::Rules::is_body, file_model::specs::Lists::triangle_of, file_model::specs::Lists::point_at_place, grid_vertex::specs::Triangles::is_flat_triangle))]
fn border_as_the_triangles(rt: HostRuntime) -> Result<(), Fail> {
    let alloc = rt.alloc();
    let square = Body::from_lists(alloc, 0, &CORNERS, &[[0, 1, 2], [0, 2, 3]])?;
    let mut border = Border::new(alloc);
    let mut by_border = EdgeChain::new(alloc);
    add_body(&mut by_border, &mut border, &square)?;
    let mut by_triangles = EdgeChain::new(alloc);
    by_triangles.add(square.triangle(0))?;
    by_triangles.add(square.triangle(1))?;
    assert_eq!(rt; (by_border.open_edges(), by_border.triangles()), (4, 2));
    assert!(rt; by_border.equals(&by_triangles));
    Ok(())
}
