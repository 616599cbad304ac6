//! The two bodies of the sample file, in both versions.

use crate::Body;
use grid_vertex::{Point, Triangle};
use std::test::Fail;

#[test]
#[tactic(auto, unfolding(file_model::specs::Rules::is_body, file_model::specs::Lists::triangle_of, file_model::specs::Lists::point_at_place, grid_vertex::specs::Triangles::is_flat_triangle, file_model::specs::Spelling::origin_of))]
fn square(rt: HostRuntime) -> Result<(), Fail> {
    let points = [
        Point { x: 0, y: 0, z: 0 },
        Point { x: 4, y: 0, z: 0 },
        Point { x: 4, y: 4, z: 0 },
        Point { x: 0, y: 4, z: 0 },
    ];
    let corners = [[0, 1, 2], [0, 2, 3]];
    let body = Body::from_lists(rt.alloc(), 0, &points, &corners)?;
    assert_eq!(rt;
        body.bytes(),
        b"\0\0\0\0\0\0\0\0\0\0\0\0\x04\0\0\0\0\0\0\0\0\0\0\0\x04\0\0\0\x04\0\0\0\0\0\0\0\0\0\0\0\x04\0\0\0\0\0\0\0\0\0\x01\0\x02\0\0\0\x02\0\x03\0".as_slice()
    );
    let body = Body::from_lists_2(rt.alloc(), 0, &points, &corners)?;
    assert_eq!(rt;
        body.bytes(),
        b"\0\0\0\0\0\0\0\0\0\0\0\0\0\0\0\0\0\0\x04\0\0\0\0\0\x04\0\x04\0\0\0\0\0\x04\0\0\0\0\0\x01\0\x02\0\0\0\x02\0\x03\0".as_slice()
    );
    Ok(())
}

#[test]
#[tactic(auto, unfolding(file_model::specs::Rules::is_body, file_model::specs::Lists::triangle_of, file_model::specs::Lists::point_at_place, grid_vertex::specs::Triangles::is_flat_triangle, file_model::specs::Spelling::origin_of))]
fn fan(rt: HostRuntime) -> Result<(), Fail> {
    let points = [
        Point { x: 0, y: 0, z: 0 },
        Point { x: 4, y: 0, z: 0 },
        Point { x: 4, y: 4, z: 0 },
        Point { x: 0, y: 4, z: 0 },
        Point { x: 2, y: 2, z: 0 },
    ];
    let corners = [[0, 1, 4], [1, 2, 4], [2, 3, 4], [3, 0, 4]];
    let body = Body::from_lists(rt.alloc(), 1, &points, &corners)?;
    assert_eq!(rt; body.size(), 84);
    let body = Body::from_lists_2(rt.alloc(), 1, &points, &corners)?;
    assert_eq!(rt; body.size(), 66);
    assert_eq!(rt; (body.patch(), body.version()), (1, 2));
    assert_eq!(rt; (body.point_count(), body.triangle_count()), (5, 4));
    assert_eq!(rt; body.point(4), Point { x: 2, y: 2, z: 0 });
    assert_eq!(rt; body.corners(3), [3, 0, 4]);
    assert_eq!(rt;
        body.triangle(3),
        Triangle {
            a: points[3],
            b: points[0],
            c: points[4]
        }
    );
    Ok(())
}
