//! The ranges of a half-space, balls that touch its plane, and a seventh half-space.

use crate::{HalfSpace, Planes, Side};
use grid_vertex::{Ball, Point};
use round_model::View;
use std::test::Fail;

#[test]
fn a_half_space_keeps_its_ranges(rt: HostRuntime) {
    for (a, b, c, d) in [
        (0, 0, 0, 0),
        (1_025, 0, 0, 0),
        (-1_025, 0, 0, 0),
        (0, 1_025, 0, 0),
        (0, -1_025, 0, 0),
        (0, 0, 1_025, 0),
        (0, 0, -1_025, 0),
        (i32::MIN, 0, 0, 0),
        (1, 0, 0, 8_589_934_593),
        (1, 0, 0, -8_589_934_593),
        (1, 0, 0, i64::MIN),
    ] {
        assert!(rt; HalfSpace::new(a, b, c, d).is_none());
    }
    assert!(rt; HalfSpace::new(1_024, 1_024, 1_024, 8_589_934_592).is_some());
    assert!(rt; HalfSpace::new(-1_024, -1_024, -1_024, -8_589_934_592).is_some());
}

#[test]
fn balls_beside_a_plane(rt: HostRuntime) -> Result<(), Fail> {
    let Some(plane) = HalfSpace::new(1, 0, 0, 10) else {
        return Err(Fail::from("no half-space"));
    };
    let centre = Point { x: 13, y: 0, z: 0 };
    let mut ball = Ball { centre, radius: 3 };
    assert_eq!(rt; plane.side(&ball), Side::Front);
    ball.centre.x = 12;
    assert_eq!(rt; plane.side(&ball), Side::Across);
    ball.centre.x = 7;
    assert_eq!(rt; plane.side(&ball), Side::Across);
    ball.centre.x = 6;
    assert_eq!(rt; plane.side(&ball), Side::Behind);
    ball.radius = 4;
    assert_eq!(rt; plane.side(&ball), Side::Across);
    Ok(())
}

#[test]
fn a_seventh_half_space_is_refused(rt: HostRuntime) -> Result<(), Fail> {
    let eye = Point { x: 4, y: 2, z: 107 };
    let (Some(view), Some(plane)) = (View::new(eye, 100, 10, 7), HalfSpace::new(1, 0, 0, 10)) else {
        return Err(Fail::from("no view or half-space"));
    };
    let mut planes = Planes::new(view);
    for _ in 0..6 {
        assert!(rt; planes.add(plane));
    }
    assert!(rt; !planes.add(plane));
    assert_eq!(rt; planes.view().limit(), 7);
    Ok(())
}
