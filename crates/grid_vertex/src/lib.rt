//! Points, balls and triangles with whole coordinates, and the integer square root.
//!
//! All coordinates are in the units of the patch file. `docs/MODEL.md` says what each rule is for.
#![tactic(auto)]

mod balls;
mod memory;
mod points;
mod roots;
mod triangles;

pub use balls::{Ball, contains};
pub use memory::NoMemory;
pub use points::{GRID, Point, distance_squared, in_grid};
pub use roots::isqrt;
pub use triangles::Triangle;

#[cfg(test)]
mod tests {
    use super::*;

    #[test]
    fn roots_and_balls(rt: HostRuntime) {
        // The distance from the farthest eye to the farthest centre.
        assert_eq!(rt; isqrt(29_686_813_949_952), 5_448_560);
        let outer = Ball {
            centre: Point { x: 0, y: 0, z: 0 },
            radius: 5,
        };
        let inner = Ball {
            centre: Point { x: 4, y: 0, z: 0 },
            radius: 2,
        };
        assert!(rt; !contains(&outer, &inner));
        let touching = Ball {
            centre: Point { x: 3, y: 0, z: 0 },
            radius: 2,
        };
        assert!(rt; contains(&outer, &touching));
    }
}
