//! Points of the grid.

/// A point with whole coordinates, ordered by x, then y, then z.
#[derive(Clone, Copy, Debug, PartialEq, Eq, PartialOrd, Ord)]
pub struct Point {
    pub x: i32,
    pub y: i32,
    pub z: i32,
}

mod measures;

pub use measures::{GRID, distance_squared, in_grid};
