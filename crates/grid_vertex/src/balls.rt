//! Balls with a whole centre and radius.

use crate::points::Point;

/// The ball round `centre`.
#[derive(Clone, Copy, Debug, PartialEq, Eq)]
pub struct Ball {
    pub centre: Point,
    pub radius: u32,
}

mod nested;

pub use nested::contains;
