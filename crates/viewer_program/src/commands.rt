//! The commands that the program's words name.

use ray_pick::Ray;
use round_model::View;
use view_planes::{HalfSpace, Planes};

/// What the words ask for.
#[derive(Drop)]
pub enum FileCommand {
    /// The frame of the root's patches.
    Base,
    /// The line of an accepted file.
    Check,
    /// The frame of the view where every try is granted.
    Full(View),
    /// The file in a version.
    Convert(u16),
    /// The same frame as of a view, without what is behind a half-space.
    Cull(Planes),
    /// On which side of a half-space each node lies.
    Sides(HalfSpace),
    /// The triangle of a view's full frame that a ray meets first.
    Pick(View, Ray),
}

mod reading;
mod spelt;

pub use reading::{command_of, file_name};
