//! Picking by a ray: the triangle of a frame that a ray meets first.
//!
//! `docs/MODEL.md` says where a ray meets a triangle.
#![tactic(auto)]

ghost use Rattle.std.specs.Prelude.{◌≡◌, ℕ, List, ℤ, Option};
ghost use Rattle.grid_vertex.specs.declared.triangles.Triangle.{Triangle};
ghost use Rattle.file_model.specs.Lists.{SeenBody};
ghost use Rattle.ray_pick.specs.declared.picks.Hit.{Hit};
ghost use Rattle.ray_pick.specs.Rays.{RaySeen, IsHitAt};
ghost use Rattle.ray_pick.specs.Picks.{IsPicked};

mod crossings;
mod picks;
mod rays;
#[cfg(test)]
mod tests;
mod vectors;

pub use crossings::hit_triangle;
pub use picks::{Hit, pick};
pub use rays::{DIRECTION_REACH, ORIGIN_REACH, Ray};

/// A triangle is hit at one fraction.
pub fn a_triangle_is_hit_once()
    ensures above { (ray : RaySeen) (t : Triangle) (a b c d : ℤ)
        → IsHitAt ray t a b → IsHitAt ray t c d → a ≡ c }
    ensures below { (ray : RaySeen) (t : Triangle) (a b c d : ℤ)
        → IsHitAt ray t a b → IsHitAt ray t c d → b ≡ d }
{}

/// A ray has one pick of a frame's triangles.
pub fn a_ray_has_one_pick()
    ensures { (ray : RaySeen) (patches : List ℕ) (bodies : List SeenBody) (p q : Option Hit)
        → IsPicked ray patches bodies p → IsPicked ray patches bodies q → p ≡ q }
{}
