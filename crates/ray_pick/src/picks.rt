//! The triangle of a frame that a ray meets first.

ghost use Rattle.std.specs.Prelude.{◌≡◌, ℕ, ◌+◌, ◌*◌, ◌<◌, ◌≤◌, List, length, map, take, unsigned_abs};
ghost use Rattle.std.specs.Arc.{arc_value};
ghost use Rattle.file_model.specs.Lists.{SeenBody, triangles_of};
ghost use Rattle.ray_pick.specs.Rays.{IsSmall};
ghost use Rattle.ray_pick.specs.Picks.{AreBodiesOf, IsPickOf, IsPicked, crosswise, triangles_in};
ghost use Rattle.ray_pick.specs.Walks.{is_nearer, nearer_of, IsSmallHit, IsSmallPick, StandsAt};

use crate::crossings::hit_triangle;
use crate::rays::Ray;
use patch_body::Body;
use std::sync::Arc;

/// The triangle of a frame that a ray meets first, and where: `above / below` of its direction past its
/// origin.
#[derive(Clone, Copy, Debug, PartialEq, Eq)]
pub struct Hit {
    /// Which of the frame's triangles it is, counted from 0.
    pub place: u64,
    pub patch: u32,
    /// Which of the patch's triangles it is, counted from 0.
    pub triangle: u32,
    pub above: i128,
    pub below: i128,
}

// A fraction's number above times another's below, none of which is less than 0.
fn crosswise(above: i128, below: i128) -> u128
    requires above { unsigned_abs above ≤ 442721857769029238784 }
    requires below { unsigned_abs below ≤ 108086391056891904 }
    ensures { result ≡ crosswise above below }
{
    above.unsigned_abs() * below.unsigned_abs()
}

// Whether the hit is at a lesser fraction than the best.
fn is_nearer(hit: &Hit, best: &Hit) -> bool
    requires hit { IsSmallHit hit.now }
    requires best { IsSmallHit best.now }
    ensures { result ≡ is_nearer hit.now best.now }
{
    crosswise(hit.above, best.below) < crosswise(best.above, hit.below)
}

// The nearer of the best hit and a later one, and of two at one distance the best.
fn nearer(best: Option<Hit>, hit: Hit) -> Option<Hit>
    requires best { IsSmallPick best }
    requires hit { IsSmallHit hit }
    ensures nearer { result ≡ nearer_of best hit }
    ensures small { IsSmallPick result }
{
    match best {
        Some(before) => {
            if is_nearer(&hit, &before) {
                Some(hit)
            } else {
                Some(before)
            }
        }
        None => Some(hit),
    }
}

// The best hit, once a triangle of a patch's body was tried, which stands at the place among all.
fn try_triangle(
    ray: &Ray,
    best: Option<Hit>,
    place: u64,
    patch: u32,
    body: &Body,
    triangle: u32,
) -> Option<Hit>
    requires there { triangle < length body.now.lists.corners }
    requires small { IsSmallPick best }
    ensures small { IsSmallPick result }
    ensures pick { (patches : List ℕ) (bodies : List SeenBody) (index : ℕ)
        → StandsAt patches bodies index patch body.now
        → place ≡ length (triangles_in (take index bodies)) + triangle
        → IsPickOf ray.now patches bodies place best
        → IsPickOf ray.now patches bodies (place + 1) result }
{
    match hit_triangle(ray, body.triangle(triangle)) {
        Some((above, below)) => nearer(
            best,
            Hit {
                place,
                patch,
                triangle,
                above,
                below,
            },
        ),
        None => best,
    }
}

// The best hit, once the triangles of a patch's body were tried, the first of which stands at the place
// `start` among all.
fn try_body(ray: &Ray, best: Option<Hit>, start: u64, patch: u32, body: &Body) -> Option<Hit>
    requires room { start ≤ 281470681677825 }
    requires small { IsSmallPick best }
    ensures small { IsSmallPick result }
    ensures pick { (patches : List ℕ) (bodies : List SeenBody) (index : ℕ)
        → StandsAt patches bodies index patch body.now
        → start ≡ length (triangles_in (take index bodies))
        → IsPickOf ray.now patches bodies start best
        → IsPickOf ray.now patches bodies (start + length (triangles_of body.now.lists)) result }
{
    let mut best = best;
    for triangle in 0..body.triangle_count() {
        let place = start + u64::from(triangle);
        best = try_triangle(ray, best, place, patch, body, triangle);
    }
    best
}

/// The first triangle of the bodies that the ray meets, and of several at one distance the one of the least
/// place. None exactly where none is hit. Conditions: there are at most 65,536 patches, and the bodies are
/// those of the patches, in order. Takes no memory.
pub fn pick(ray: &Ray, patches: &[u32], bodies: &[Arc<Body>]) -> Option<Hit>
    requires count { length patches.now ≤ 65536 }
    requires bodies { AreBodiesOf patches.now (map arc_value bodies.now) }
    ensures picked { IsPicked ray.now patches.now (map arc_value bodies.now) result }
{
    let mut best = None;
    let mut place = 0;
    for (index, body) in bodies.iter().enumerate() {
        best = try_body(ray, best, place, patches[index], body);
        place += u64::from(body.triangle_count());
    }
    best
}
