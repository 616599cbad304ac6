//! The bodies of the strip.
#![tactic(auto, unfolding(file_model::specs::Rules::is_body, file_model::specs::Lists::triangle_of, file_model::specs::Lists::point_at_place, grid_vertex::specs::Triangles::is_flat_triangle))]

ghost use Rattle.std.specs.Prelude.{◌≡◌, ◌⊎◌, pos, length, IsTrue, IfOk};
ghost use Rattle.file_model.specs.Rules.{is_body};

use super::*;

/// A point with z 0.
pub(super) fn point(x: i32, y: i32) -> Point
    ensures { result ≡ record { x = x; y = y; z = pos 0 } }
{
    Point { x, y, z: 0 }
}

/// The square of the column that begins at x.
pub(super) fn square(alloc: Global, patch: u32, x: i32) -> Result<Body, NoMemory>
    requires { (x ≡ pos 0) ⊎ (x ≡ pos 4) }
    ensures version { IfOk result (λ body. body.version ≡ 1) }
    ensures rules { IfOk result (λ body. IsTrue (is_body 1 body.lists)) }
    ensures points { IfOk result (λ body. length body.lists.points ≡ 4) }
    ensures triangles { IfOk result (λ body. length body.lists.corners ≡ 2) }
{
    let points = [point(x, 0), point(x + 4, 0), point(x + 4, 4), point(x, 4)];
    Body::from_lists(alloc, patch, &points, &[[0, 1, 2], [0, 2, 3]])
}

/// The left and bottom half of the column's square round its centre.
pub(super) fn low_half(alloc: Global, patch: u32, x: i32) -> Result<Body, NoMemory>
    requires { (x ≡ pos 0) ⊎ (x ≡ pos 4) }
    ensures version { IfOk result (λ body. body.version ≡ 1) }
    ensures rules { IfOk result (λ body. IsTrue (is_body 1 body.lists)) }
    ensures points { IfOk result (λ body. length body.lists.points ≡ 4) }
    ensures triangles { IfOk result (λ body. length body.lists.corners ≡ 2) }
{
    let points = [point(x, 0), point(x + 4, 0), point(x, 4), point(x + 2, 2)];
    Body::from_lists(alloc, patch, &points, &[[2, 0, 3], [0, 1, 3]])
}

/// The right and top half of the column's square round its centre.
pub(super) fn high_half(alloc: Global, patch: u32, x: i32) -> Result<Body, NoMemory>
    requires { (x ≡ pos 0) ⊎ (x ≡ pos 4) }
    ensures version { IfOk result (λ body. body.version ≡ 1) }
    ensures rules { IfOk result (λ body. IsTrue (is_body 1 body.lists)) }
    ensures points { IfOk result (λ body. length body.lists.points ≡ 4) }
    ensures triangles { IfOk result (λ body. length body.lists.corners ≡ 2) }
{
    let points = [
        point(x + 4, 0),
        point(x + 4, 4),
        point(x, 4),
        point(x + 2, 2),
    ];
    Body::from_lists(alloc, patch, &points, &[[0, 1, 3], [1, 2, 3]])
}

/// The seam between the columns, with its middle point.
pub(super) fn seam(alloc: Global, patch: u32) -> Result<Body, NoMemory>
    ensures version { IfOk result (λ body. body.version ≡ 1) }
    ensures rules { IfOk result (λ body. IsTrue (is_body 1 body.lists)) }
    ensures points { IfOk result (λ body. length body.lists.points ≡ 7) }
    ensures triangles { IfOk result (λ body. length body.lists.corners ≡ 6) }
{
    let points = [
        point(4, 0),
        point(4, 4),
        point(0, 4),
        point(2, 2),
        point(8, 0),
        point(6, 2),
        point(4, 2),
    ];
    let corners = [
        [0, 6, 3],
        [6, 1, 3],
        [1, 2, 3],
        [1, 6, 5],
        [6, 0, 5],
        [0, 4, 5],
    ];
    Body::from_lists(alloc, patch, &points, &corners)
}
