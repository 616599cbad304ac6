//! The first fault of a body's bytes.

ghost use Rattle.std.specs.Prelude.{◌≡◌, ◌+◌, ◌<◌, ◌^◌, length, drop, IfOk, None, pos, ◌+ℤ◌};
ghost use Rattle.grid_vertex.specs.Points.{is_within, is_in_grid};
ghost use Rattle.file_model.specs.Lists.{corners_of};
ghost use Rattle.file_model.specs.Reading.{shifted_in, point_at, shifted_at, shifted_points_at, points_at, triangle_at, many_at, body_in};
ghost use Rattle.file_laws.specs.Numbers.{IsBytes};
ghost use Rattle.patch_body.specs.Places.{points_size, points_read};
ghost use Rattle.patch_body.specs.Faults.{fault_of, corner_fault};
ghost use Rattle.patch_body.specs.Zeros.{zeros_at, no_axis, fault_with};

use crate::places::{behind_points, read_corners, read_point, read_u16, triangle_at};
use crate::zeros::Zeros;
use file_model::{FileFault, PatchField};
use grid_vertex::{GRID, Point, in_grid};

/// What a fault says of where a body stands: its patch, and the offset at which its bytes end.
#[derive(Clone, Copy)]
struct Source {
    patch: u32,
    end: u64,
}

/// Looks at the point in the first 12 bytes, and gives the bytes behind it.
#[tactic(auto, unfolding(file_model::specs::Reading::point_at))]
fn check_point(source: Source, k: u32, bytes: &[u8]) -> Result<&[u8], FileFault>
    ensures fault { fault_of result ≡ fault_of (point_at source.patch source.end k bytes.now) }
    ensures rest { IfOk result (λ rest. rest.now ≡ drop 12 bytes.now) }
{
    if bytes.len() < 12 {
        return Err(FileFault::Truncated(source.end));
    }
    if !in_grid(read_point(bytes)) {
        return Err(FileFault::PointOutOfGrid(source.patch, k));
    }
    Ok(&bytes[12..])
}

/// Looks at the points of a body of version 1.
fn check_plain_points(source: Source, count: u16, bytes: &[u8]) -> Result<(), FileFault>
    ensures { fault_of result
        ≡ fault_of (many_at (point_at source.patch source.end) count 0 bytes.now) }
{
    let mut rest = bytes;
    for k in 0..u32::from(count) {
        rest = check_point(source, k, rest)?;
    }
    Ok(())
}

// Whether a coordinate that lies the offset past the origin's is in the grid's range.
fn is_shift_in_grid(origin: i32, offset: u16) -> bool
    ensures { result ≡ is_within GRID (origin +ℤ pos offset) }
{
    (i64::from(origin) + i64::from(offset)).unsigned_abs() <= u64::from(GRID)
}

/// Looks at the offsets in the first 6 bytes, and gives the axes on which they are 0 and the bytes
/// behind them.
#[tactic(auto, unfolding(file_model::specs::Reading::shifted_at))]
fn check_offsets(
    source: Source,
    origin: Point,
    k: u32,
    bytes: &[u8],
) -> Result<(Zeros, &[u8]), FileFault>
    ensures fault { fault_of result
        ≡ fault_of (shifted_at origin source.patch source.end k bytes.now) }
    ensures zeros { IfOk result (λ seen. seen.0 ≡ zeros_at origin (shifted_in origin bytes.now)) }
    ensures rest { IfOk result (λ seen. seen.1.now ≡ drop 6 bytes.now) }
{
    if bytes.len() < 6 {
        return Err(FileFault::Truncated(source.end));
    }
    let x = read_u16(bytes, 0);
    let y = read_u16(bytes, 2);
    let z = read_u16(bytes, 4);
    if !is_shifted_in_grid(origin, x, y, z) {
        return Err(FileFault::PointOutOfGrid(source.patch, k));
    }
    let zeros = Zeros {
        x: x == 0,
        y: y == 0,
        z: z == 0,
    };
    Ok((zeros, &bytes[6..]))
}

/// Tells whether the point that lies the offsets past the origin is in the grid.
fn is_shifted_in_grid(origin: Point, x: u16, y: u16, z: u16) -> bool
    ensures { result
        ≡ is_in_grid
        (record { x = origin.x +ℤ pos x; y = origin.y +ℤ pos y; z = origin.z +ℤ pos z }) }
{
    is_shift_in_grid(origin.x, x) && is_shift_in_grid(origin.y, y) && is_shift_in_grid(origin.z, z)
}

/// Looks at the offsets of so many points from the origin.
fn check_all_offsets(
    source: Source,
    origin: Point,
    count: u16,
    bytes: &[u8],
) -> Result<(), FileFault>
    ensures { fault_of result
        ≡ fault_with no_axis origin source.patch
        (many_at (shifted_at origin source.patch source.end) count 0 bytes.now) }
{
    let mut rest = bytes;
    let mut seen = Zeros::none();
    for k in 0..u32::from(count) {
        let (zeros, behind) = check_offsets(source, origin, k, rest)?;
        seen = seen.or(zeros);
        rest = behind;
    }
    seen.tight(source.patch)
}

/// Looks at the points of a body of version 2.
#[tactic(auto, unfolding(file_model::specs::Reading::shifted_points_at))]
fn check_shifted_points(source: Source, count: u16, bytes: &[u8]) -> Result<(), FileFault>
    ensures { fault_of result
        ≡ fault_of (shifted_points_at count source.patch source.end bytes.now) }
{
    if bytes.len() < 12 {
        return Err(FileFault::Truncated(source.end));
    }
    check_all_offsets(source, read_point(bytes), count, &bytes[12..])
}

/// Looks at the points of a body.
#[tactic(auto, unfolding(file_model::specs::Reading::points_at))]
fn check_points(source: Source, version: u16, count: u16, bytes: &[u8]) -> Result<(), FileFault>
    ensures { fault_of result
        ≡ fault_of (points_at version count source.patch source.end bytes.now) }
{
    if version == 2 {
        check_shifted_points(source, count, bytes)
    } else {
        check_plain_points(source, count, bytes)
    }
}

/// Refuses triangle k at its first corner that is no place of a point.
fn check_corners(source: Source, count: u16, k: u32, corners: [u16; 3]) -> Result<(), FileFault>
    ensures { fault_of result ≡ corner_fault source.patch count k (corners_of corners) }
{
    let [a, b, c] = corners;
    if a >= count {
        return Err(FileFault::CornerIndex(source.patch, k, u32::from(a)));
    }
    if b >= count {
        return Err(FileFault::CornerIndex(source.patch, k, u32::from(b)));
    }
    if c >= count {
        return Err(FileFault::CornerIndex(source.patch, k, u32::from(c)));
    }
    Ok(())
}

/// Looks at the triangle in the first 6 bytes of `rest`, whose corners are points of `bytes`, and
/// gives the bytes behind it.
#[tactic(auto, unfolding(file_model::specs::Reading::triangle_at))]
fn check_triangle<'a>(
    source: Source,
    version: u16,
    count: u16,
    bytes: &[u8],
    k: u32,
    rest: &'a [u8],
) -> Result<&'a [u8], FileFault>
    requires { fault_of (points_at version count source.patch source.end bytes.now) ≡ None }
    ensures fault { fault_of result
        ≡ fault_of
        (triangle_at (points_read version count source.patch source.end bytes.now) source.patch
        source.end k rest.now) }
    ensures rest { IfOk result (λ behind. behind.now ≡ drop 6 rest.now) }
{
    if rest.len() < 6 {
        return Err(FileFault::Truncated(source.end));
    }
    let corners = read_corners(rest);
    check_corners(source, count, k, corners)?;
    if triangle_at(version, bytes, corners).is_flat() {
        return Err(FileFault::Flat(source.patch, k));
    }
    Ok(&rest[6..])
}

/// Looks at the triangles of a body whose points have no fault.
fn check_triangles(
    source: Source,
    version: u16,
    field: &PatchField,
    bytes: &[u8],
) -> Result<(), FileFault>
    requires { fault_of (points_at version field.now.points source.patch source.end bytes.now)
        ≡ None }
    ensures { fault_of result
        ≡ fault_of
        (many_at
        (triangle_at
        (points_read version field.now.points source.patch source.end bytes.now)
        source.patch source.end) field.now.triangles 0
        (drop (points_size version field.now.points) bytes.now)) }
{
    let mut rest = behind_points(version, field.points, bytes);
    for k in 0..u32::from(field.triangles) {
        rest = check_triangle(source, version, field.points, bytes, k, rest)?;
    }
    Ok(())
}

/// Looks for the first fault of the bytes of a body, which begin at `offset` in their file.
#[tactic(auto, unfolding(file_model::specs::Reading::body_in))]
pub(crate) fn check_body(
    version: u16,
    patch: u32,
    field: &PatchField,
    offset: u64,
    bytes: &[u8],
) -> Result<(), FileFault>
    requires { offset + length bytes.now < 2 ^ 64 }
    ensures fault { fault_of result ≡ fault_of (body_in version patch field.now offset bytes.now) }
    ensures bytes { IsBytes bytes.now }
{
    let source = Source {
        patch,
        end: offset + bytes.len() as u64,
    };
    check_points(source, version, field.points, bytes)?;
    check_triangles(source, version, field, bytes)
}
