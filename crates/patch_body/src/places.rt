//! Points and corners at their places in a body's bytes.

ghost use Rattle.std.specs.Prelude.{◌≡◌, ◌+◌, ◌*◌, ◌≤◌, length, drop, IsTrue, pos, ◌+ℤ◌};
ghost use Rattle.grid_vertex.specs.declared.points.measures.TheConstants.{GRID};
ghost use Rattle.grid_vertex.specs.Points.{is_in_grid, is_within};
ghost use Rattle.file_model.specs.Numbers.{number_in, signed_in};
ghost use Rattle.file_model.specs.Lists.{corners_of};
ghost use Rattle.file_model.specs.Reading.{point_in, shifted_in, corners_in};
ghost use Rattle.patch_body.specs.Places.{points_size, point_of_bytes, triangle_of_bytes, HasPoint, HasCorners};

use byteorder::{ByteOrder, LittleEndian};
use grid_vertex::{Point, Triangle};

/// The number in the two bytes from place `at`.
#[tactic(auto, unfolding(file_model::specs::Numbers::number_in))]
pub(crate) fn read_u16(bytes: &[u8], at: usize) -> u16
    requires { at + 2 ≤ length bytes.now }
    ensures { result ≡ number_in 2 (drop at bytes.now) }
{
    LittleEndian::read_u16(&bytes[at..])
}

/// The signed number in the four bytes from place `at`.
#[tactic(auto, unfolding(file_model::specs::Numbers::signed_in, file_model::specs::Numbers::number_in))]
pub(crate) fn read_i32(bytes: &[u8], at: usize) -> i32
    requires { at + 4 ≤ length bytes.now }
    ensures { result ≡ signed_in (drop at bytes.now) }
{
    LittleEndian::read_i32(&bytes[at..])
}

/// The point in the first 12 bytes.
pub(crate) fn read_point(bytes: &[u8]) -> Point
    requires { 12 ≤ length bytes.now }
    ensures { result ≡ point_in bytes.now }
{
    Point {
        x: read_i32(bytes, 0),
        y: read_i32(bytes, 4),
        z: read_i32(bytes, 8),
    }
}

/// The corners in the first 6 bytes.
pub(crate) fn read_corners(bytes: &[u8]) -> [u16; 3]
    requires { 6 ≤ length bytes.now }
    ensures { corners_of result ≡ corners_in bytes.now }
{
    [read_u16(bytes, 0), read_u16(bytes, 2), read_u16(bytes, 4)]
}

// The coordinate that lies the offset past the origin's.
fn shift(origin: i32, offset: u16) -> i32
    requires { IsTrue (is_within GRID (origin +ℤ pos offset)) }
    ensures { result ≡ origin +ℤ pos offset }
{
    origin + i32::from(offset)
}

/// The point that lies the offsets in the first 6 bytes past the origin.
pub(crate) fn read_shifted(origin: Point, bytes: &[u8]) -> Point
    requires room { 6 ≤ length bytes.now }
    requires grid { IsTrue (is_in_grid (shifted_in origin bytes.now)) }
    ensures { result ≡ shifted_in origin bytes.now }
{
    Point {
        x: shift(origin.x, read_u16(bytes, 0)),
        y: shift(origin.y, read_u16(bytes, 2)),
        z: shift(origin.z, read_u16(bytes, 4)),
    }
}

/// The bytes behind so many points.
#[tactic(auto, unfolding(crate::specs::Places::points_size))]
pub(crate) fn behind_points(version: u16, count: u16, bytes: &[u8]) -> &[u8]
    requires { points_size version count ≤ length bytes.now }
    ensures { result.now ≡ drop (points_size version count) bytes.now }
{
    let count = usize::from(count);
    if version == 2 {
        &bytes[12 + 6 * count..]
    } else {
        &bytes[12 * count..]
    }
}

/// The corners of triangle t, behind so many points.
pub(crate) fn corners_at(version: u16, count: u16, bytes: &[u8], t: u16) -> [u16; 3]
    requires { points_size version count + (6 * t + 6) ≤ length bytes.now }
    ensures { corners_of result
        ≡ corners_in (drop (6 * t) (drop (points_size version count) bytes.now)) }
{
    read_corners(&behind_points(version, count, bytes)[6 * usize::from(t)..])
}

/// Point k of a body's bytes.
#[tactic(auto, unfolding(crate::specs::Places::point_of_bytes, crate::specs::Places::points_size))]
pub(crate) fn point_at(version: u16, bytes: &[u8], k: u16) -> Point
    requires { HasPoint version bytes.now k }
    ensures { result ≡ point_of_bytes version bytes.now k }
{
    let k = usize::from(k);
    if version == 2 {
        read_shifted(read_point(bytes), &bytes[12 + 6 * k..])
    } else {
        read_point(&bytes[12 * k..])
    }
}

/// The triangle that three corners make of a body's points.
pub(crate) fn triangle_at(version: u16, bytes: &[u8], corners: [u16; 3]) -> Triangle
    requires { HasCorners version bytes.now corners }
    ensures { result ≡ triangle_of_bytes version bytes.now corners }
{
    let [a, b, c] = corners;
    Triangle {
        a: point_at(version, bytes, a),
        b: point_at(version, bytes, b),
        c: point_at(version, bytes, c),
    }
}
