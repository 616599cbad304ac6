//! The bytes of a body.

ghost use Rattle.std.specs.Prelude.{◌≡◌, ◌≤◌, ◌++◌, length, map, OnOk, IfOk, IsTrue, ◌-ℤ◌, unsigned_abs};
ghost use Rattle.std.specs.List.{flat_map, fold, list_all};
ghost use Rattle.std.specs.Int.{int_min};
ghost use Rattle.file_model.specs.Numbers.{number_text, signed_text};
ghost use Rattle.file_model.specs.declared.limits.TheConstants.{MOST_IN_PATCH};
ghost use Rattle.file_model.specs.Lists.{corners_of};
ghost use Rattle.file_model.specs.Spelling.{point_text, corners_text, offset_text, origin_of, points_text, body_text};
ghost use Rattle.file_model.specs.Rules.{is_near_origin, is_narrow};
ghost use Rattle.patch_body.specs.Seen.{lists_with};
ghost use Rattle.patch_body.specs.Origins.{lower_of};

use byteorder::{ByteOrder, LittleEndian};
use grid_vertex::{NoMemory, Point};
use std::alloc::Global;

// Appends a number of two bytes.
#[tactic(auto, unfolding(file_model::specs::Numbers::number_text))]
fn push_u16(out: &mut Vec<u8>, number: u16) -> Result<(), NoMemory>
    ensures { OnOk result (out.new.items ≡ out.old.items ++ number_text 2 number) }
{
    let mut bytes = [0; 2];
    LittleEndian::write_u16(&mut bytes, number);
    out.extend_from_slice(&bytes)?;
    Ok(())
}

// Appends a signed number of four bytes.
#[tactic(auto, unfolding(file_model::specs::Numbers::signed_text, file_model::specs::Numbers::number_text))]
fn push_i32(out: &mut Vec<u8>, number: i32) -> Result<(), NoMemory>
    ensures { OnOk result (out.new.items ≡ out.old.items ++ signed_text number) }
{
    let mut bytes = [0; 4];
    LittleEndian::write_i32(&mut bytes, number);
    out.extend_from_slice(&bytes)?;
    Ok(())
}

// Appends three numbers of two bytes.
fn push_three(out: &mut Vec<u8>, a: u16, b: u16, c: u16) -> Result<(), NoMemory>
    ensures { OnOk result
        (out.new.items
        ≡ out.old.items ++ (number_text 2 a ++ (number_text 2 b ++ number_text 2 c))) }
{
    push_u16(out, a)?;
    push_u16(out, b)?;
    push_u16(out, c)
}

// Appends three signed numbers of four bytes.
fn push_three_signed(out: &mut Vec<u8>, x: i32, y: i32, z: i32) -> Result<(), NoMemory>
    ensures { OnOk result
        (out.new.items ≡ out.old.items ++ (signed_text x ++ (signed_text y ++ signed_text z))) }
{
    push_i32(out, x)?;
    push_i32(out, y)?;
    push_i32(out, z)
}

// Appends a point.
#[tactic(auto, unfolding(file_model::specs::Spelling::point_text))]
fn push_point(out: &mut Vec<u8>, point: Point) -> Result<(), NoMemory>
    ensures { OnOk result (out.new.items ≡ out.old.items ++ point_text point) }
{
    push_three_signed(out, point.x, point.y, point.z)
}

// How far a coordinate lies past the origin's.
fn offset(origin: i32, coordinate: i32) -> u16
    requires { unsigned_abs (coordinate -ℤ origin) ≤ 65535 }
    ensures { result ≡ unsigned_abs (coordinate -ℤ origin) }
{
    coordinate.abs_diff(origin) as u16
}

// Appends how far a point lies past the origin.
#[tactic(auto, unfolding(file_model::specs::Spelling::offset_text))]
fn push_offsets(out: &mut Vec<u8>, origin: Point, point: Point) -> Result<(), NoMemory>
    requires { IsTrue (is_near_origin origin point) }
    ensures { OnOk result (out.new.items ≡ out.old.items ++ offset_text origin point) }
{
    let x = offset(origin.x, point.x);
    let y = offset(origin.y, point.y);
    let z = offset(origin.z, point.z);
    push_three(out, x, y, z)
}

// Appends the places of a triangle's corners.
#[tactic(auto, unfolding(file_model::specs::Spelling::corners_text))]
fn push_corners(out: &mut Vec<u8>, corners: [u16; 3]) -> Result<(), NoMemory>
    ensures { OnOk result (out.new.items ≡ out.old.items ++ corners_text (corners_of corners)) }
{
    let [a, b, c] = corners;
    push_three(out, a, b, c)
}

// The lesser of two coordinates.
fn lesser(a: i32, b: i32) -> i32
    ensures { result ≡ int_min a b }
{
    a.min(b)
}

// The lesser coordinate of two points on each axis.
fn lower(p: Point, q: Point) -> Point
    ensures { result ≡ lower_of p q }
{
    Point {
        x: lesser(p.x, q.x),
        y: lesser(p.y, q.y),
        z: lesser(p.z, q.z),
    }
}

// The least coordinates of a point and others.
fn lowest(first: Point, others: &[Point]) -> Point
    ensures { result ≡ fold lower_of first others.now }
{
    others
        .iter()
        .fold(first, |lowest, point| lower(lowest, *point))
}

// The least coordinates of points.
#[tactic(auto, unfolding(file_model::specs::Spelling::origin_of))]
fn origin_of(points: &[Point]) -> Point
    ensures { result ≡ origin_of points.now }
{
    match points {
        [] => Point { x: 0, y: 0, z: 0 },
        [first, others @ ..] => lowest(*first, others),
    }
}

// Appends points.
fn push_points(out: &mut Vec<u8>, points: &[Point]) -> Result<(), NoMemory>
    ensures { OnOk result (out.new.items ≡ out.old.items ++ flat_map point_text points.now) }
{
    for point in points {
        push_point(out, *point)?;
    }
    Ok(())
}

// Appends how far points lie past the origin.
fn push_all_offsets(out: &mut Vec<u8>, origin: Point, points: &[Point]) -> Result<(), NoMemory>
    requires { IsTrue (list_all (is_near_origin origin) points.now) }
    ensures { OnOk result
        (out.new.items ≡ out.old.items ++ flat_map (offset_text origin) points.now) }
{
    for point in points {
        push_offsets(out, origin, *point)?;
    }
    Ok(())
}

// Appends the corners of triangles.
fn push_all_corners(out: &mut Vec<u8>, corners: &[[u16; 3]]) -> Result<(), NoMemory>
    ensures { OnOk result
        (out.new.items ≡ out.old.items ++ flat_map corners_text (map corners_of corners.now)) }
{
    for triangle in corners {
        push_corners(out, *triangle)?;
    }
    Ok(())
}

// Appends the points of a body in a version.
#[tactic(auto, unfolding(file_model::specs::Spelling::points_text))]
fn push_body_points(out: &mut Vec<u8>, version: u16, points: &[Point]) -> Result<(), NoMemory>
    requires { IsTrue (is_narrow version points.now) }
    ensures { OnOk result (out.new.items ≡ out.old.items ++ points_text version points.now) }
{
    if version == 2 {
        let origin = origin_of(points);
        push_point(out, origin)?;
        push_all_offsets(out, origin, points)
    } else {
        push_points(out, points)
    }
}

/// The bytes of a body in a version.
#[tactic(auto, unfolding(file_model::specs::Spelling::body_text))]
pub(crate) fn body_bytes(
    alloc: Global,
    version: u16,
    points: &[Point],
    corners: &[[u16; 3]],
) -> Result<Vec<u8>, NoMemory>
    requires points { length points.now ≤ MOST_IN_PATCH }
    requires corners { length corners.now ≤ MOST_IN_PATCH }
    requires narrow { IsTrue (is_narrow version points.now) }
    ensures { IfOk result
        (λ bytes. bytes.items ≡ body_text version (lists_with points.now corners.now)) }
{
    let points_size = if version == 2 {
        12 + 6 * points.len()
    } else {
        12 * points.len()
    };
    let mut bytes = Vec::with_capacity(alloc, points_size + 6 * corners.len())?;
    push_body_points(&mut bytes, version, points)?;
    push_all_corners(&mut bytes, corners)?;
    Ok(bytes)
}
