//! A body over its bytes.

use crate::checking::check_body;
use crate::places::{corners_at, point_at, triangle_at};
use crate::spelling::body_bytes;
use file_model::{FileFault, PatchField};
use grid_vertex::{NoMemory, Point, Triangle};
use std::alloc::Global;
use std::marker::Model;

/// The body of a patch: its points and triangles in file order, kept as the bytes that spell them.
#[derive(Drop)]
pub struct Body {
    patch: u32,
    version: u16,
    points: u16,
    triangles: u16,
    bytes: Vec<u8>,
}

impl Model for Body {
    ghost use Rattle.file_model.specs.Lists.{SeenBody};
    ghost use Rattle.patch_body.specs.Seen.{IsKept, seen_body};

    ghost Value = { SeenBody };

    ghost view = { λ b. seen_body b.patch b.version b.points b.triangles b.bytes.items };

    ghost invariant = { λ b. IsKept b.patch b.version b.points b.triangles b.bytes.items };
}

impl Body {
    ghost use Rattle.std.specs.Prelude.{◌≡◌, ◌+◌, ◌<◌, ◌≤◌, ◌^◌, false, length, slice_get, Some, Ok, Err, IsTrue, IfOk, MatchResult};
    ghost use Rattle.grid_vertex.specs.Points.{is_in_grid};
    ghost use Rattle.grid_vertex.specs.Triangles.{is_flat_triangle};
    ghost use Rattle.file_model.specs.Lists.{body_size, corners_of, triangles_of};
    ghost use Rattle.file_model.specs.Spelling.{body_text};
    ghost use Rattle.file_model.specs.Rules.{is_version, has_counts, is_body};
    ghost use Rattle.file_model.specs.Reading.{body_in};
    ghost use Rattle.patch_body.specs.Seen.{IsSeenBody, IsCount, IsInGrid, lists_with};

    /// Takes the bytes of a patch's body, as many as its field says or all that the file has left from
    /// `offset` on, or tells the first fault.
    pub fn from_bytes(
        version: u16,
        patch: u32,
        field: PatchField,
        offset: u64,
        bytes: Vec<u8>,
    ) -> Result<Body, FileFault>
        requires version { IsTrue (is_version version) }
        requires counts { IsTrue (has_counts field) }
        requires size { length bytes.items ≤ body_size version field }
        requires offset { offset + body_size version field < 2 ^ 64 }
        ensures exact { MatchResult result
            (λ body. body_in version patch field offset bytes.items ≡ Ok body.lists)
            (λ fault. body_in version patch field offset bytes.items ≡ Err fault) }
        ensures patch { IfOk result (λ body. body.patch ≡ patch) }
        ensures version { IfOk result (λ body. body.version ≡ version) }
        ensures bytes { IfOk result (λ body. body.bytes ≡ bytes.items) }
    {
        check_body(version, patch, &field, offset, &bytes)?;
        Ok(Body {
            patch,
            version,
            points: field.points,
            triangles: field.triangles,
            bytes,
        })
    }

    /// Makes the body of version 1 with these points and corners. The triangles' corners are places of
    /// points, and no triangle is flat.
    pub fn from_lists(
        alloc: Global,
        patch: u32,
        points: &[Point],
        corners: &[[u16; 3]],
    ) -> Result<Body, NoMemory>
        requires points { IsCount (length points.now) }
        requires triangles { IsCount (length corners.now) }
        requires rules { IsTrue (is_body 1 (lists_with points.now corners.now)) }
        ensures patch { IfOk result (λ body. body.patch ≡ patch) }
        ensures version { IfOk result (λ body. body.version ≡ 1) }
        ensures lists { IfOk result (λ body. body.lists ≡ lists_with points.now corners.now) }
        ensures bytes { IfOk result
            (λ body. body.bytes ≡ body_text 1 (lists_with points.now corners.now)) }
    {
        Body::spelled(alloc, patch, 1, points, corners)
    }

    /// Makes the body of version 2 with these points and corners, as `from_lists` does. On each axis the
    /// points are at most 65,535 apart.
    pub fn from_lists_2(
        alloc: Global,
        patch: u32,
        points: &[Point],
        corners: &[[u16; 3]],
    ) -> Result<Body, NoMemory>
        requires points { IsCount (length points.now) }
        requires triangles { IsCount (length corners.now) }
        requires rules { IsTrue (is_body 2 (lists_with points.now corners.now)) }
        ensures patch { IfOk result (λ body. body.patch ≡ patch) }
        ensures version { IfOk result (λ body. body.version ≡ 2) }
        ensures lists { IfOk result (λ body. body.lists ≡ lists_with points.now corners.now) }
        ensures bytes { IfOk result
            (λ body. body.bytes ≡ body_text 2 (lists_with points.now corners.now)) }
    {
        Body::spelled(alloc, patch, 2, points, corners)
    }

    // The body of a version with these points and corners.
    fn spelled(
        alloc: Global,
        patch: u32,
        version: u16,
        points: &[Point],
        corners: &[[u16; 3]],
    ) -> Result<Body, NoMemory>
        requires version { IsTrue (is_version version) }
        requires points { IsCount (length points.now) }
        requires triangles { IsCount (length corners.now) }
        requires rules { IsTrue (is_body version (lists_with points.now corners.now)) }
        ensures patch { IfOk result (λ body. body.patch ≡ patch) }
        ensures version { IfOk result (λ body. body.version ≡ version) }
        ensures lists { IfOk result (λ body. body.lists ≡ lists_with points.now corners.now) }
        ensures bytes { IfOk result
            (λ body. body.bytes ≡ body_text version (lists_with points.now corners.now)) }
    {
        let bytes = body_bytes(alloc, version, points, corners)?;
        Ok(Body {
            patch,
            version,
            points: points.len() as u16,
            triangles: corners.len() as u16,
            bytes,
        })
    }

    /// The number of the patch.
    pub fn patch(&self) -> u32
        ensures patch { result ≡ self.now.patch }
        ensures facts { IsSeenBody self.now }
    {
        self.patch
    }

    /// The version of the patch file, 1 or 2.
    pub fn version(&self) -> u16
        ensures { result ≡ self.now.version }
    {
        self.version
    }

    /// The bytes of the body, as they stand in a patch file.
    pub fn bytes(&self) -> &[u8]
        ensures { result.now ≡ self.now.bytes }
    {
        &self.bytes
    }

    /// How many bytes the body has.
    pub fn size(&self) -> u64
        ensures size { result ≡ length self.now.bytes }
        ensures facts { IsSeenBody self.now }
    {
        self.bytes.len() as u64
    }

    /// How many points the body has.
    pub fn point_count(&self) -> u32
        ensures { result ≡ length self.now.lists.points }
    {
        u32::from(self.points)
    }

    /// A point of the body by its place.
    pub fn point(&self, point: u32) -> Point
        requires { point < length self.now.lists.points }
        ensures there { slice_get self.now.lists.points point ≡ Some result }
        ensures grid { IsTrue (is_in_grid result) }
    {
        point_at(self.version, &self.bytes, point as u16)
    }

    /// How many triangles the body has.
    pub fn triangle_count(&self) -> u32
        ensures { result ≡ length self.now.lists.corners }
    {
        u32::from(self.triangles)
    }

    /// The places of a triangle's corners in the body's points.
    pub fn corners(&self, t: u32) -> [u16; 3]
        requires { t < length self.now.lists.corners }
        ensures { slice_get self.now.lists.corners t ≡ Some (corners_of result) }
    {
        corners_at(self.version, self.points, &self.bytes, t as u16)
    }

    /// A triangle of the body by its place. No two of its corners are equal.
    pub fn triangle(&self, t: u32) -> Triangle
        requires { t < length self.now.lists.corners }
        ensures there { slice_get (triangles_of self.now.lists) t ≡ Some result }
        ensures not_flat { is_flat_triangle result ≡ false }
        ensures grid { IsInGrid result }
    {
        let corners = corners_at(self.version, self.points, &self.bytes, t as u16);
        triangle_at(self.version, &self.bytes, corners)
    }
}
