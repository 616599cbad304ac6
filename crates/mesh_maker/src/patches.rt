//! The patches of the strip.

ghost use Rattle.std.specs.Prelude.{◌≡◌, ◌+◌, ◌-◌, ◌<◌, ◌≤◌, ◌∷◌, [], length, map, OnOk, IfOk, IsTrue};
ghost use Rattle.std.specs.List.{flat_map, range_with_len};
ghost use Rattle.file_model.specs.Rules.{is_version, is_body};
ghost use Rattle.patch_body.specs.Seen.{IsCount, lists_with};
ghost use Rattle.strip_laws.specs.Strip.{patch, edge_at, square, left_half, right_half, halves, opened};
ghost use Rattle.strip_laws.specs.declared.limits.TheConstants.{MOST_COLUMNS};
ghost use Rattle.mesh_maker.specs.Parts.{with_patches};

use crate::points::{halfway, high, low, middle};
use file_model::PatchField;
use grid_vertex::{NoMemory, Point};
use patch_file::{Body, FileParts};
use std::alloc::Global;
use strip_laws::MOST_COLUMNS;

/// The number of a patch, and the nodes that it leads from and to.
#[derive(Clone, Copy)]
struct Ends {
    patch: u32,
    tail: u32,
    head: u32,
}

/// The body of a version with these points and corners.
fn body_in(
    alloc: Global,
    version: u16,
    patch: u32,
    points: &[Point],
    corners: &[[u16; 3]],
) -> Result<Body, NoMemory>
    requires version { IsTrue (is_version version) }
    requires points { IsCount (length points.now) }
    requires triangles { IsCount (length corners.now) }
    requires rules { IsTrue (is_body version (lists_with points.now corners.now)) }
    ensures version { IfOk result (λ body. body.version ≡ version) }
    ensures lists { IfOk result (λ body. body.lists ≡ lists_with points.now corners.now) }
{
    if version == 2 {
        Body::from_lists_2(alloc, patch, points, corners)
    } else {
        Body::from_lists(alloc, patch, points, corners)
    }
}

/// Adds a patch with these points and corners.
fn add_patch(
    alloc: Global,
    parts: &mut FileParts,
    version: u16,
    ends: Ends,
    points: &[Point],
    corners: &[[u16; 3]],
) -> Result<(), NoMemory>
    requires version { IsTrue (is_version version) }
    requires same { parts.old.index.version ≡ version }
    requires points { IsCount (length points.now) }
    requires triangles { IsCount (length corners.now) }
    requires rules { IsTrue (is_body version (lists_with points.now corners.now)) }
    ensures { OnOk result
        (parts.new
        ≡ with_patches parts.old
        (patch ends.tail ends.head (lists_with points.now corners.now) ∷ [])) }
{
    let body = body_in(alloc, version, ends.patch, points, corners)?;
    let field = PatchField {
        tail: ends.tail,
        head: ends.head,
        points: points.len() as u16,
        triangles: corners.len() as u16,
    };
    parts.add_patch(field, body)
}

/// The node of an edge: the sink for the strip's two ends.
fn edge_at(columns: u32, edge: u32) -> u32
    requires columns { columns ≤ MOST_COLUMNS }
    requires edge { edge ≤ columns }
    ensures { result ≡ edge_at columns edge }
{
    if edge == 0 {
        2 * columns
    } else {
        columns + edge
    }
}

fn add_square(
    alloc: Global,
    parts: &mut FileParts,
    version: u16,
    column: u32,
) -> Result<(), NoMemory>
    requires version { IsTrue (is_version version) }
    requires same { parts.old.index.version ≡ version }
    requires within { column < MOST_COLUMNS }
    ensures { OnOk result (parts.new ≡ with_patches parts.old (square column ∷ [])) }
{
    let ends = Ends {
        patch: column,
        tail: 0,
        head: 1 + column,
    };
    let points = [low(column), low(column + 1), high(column + 1), high(column)];
    add_patch(
        alloc,
        parts,
        version,
        ends,
        &points,
        &[[0, 1, 2], [0, 2, 3]],
    )
}

/// Adds the triangles from a square's left and bottom to its middle.
fn add_left(
    alloc: Global,
    parts: &mut FileParts,
    version: u16,
    columns: u32,
    column: u32,
) -> Result<(), NoMemory>
    requires version { IsTrue (is_version version) }
    requires same { parts.old.index.version ≡ version }
    requires columns { columns ≤ MOST_COLUMNS }
    requires within { column < columns }
    ensures { OnOk result (parts.new ≡ with_patches parts.old (left_half columns column ∷ [])) }
{
    let ends = Ends {
        patch: columns + 2 * column,
        tail: 1 + column,
        head: edge_at(columns, column),
    };
    let points = [low(column), low(column + 1), high(column), middle(column)];
    add_patch(
        alloc,
        parts,
        version,
        ends,
        &points,
        &[[2, 0, 3], [0, 1, 3]],
    )
}

/// Adds those from its right and top.
fn add_right(
    alloc: Global,
    parts: &mut FileParts,
    version: u16,
    columns: u32,
    column: u32,
) -> Result<(), NoMemory>
    requires version { IsTrue (is_version version) }
    requires same { parts.old.index.version ≡ version }
    requires columns { columns ≤ MOST_COLUMNS }
    requires within { column < columns }
    ensures { OnOk result (parts.new ≡ with_patches parts.old (right_half columns column ∷ [])) }
{
    let ends = Ends {
        patch: columns + 2 * column + 1,
        tail: 1 + column,
        head: edge_at(columns, column + 1),
    };
    let points = [
        low(column + 1),
        high(column + 1),
        high(column),
        middle(column),
    ];
    add_patch(
        alloc,
        parts,
        version,
        ends,
        &points,
        &[[0, 1, 3], [1, 2, 3]],
    )
}

/// Adds both halves of a square.
fn add_halves(
    alloc: Global,
    parts: &mut FileParts,
    version: u16,
    columns: u32,
    column: u32,
) -> Result<(), NoMemory>
    requires version { IsTrue (is_version version) }
    requires same { parts.old.index.version ≡ version }
    requires columns { columns ≤ MOST_COLUMNS }
    requires within { column < columns }
    ensures { OnOk result (parts.new ≡ with_patches parts.old (halves columns column)) }
{
    add_left(alloc, parts, version, columns, column)?;
    add_right(alloc, parts, version, columns, column)
}

/// Adds what lies round edge `before` + 1, which parts squares `before` and `before` + 1, cut in two.
fn add_opened(
    alloc: Global,
    parts: &mut FileParts,
    version: u16,
    columns: u32,
    before: u32,
) -> Result<(), NoMemory>
    requires version { IsTrue (is_version version) }
    requires same { parts.old.index.version ≡ version }
    requires columns { columns ≤ MOST_COLUMNS }
    requires within { before + 1 < columns }
    ensures { OnOk result (parts.new ≡ with_patches parts.old (opened columns before ∷ [])) }
{
    let edge = before + 1;
    let ends = Ends {
        patch: 3 * columns + before,
        tail: columns + edge,
        head: 2 * columns,
    };
    let points = [
        low(edge),
        high(edge),
        high(before),
        middle(before),
        low(edge + 1),
        middle(edge),
        halfway(edge),
    ];
    let corners = [
        [0, 6, 3],
        [6, 1, 3],
        [1, 2, 3],
        [1, 6, 5],
        [6, 0, 5],
        [0, 4, 5],
    ];
    add_patch(alloc, parts, version, ends, &points, &corners)
}

/// Adds the squares.
#[tactic(auto, using(crate::proofs::Grown::patches_more))]
pub(crate) fn add_squares(
    alloc: Global,
    parts: &mut FileParts,
    version: u16,
    columns: u32,
) -> Result<(), NoMemory>
    requires version { IsTrue (is_version version) }
    requires same { parts.old.index.version ≡ version }
    requires columns { columns ≤ MOST_COLUMNS }
    ensures { OnOk result
        (parts.new ≡ with_patches parts.old (map square (range_with_len 0 columns))) }
{
    for column in 0..columns {
        add_square(alloc, parts, version, column)?;
    }
    Ok(())
}

/// Adds the halves of all squares.
#[tactic(auto, using(crate::proofs::Grown::halves_more))]
pub(crate) fn add_all_halves(
    alloc: Global,
    parts: &mut FileParts,
    version: u16,
    columns: u32,
) -> Result<(), NoMemory>
    requires version { IsTrue (is_version version) }
    requires same { parts.old.index.version ≡ version }
    requires columns { columns ≤ MOST_COLUMNS }
    ensures { OnOk result
        (parts.new ≡ with_patches parts.old (flat_map (halves columns) (range_with_len 0 columns))) }
{
    for column in 0..columns {
        add_halves(alloc, parts, version, columns, column)?;
    }
    Ok(())
}

/// Adds the opened edges.
#[tactic(auto, using(crate::proofs::Grown::patches_more))]
pub(crate) fn add_all_opened(
    alloc: Global,
    parts: &mut FileParts,
    version: u16,
    columns: u32,
) -> Result<(), NoMemory>
    requires version { IsTrue (is_version version) }
    requires same { parts.old.index.version ≡ version }
    requires some { 1 ≤ columns }
    requires columns { columns ≤ MOST_COLUMNS }
    ensures { OnOk result
        (parts.new ≡ with_patches parts.old (map (opened columns) (range_with_len 0 (columns - 1)))) }
{
    for before in 0..columns - 1 {
        add_opened(alloc, parts, version, columns, before)?;
    }
    Ok(())
}
