//! The nodes and the patch fields that follow the header.

ghost use Rattle.std.specs.Prelude.{◌≡◌, ◌+◌, ◌≤◌, length, drop, IfErr};
ghost use Rattle.file_model.specs.Numbers.{number_in, signed_in};
ghost use Rattle.file_model.specs.Answers.{Gives, IsNotReadFault};
ghost use Rattle.file_model.specs.Reading.{point_in, node_at, field_at, many_at};
ghost use Rattle.file_model.specs.Rules.{is_node, has_ends, has_counts};
ghost use Rattle.patch_file.specs.Seen.{GivesBytes};

use byteorder::{ByteOrder, LittleEndian};
use file_model::{FileFault, Node, PatchField, ReadRefusal};
use grid_vertex::{Ball, Point, in_grid};
use std::alloc::Global;

/// So many nodes, and the bytes after them, of a file that ends at `end` where the bytes end too early.
pub fn nodes_of(
    alloc: Global,
    count: u32,
    end: u64,
    bytes: &[u8],
) -> Result<(Vec<Node>, &[u8]), ReadRefusal>
    ensures exact { Gives (λ x. (x.0.items, x.1.now)) result
        (many_at (node_at end) count 0 bytes.now) }
    ensures alone { IfErr result IsNotReadFault }
{
    let mut nodes = Vec::with_capacity(alloc, count as usize)?;
    let mut rest = bytes;
    for v in 0..count {
        match node_of(end, v, rest) {
            Ok((node, after)) => {
                nodes.push(node)?;
                rest = after;
            }
            Err(fault) => return Err(ReadRefusal::File(fault)),
        }
    }
    Ok((nodes, rest))
}

/// So many patch fields of a file with so many nodes, and the bytes after them.
pub fn fields_of(
    alloc: Global,
    nodes: u32,
    count: u32,
    end: u64,
    bytes: &[u8],
) -> Result<(Vec<PatchField>, &[u8]), ReadRefusal>
    ensures exact { Gives (λ x. (x.0.items, x.1.now)) result
        (many_at (field_at nodes end) count 0 bytes.now) }
    ensures alone { IfErr result IsNotReadFault }
{
    let mut fields = Vec::with_capacity(alloc, count as usize)?;
    let mut rest = bytes;
    for patch in 0..count {
        match field_of(nodes, end, patch, rest) {
            Ok((field, after)) => {
                fields.push(field)?;
                rest = after;
            }
            Err(fault) => return Err(ReadRefusal::File(fault)),
        }
    }
    Ok((fields, rest))
}

#[tactic(auto, unfolding(file_model::specs::Reading::node_at, file_model::specs::Numbers::number_in))]
fn node_of(end: u64, v: u32, bytes: &[u8]) -> Result<(Node, &[u8]), FileFault>
    ensures { GivesBytes (λ x. (x.0, x.1.now)) result (node_at end v bytes.now) }
{
    if bytes.len() < 20 {
        return Err(FileFault::Truncated(end));
    }
    let node = Node {
        ball: Ball {
            centre: point_of(bytes),
            radius: LittleEndian::read_u32(&bytes[12..]),
        },
        error: LittleEndian::read_u32(&bytes[16..]),
    };
    if !is_node(&node) {
        return Err(FileFault::NodeOutOfGrid(v));
    }
    Ok((node, &bytes[20..]))
}

#[tactic(auto, unfolding(file_model::specs::Reading::field_at, file_model::specs::Numbers::number_in))]
fn field_of(
    nodes: u32,
    end: u64,
    patch: u32,
    bytes: &[u8],
) -> Result<(PatchField, &[u8]), FileFault>
    ensures { GivesBytes (λ x. (x.0, x.1.now)) result (field_at nodes end patch bytes.now) }
{
    if bytes.len() < 12 {
        return Err(FileFault::Truncated(end));
    }
    let field = PatchField {
        tail: LittleEndian::read_u32(bytes),
        head: LittleEndian::read_u32(&bytes[4..]),
        points: LittleEndian::read_u16(&bytes[8..]),
        triangles: LittleEndian::read_u16(&bytes[10..]),
    };
    if !has_ends(nodes, &field) {
        return Err(FileFault::ArcEnd(patch));
    }
    if !has_counts(&field) {
        return Err(FileFault::BodyCount(patch));
    }
    Ok((field, &bytes[12..]))
}

fn point_of(bytes: &[u8]) -> Point
    requires { 12 ≤ length bytes.now }
    ensures { result ≡ point_in bytes.now }
{
    Point {
        x: coordinate_at(bytes, 0),
        y: coordinate_at(bytes, 4),
        z: coordinate_at(bytes, 8),
    }
}

#[tactic(auto, unfolding(file_model::specs::Numbers::signed_in, file_model::specs::Numbers::number_in))]
fn coordinate_at(bytes: &[u8], offset: usize) -> i32
    requires { offset + 4 ≤ length bytes.now }
    ensures { result ≡ signed_in (drop offset bytes.now) }
{
    LittleEndian::read_u32(&bytes[offset..]).cast_signed()
}

fn is_node(node: &Node) -> bool
    ensures { result ≡ is_node node.now }
{
    in_grid(node.ball.centre) && node.ball.radius <= 4_194_304 && node.error <= 1_048_576
}

fn has_ends(nodes: u32, field: &PatchField) -> bool
    ensures { result ≡ has_ends nodes field.now }
{
    field.tail < nodes && field.head < nodes
}

fn has_counts(field: &PatchField) -> bool
    ensures { result ≡ has_counts field.now }
{
    1 <= field.points && 1 <= field.triangles
}
