//! The sample file in both versions, written to a sink.

ghost use Rattle.std.specs.Prelude.{◌≡◌, length, pos, IsTrue, IfOk};
ghost use Rattle.file_model.specs.Rules.{is_version, is_body, IsPatchFile};
ghost use Rattle.file_model.specs.Spelling.{file_text};

use super::{sample, sample_2};
use crate::{Body, FileParts, Node, PatchField, write_file};
use grid_vertex::{Ball, NoMemory, Point};
use std::alloc::Global;
use std::test::Fail;
use view_outside::{MemorySink, WriteFault};

/// A node whose centre is (at, at, 0).
fn node(at: i32, radius: u32, error: u32) -> Node
    ensures { result
        ≡ record {
          ball = record { centre = record { x = at; y = at; z = pos 0 }; radius = radius };
          error = error;
        } }
{
    let centre = Point { x: at, y: at, z: 0 };
    Node {
        ball: Ball { centre, radius },
        error,
    }
}

/// The sample's nodes and fields with these bodies.
#[tactic(auto, unfolding(file_model::specs::Rules::are_bodies))]
fn sample_parts(alloc: Global, version: u16, square: Body, fan: Body) -> Result<FileParts, NoMemory>
    requires version { IsTrue (is_version version) }
    requires square { (square.version ≡ version) × IsTrue (is_body version square.lists) }
    requires square_counts { (length square.lists.points ≡ 4) × (length square.lists.corners ≡ 2) }
    requires fan { (fan.version ≡ version) × IsTrue (is_body version fan.lists) }
    requires fan_counts { (length fan.lists.points ≡ 5) × (length fan.lists.corners ≡ 4) }
    ensures { IfOk result (λ parts. IsPatchFile parts (file_text parts)) }
{
    let mut parts = FileParts::with_version(alloc, version);
    parts.add_node(node(2, 8, 100))?;
    parts.add_node(node(2, 4, 10))?;
    parts.add_node(node(0, 0, 0))?;
    let field = PatchField {
        tail: 0,
        head: 1,
        points: 4,
        triangles: 2,
    };
    parts.add_patch(field, square)?;
    let field = PatchField {
        tail: 1,
        head: 2,
        points: 5,
        triangles: 4,
    };
    parts.add_patch(field, fan)?;
    Ok(parts)
}

const SQUARE: [Point; 4] = [
    Point { x: 0, y: 0, z: 0 },
    Point { x: 4, y: 0, z: 0 },
    Point { x: 4, y: 4, z: 0 },
    Point { x: 0, y: 4, z: 0 },
];

const FAN: [Point; 5] = [
    Point { x: 0, y: 0, z: 0 },
    Point { x: 4, y: 0, z: 0 },
    Point { x: 4, y: 4, z: 0 },
    Point { x: 0, y: 4, z: 0 },
    Point { x: 2, y: 2, z: 0 },
];

#[tactic(auto, unfolding(file_model::specs::Rules::is_body, file_model::specs::Lists::triangle_of, file_model::specs::Lists::point_at_place, grid_vertex::specs::Triangles::is_flat_triangle, file_model::specs::Spelling::origin_of))]
fn parts_1(alloc: Global) -> Result<FileParts, NoMemory>
    ensures { IfOk result (λ parts. IsPatchFile parts (file_text parts)) }
{
    let square = Body::from_lists(alloc, 0, &SQUARE, &[[0, 1, 2], [0, 2, 3]])?;
    let fan = Body::from_lists(
        alloc,
        1,
        &FAN,
        &[[0, 1, 4], [1, 2, 4], [2, 3, 4], [3, 0, 4]],
    )?;
    sample_parts(alloc, 1, square, fan)
}

#[tactic(auto, unfolding(file_model::specs::Rules::is_body, file_model::specs::Lists::triangle_of, file_model::specs::Lists::point_at_place, grid_vertex::specs::Triangles::is_flat_triangle, file_model::specs::Spelling::origin_of))]
fn parts_2(alloc: Global) -> Result<FileParts, NoMemory>
    ensures { IfOk result (λ parts. IsPatchFile parts (file_text parts)) }
{
    let square = Body::from_lists_2(alloc, 0, &SQUARE, &[[0, 1, 2], [0, 2, 3]])?;
    let fan = Body::from_lists_2(
        alloc,
        1,
        &FAN,
        &[[0, 1, 4], [1, 2, 4], [2, 3, 4], [3, 0, 4]],
    )?;
    sample_parts(alloc, 2, square, fan)
}

#[test]
fn writes_both_versions(rt: HostRuntime) -> Result<(), Fail> {
    let alloc = rt.alloc();
    let mut sink = MemorySink::with_room(alloc, 244, 244, Vec::new(alloc))?;
    write_file(&parts_1(alloc)?, &mut sink)?;
    assert_eq!(rt; sink.bytes(), sample().as_slice());
    let mut sink = MemorySink::with_room(alloc, 214, 244, Vec::new(alloc))?;
    write_file(&parts_2(alloc)?, &mut sink)?;
    assert_eq!(rt; sink.bytes(), sample_2().as_slice());
    Ok(())
}

#[test]
fn a_failed_write_leaves_a_front(rt: HostRuntime) -> Result<(), Fail> {
    let alloc = rt.alloc();
    let sample = sample();
    for written in 0..sample.len() {
        let parts = parts_1(alloc)?;
        let mut sink = MemorySink::with_room(alloc, 244, 1, vec![in alloc; written as u64 + 1]?)?;
        assert_eq!(rt; write_file(&parts, &mut sink), Err(WriteFault));
        assert_eq!(rt; sink.bytes(), &sample[..written]);
    }
    Ok(())
}
