//! The frame of one square, lines of each part, and a sink that gets full.

use crate::{Part, add_line, add_part, add_parts, begin_line, end_line, frame_text, line_text};
use grid_vertex::Point;
use patch_file::{Body, Try};
use sample_files::SQUARE_BASE;
use std::sync::Arc;
use std::test::Fail;
use view_outside::{MemorySink, WriteFault, write_all};

#[test]
#[tactic(auto, unfolding(file_model::specs::Rules::is_body, file_model::specs::Lists::triangle_of, file_model::specs::Lists::point_at_place, grid_vertex::specs::Triangles::is_flat_triangle))]
fn frame_of_a_square(rt: HostRuntime) -> Result<(), Fail> {
    let alloc = rt.alloc();
    let points = [
        Point { x: 0, y: 0, z: 0 },
        Point { x: 4, y: 0, z: 0 },
        Point { x: 4, y: 4, z: 0 },
        Point { x: 0, y: 4, z: 0 },
    ];
    let body = Body::from_lists(alloc, 0, &points, &[[0, 1, 2], [0, 2, 3]])?;
    let mut out = Vec::new(alloc);
    frame_text(
        alloc,
        0,
        1,
        &[0],
        &[],
        &[0],
        &[Arc::new(alloc, body)?],
        &mut out,
    )?;
    assert_eq!(rt; out.as_slice(), SQUARE_BASE.as_bytes());
    Ok(())
}

#[test]
fn parts_of_lines(rt: HostRuntime) -> Result<(), Fail> {
    let alloc = rt.alloc();
    let mut out = Vec::new(alloc);
    line_text(alloc, Part::Signed(-4), &mut out)?;
    line_text(alloc, Part::Word("turn"), &mut out)?;
    line_text(alloc, Part::Answer(Try { patch: 7, epoch: 3 }), &mut out)?;
    end_line(alloc, &mut out)?;
    line_text(alloc, Part::Number(18_446_744_073_709_551_615), &mut out)?;
    end_line(alloc, &mut out)?;
    add_line(
        alloc,
        "budget",
        &[Part::Number(144), Part::Number(0)],
        &mut out,
    )?;
    begin_line(alloc, "file", &mut out)?;
    add_parts(alloc, &[Part::Number(25), Part::Number(0)], &mut out)?;
    add_part(alloc, Part::Signed(-1), &mut out)?;
    end_line(alloc, &mut out)?;
    assert_eq!(rt;
        out.as_slice(),
        b"-4 turn 7:3\n18446744073709551615\nbudget 144 0\nfile 25 0 -1\n".as_slice()
    );
    Ok(())
}

#[test]
fn a_full_sink(rt: HostRuntime) -> Result<(), Fail> {
    let alloc = rt.alloc();
    let mut sink = MemorySink::with_room(alloc, 10, 7, Vec::new(alloc))?;
    assert_eq!(rt;
        write_all(SQUARE_BASE.as_bytes(), &mut sink),
        Err(WriteFault)
    );
    assert_eq!(rt; sink.bytes(), b"frame 0 1 ".as_slice());
    let mut sink = MemorySink::with_room(alloc, 200, 7, Vec::new(alloc))?;
    assert_eq!(rt; write_all(SQUARE_BASE.as_bytes(), &mut sink), Ok(()));
    assert_eq!(rt; sink.bytes(), SQUARE_BASE.as_bytes());
    Ok(())
}
