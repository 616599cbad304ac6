//! The strip of two columns: what is kept after each of its bodies.

ghost use Rattle.std.specs.Prelude.{◌≡◌, pos, length, IfOk};
ghost use Rattle.file_model.specs.Rules.{IsPatchFile};
ghost use Rattle.file_model.specs.Spelling.{file_text};
ghost use Rattle.view_outside.specs.Files.{HasFile};

use super::*;
use bodies::{high_half, low_half, point, seam, square};
use grid_vertex::Ball;
use patch_file::{Body, FileParts, Index, Node, PatchField, write_file};
use view_outside::MemorySink;

mod bodies;

/// A node whose centre is (x, y, 0).
fn node(x: i32, y: i32, radius: u32, error: u32) -> Node
    ensures { result
        ≡ record {
          ball = record { centre = record { x = x; y = y; z = pos 0 }; radius = radius };
          error = error;
        } }
{
    let centre = point(x, y);
    Node {
        ball: Ball { centre, radius },
        error,
    }
}

/// The arc of a patch, and how many points and triangles it has.
fn field(tail: u32, head: u32, points: u16, triangles: u16) -> PatchField
    ensures { result ≡ record { tail = tail; head = head; points = points; triangles = triangles } }
{
    PatchField {
        tail,
        head,
        points,
        triangles,
    }
}

/// The strip: a root, a node for each column, one for the seam, and the sink.
#[tactic(auto, unfolding(file_model::specs::Rules::are_bodies))]
fn strip_parts(alloc: Global) -> Result<FileParts, NoMemory>
    ensures { IfOk result (λ parts. IsPatchFile parts (file_text parts)) }
{
    let mut parts = FileParts::new(alloc);
    parts.add_node(node(4, 2, 9, 128))?;
    parts.add_node(node(2, 2, 7, 64))?;
    parts.add_node(node(6, 2, 7, 48))?;
    parts.add_node(node(4, 2, 5, 16))?;
    parts.add_node(node(0, 0, 0, 0))?;
    parts.add_patch(field(0, 1, 4, 2), square(alloc, 0, 0)?)?;
    parts.add_patch(field(0, 2, 4, 2), square(alloc, 1, 4)?)?;
    parts.add_patch(field(1, 4, 4, 2), low_half(alloc, 2, 0)?)?;
    parts.add_patch(field(1, 3, 4, 2), high_half(alloc, 3, 0)?)?;
    parts.add_patch(field(2, 3, 4, 2), low_half(alloc, 4, 4)?)?;
    parts.add_patch(field(2, 4, 4, 2), high_half(alloc, 5, 4)?)?;
    parts.add_patch(field(3, 4, 7, 6), seam(alloc, 6)?)?;
    Ok(parts)
}

fn bodies_of<S: Store>(
    alloc: Global,
    index: &Index,
    store: &mut S,
) -> Result<Vec<Body>, ReadRefusal>
    requires { HasFile (S.files store.old) 0 }
    ensures { IfOk result (λ bodies. length bodies.items ≡ length index.now.fields) }
{
    let mut bodies = Vec::new(alloc);
    for patch in 0..index.patch_count() {
        bodies.push(read_body(alloc, index, store, 0, patch)?)?;
    }
    Ok(bodies)
}

/// How many pairs are kept and how many nodes are open after each body, and the verdict.
fn run(
    alloc: Global,
    index: Index,
    bodies: &[Body],
) -> Result<(Vec<(u64, u32)>, Result<Mesh, DagFault>), NoMemory>
    requires { length bodies.now ≡ length index.fields }
{
    let mut checker = Checker::begin(alloc, index)?;
    let mut counts = Vec::new(alloc);
    for body in bodies {
        checker = checker.add_body(body)?;
        counts.push((checker.kept_pairs(), checker.open_nodes()))?;
    }
    Ok((counts, checker.finish()))
}

#[test]
fn sums_are_kept_while_a_node_is_open(rt: HostRuntime) -> Result<(), Fail> {
    let alloc = rt.alloc();
    let mut sink = MemorySink::with_room(alloc, 680, 680, Vec::new(alloc))?;
    write_file(&strip_parts(alloc)?, &mut sink)?;
    assert_eq!(rt; sink.bytes().len(), 680);
    let mut store = store_of(alloc, sink.bytes())?;
    let index = read_index(alloc, &mut store, 0)?;
    let bodies = bodies_of(alloc, &index, &mut store)?;
    let (counts, verdict) = run(alloc, index, &bodies)?;
    assert_eq!(rt;
        counts.as_slice(),
        [(4, 1), (8, 2), (12, 2), (8, 2), (14, 2), (6, 1), (0, 0)].as_slice()
    );
    assert!(rt; verdict.is_ok());
    Ok(())
}
