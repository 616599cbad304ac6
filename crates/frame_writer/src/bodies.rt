//! The triangles of bodies.

ghost use Rattle.std.specs.Prelude.{◌≤◌, length, map, OnOk, OnErr, IfOk};
ghost use Rattle.std.specs.Arc.{arc_value};
ghost use Rattle.std.specs.List.{flat_map};
ghost use Rattle.file_model.specs.Lists.{triangles_of};
ghost use Rattle.edge_chain.specs.Chains.{IsNetOf};
ghost use Rattle.text_model.specs.FrameText.{triangle_line};
ghost use Rattle.text_model.specs.Lines.{Adds};
ghost use Rattle.frame_writer.specs.Appending.{Begins};
ghost use Rattle.frame_writer.specs.Frames.{triangles_in};

use crate::body_lines::{find_texts, write_lines};
use crate::point_texts::PointText;
use body_edges::{Border, add_body};
use edge_chain::EdgeChain;
use grid_vertex::NoMemory;
use patch_file::Body;
use std::alloc::Global;
use std::sync::Arc;

/// The sums of the edges of the bodies' triangles, gathered.
pub fn edges_of(alloc: Global, bodies: &[Arc<Body>]) -> Result<EdgeChain, NoMemory>
    requires { length bodies.now ≤ 65536 }
    ensures { IfOk result (λ chain. IsNetOf (triangles_in (map arc_value bodies.now)) chain) }
{
    let mut chain = EdgeChain::new(alloc);
    let mut border = Border::new(alloc);
    for body in bodies {
        add_body(&mut chain, &mut border, body)?;
    }
    chain.gather();
    Ok(chain)
}

/// Appends the lines of the body's triangles. The texts of its points take the place of those that stood in
/// `texts`.
fn write_body(body: &Body, texts: &mut Vec<PointText>, out: &mut Vec<u8>) -> Result<(), NoMemory>
    ensures ok { OnOk result (Adds out.old.items out.new.items
        (flat_map triangle_line (triangles_of body.now.lists))) }
    ensures err { OnErr result (Begins out.old.items out.new.items) }
{
    find_texts(body, texts)?;
    write_lines(body, texts, out)
}

/// Appends the lines of the bodies' triangles.
pub fn write_bodies(alloc: Global, bodies: &[Arc<Body>], out: &mut Vec<u8>) -> Result<(), NoMemory>
    ensures ok { OnOk result (Adds out.old.items out.new.items
        (flat_map triangle_line (triangles_in (map arc_value bodies.now)))) }
    ensures err { OnErr result (Begins out.old.items out.new.items) }
{
    let mut texts = Vec::new(alloc);
    for body in bodies {
        write_body(body, &mut texts, out)?;
    }
    Ok(())
}
