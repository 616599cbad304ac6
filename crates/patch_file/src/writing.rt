//! Writing a patch file.

ghost use Rattle.std.specs.Prelude.{◌≤◌, ◌++◌, OnErr};
ghost use Rattle.std.specs.List.{flat_map};
ghost use Rattle.file_model.specs.Spelling.{node_text, field_text, index_text, file_text};
ghost use Rattle.file_model.specs.Rules.{IsIndex, IsPatchFile};
ghost use Rattle.view_outside.specs.Faults.{Rose};
ghost use Rattle.view_outside.specs.Written.{Wrote};
ghost use Rattle.patch_file.specs.Batches.{Sends};

use crate::batches::Batch;
use crate::file_parts::FileParts;
use crate::front_bytes::{field_bytes, header_bytes, node_bytes};
use file_model::{Node, PatchField};
use patch_body::Body;
use view_outside::{Sink, WriteFault};

/// Writes the patch file of these parts, or a proper beginning of it where the sink fails.
pub fn write_file<O: Sink>(parts: &FileParts, sink: &mut O) -> Result<(), WriteFault>
    requires { IsPatchFile parts.now (file_text parts.now) }
    ensures text { Wrote result (O.written sink.old) (O.written sink.new) (file_text parts.now) }
    ensures later { O.faults sink.old ≤ O.faults sink.new }
    ensures cause { OnErr result (Rose (O.faults sink.old) (O.faults sink.new)) }
{
    let mut batch = Batch::new();
    add_index(parts, &mut batch, sink)?;
    add_bodies(&parts.bodies, &mut batch, sink)?;
    batch.send(sink)
}

/// What stands before the bodies.
fn add_index<O: Sink>(parts: &FileParts, batch: &mut Batch, sink: &mut O) -> Result<(), WriteFault>
    requires { IsIndex parts.now.index }
    ensures text { Sends result (O.written sink.old) (O.written sink.new) batch.old batch.new
        (index_text parts.now.index) }
    ensures later { O.faults sink.old ≤ O.faults sink.new }
    ensures cause { OnErr result (Rose (O.faults sink.old) (O.faults sink.new)) }
{
    let nodes = parts.nodes.as_slice();
    let fields = parts.fields.as_slice();
    let header = header_bytes(parts.version, nodes.len() as u32, fields.len() as u32);
    batch.add(&header, sink)?;
    add_units(nodes, fields, batch, sink)
}

/// The nodes and then the fields.
fn add_units<O: Sink>(
    nodes: &[Node],
    fields: &[PatchField],
    batch: &mut Batch,
    sink: &mut O,
) -> Result<(), WriteFault>
    ensures text { Sends result (O.written sink.old) (O.written sink.new) batch.old batch.new
        (flat_map node_text nodes.now ++ flat_map field_text fields.now) }
    ensures later { O.faults sink.old ≤ O.faults sink.new }
    ensures cause { OnErr result (Rose (O.faults sink.old) (O.faults sink.new)) }
{
    add_nodes(nodes, batch, sink)?;
    add_fields(fields, batch, sink)
}

fn add_nodes<O: Sink>(nodes: &[Node], batch: &mut Batch, sink: &mut O) -> Result<(), WriteFault>
    ensures text { Sends result (O.written sink.old) (O.written sink.new) batch.old batch.new
        (flat_map node_text nodes.now) }
    ensures later { O.faults sink.old ≤ O.faults sink.new }
    ensures cause { OnErr result (Rose (O.faults sink.old) (O.faults sink.new)) }
{
    for node in nodes {
        batch.add(&node_bytes(node), sink)?;
    }
    Ok(())
}

fn add_fields<O: Sink>(
    fields: &[PatchField],
    batch: &mut Batch,
    sink: &mut O,
) -> Result<(), WriteFault>
    ensures text { Sends result (O.written sink.old) (O.written sink.new) batch.old batch.new
        (flat_map field_text fields.now) }
    ensures later { O.faults sink.old ≤ O.faults sink.new }
    ensures cause { OnErr result (Rose (O.faults sink.old) (O.faults sink.new)) }
{
    for field in fields {
        batch.add(&field_bytes(field), sink)?;
    }
    Ok(())
}

fn add_bodies<O: Sink>(bodies: &[Body], batch: &mut Batch, sink: &mut O) -> Result<(), WriteFault>
    ensures text { Sends result (O.written sink.old) (O.written sink.new) batch.old batch.new
        (flat_map (λ body. body.bytes) bodies.now) }
    ensures later { O.faults sink.old ≤ O.faults sink.new }
    ensures cause { OnErr result (Rose (O.faults sink.old) (O.faults sink.new)) }
{
    for body in bodies {
        batch.add(body.bytes(), sink)?;
    }
    Ok(())
}
