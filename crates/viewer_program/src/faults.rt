//! The numbers and arguments of a mesh's and a script's faults, as words of a line.

ghost use Rattle.std.specs.Prelude.{◌≡◌, [], ◌∷◌, OnOk, OnErr, decimal};
ghost use Rattle.std.specs.Fmt.{signed_decimal};
ghost use Rattle.text_model.specs.Lines.{Adds, decimals, spaced};
ghost use Rattle.text_model.specs.StatusText as texts;
ghost use Rattle.text_model.specs.FrameText.{point_words};
ghost use Rattle.mesh_model.specs.declared.refusals.DagFault.TheVariants.{Border};
ghost use Rattle.frame_writer.specs.Appending.{Begins};

use frame_writer::{Part, add_parts};
use grid_vertex::{NoMemory, Point};
use mesh_model::DagFault;
use std::alloc::Global;
use text_model::ScriptFault;

// Appends x, y and z, each behind a space.
fn add_point(alloc: Global, point: Point, out: &mut Vec<u8>) -> Result<(), NoMemory>
    ensures ok { OnOk result (Adds out.old.items out.new.items (spaced (point_words point))) }
    ensures err { OnErr result (Begins out.old.items out.new.items) }
{
    let parts = [
        Part::Signed(i128::from(point.x)),
        Part::Signed(i128::from(point.y)),
        Part::Signed(i128::from(point.z)),
    ];
    add_parts(alloc, &parts, out)
}

// Appends a border fault's number and its node.
fn add_border_node(alloc: Global, node: u32, out: &mut Vec<u8>) -> Result<(), NoMemory>
    ensures ok { OnOk result
        (Adds out.old.items out.new.items (spaced (decimal 25 ∷ decimal node ∷ []))) }
    ensures err { OnErr result (Begins out.old.items out.new.items) }
{
    let parts = [Part::Number(25), Part::Number(u64::from(node))];
    add_parts(alloc, &parts, out)
}

// Appends both nets, each behind a space.
fn add_nets(alloc: Global, net_in: i64, net_out: i64, out: &mut Vec<u8>) -> Result<(), NoMemory>
    ensures ok { OnOk result
        (Adds out.old.items out.new.items
        (spaced (signed_decimal net_in ∷ signed_decimal net_out ∷ []))) }
    ensures err { OnErr result (Begins out.old.items out.new.items) }
{
    let parts = [
        Part::Signed(i128::from(net_in)),
        Part::Signed(i128::from(net_out)),
    ];
    add_parts(alloc, &parts, out)
}

// Appends a border fault's number and arguments.
fn add_border(
    alloc: Global,
    node: u32,
    first: Point,
    second: Point,
    net_in: i64,
    net_out: i64,
    out: &mut Vec<u8>,
) -> Result<(), NoMemory>
    ensures ok { OnOk result
        (Adds out.old.items out.new.items
        (spaced (texts.mesh_fault_words (Border node first second net_in net_out)))) }
    ensures err { OnErr result (Begins out.old.items out.new.items) }
{
    add_border_node(alloc, node, out)?;
    add_point(alloc, first, out)?;
    add_point(alloc, second, out)?;
    add_nets(alloc, net_in, net_out, out)
}

/// Appends a mesh fault's number and arguments, each behind a space.
pub fn add_mesh_fault(alloc: Global, fault: DagFault, out: &mut Vec<u8>) -> Result<(), NoMemory>
    ensures ok { OnOk result
        (Adds out.old.items out.new.items (spaced (texts.mesh_fault_words fault))) }
    ensures err { OnErr result (Begins out.old.items out.new.items) }
{
    match fault {
        DagFault::NoRoot => add_parts(alloc, &[Part::Number(20)], out),
        DagFault::TwoRoots(a, b) => add_parts(
            alloc,
            &[
                Part::Number(21),
                Part::Number(u64::from(a)),
                Part::Number(u64::from(b)),
            ],
            out,
        ),
        DagFault::Cycle(node) => add_parts(
            alloc,
            &[Part::Number(22), Part::Number(u64::from(node))],
            out,
        ),
        DagFault::ErrorNotNested(patch) => add_parts(
            alloc,
            &[Part::Number(23), Part::Number(u64::from(patch))],
            out,
        ),
        DagFault::BallNotNested(patch) => add_parts(
            alloc,
            &[Part::Number(24), Part::Number(u64::from(patch))],
            out,
        ),
        DagFault::Border(node, a, b, net_in, net_out) => {
            add_border(alloc, node, a, b, net_in, net_out, out)
        }
    }
}

/// Appends a script fault's number and arguments, each behind a space.
pub fn add_script_fault(
    alloc: Global,
    fault: ScriptFault,
    out: &mut Vec<u8>,
) -> Result<(), NoMemory>
    ensures ok { OnOk result
        (Adds out.old.items out.new.items (spaced (decimals (texts.script_fault_numbers fault)))) }
    ensures err { OnErr result (Begins out.old.items out.new.items) }
{
    match fault {
        ScriptFault::TooLong => add_parts(alloc, &[Part::Number(40)], out),
        ScriptFault::NotText(line) => add_parts(
            alloc,
            &[Part::Number(41), Part::Number(u64::from(line))],
            out,
        ),
        ScriptFault::UnknownWord(line) => add_parts(
            alloc,
            &[Part::Number(42), Part::Number(u64::from(line))],
            out,
        ),
        ScriptFault::WrongCount(line) => add_parts(
            alloc,
            &[Part::Number(43), Part::Number(u64::from(line))],
            out,
        ),
        ScriptFault::Number(line, word) => {
            add_parts(
                alloc,
                &[
                    Part::Number(44),
                    Part::Number(u64::from(line)),
                    Part::Number(u64::from(word)),
                ],
                out,
            )
        }
        ScriptFault::SessionOut(line) => add_parts(
            alloc,
            &[Part::Number(45), Part::Number(u64::from(line))],
            out,
        ),
        ScriptFault::AlreadyThere(line) => add_parts(
            alloc,
            &[Part::Number(46), Part::Number(u64::from(line))],
            out,
        ),
        ScriptFault::NotThere(line) => add_parts(
            alloc,
            &[Part::Number(47), Part::Number(u64::from(line))],
            out,
        ),
        ScriptFault::NoView(line) => add_parts(
            alloc,
            &[Part::Number(48), Part::Number(u64::from(line))],
            out,
        ),
        ScriptFault::NoTier(line) => add_parts(
            alloc,
            &[Part::Number(49), Part::Number(u64::from(line))],
            out,
        ),
        ScriptFault::PlayOnly(line) => add_parts(
            alloc,
            &[Part::Number(50), Part::Number(u64::from(line))],
            out,
        ),
    }
}
