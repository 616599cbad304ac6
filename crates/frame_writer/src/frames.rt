//! The text of a frame.

ghost use Rattle.std.specs.Prelude.{◌≡◌, ◌≤◌, true, List, [], ◌++◌, length, map, OnOk, OnErr};
ghost use Rattle.std.specs.Arc.{arc_value};
ghost use Rattle.edge_chain.specs.Chains.{IsNetOf};
ghost use Rattle.file_model.specs.Lists.{SeenBody};
ghost use Rattle.text_model.specs.FrameText.{head_line, cut_line, tries_line, patches_line};
ghost use Rattle.text_model.specs.Lines.{Adds, begins_line, line_of, decimals};
ghost use Rattle.frame_writer.specs.Appending.{Begins};
ghost use Rattle.frame_writer.specs.Frames.{AreBodiesOf, AddsFrame, frame_of, triangles_in};

use crate::bodies::{edges_of, write_bodies};
use crate::lines::{begin_line, end_line, write_line};
use crate::parts::Part;
use crate::refused::undo_if_refused;
use crate::words::{write_number_words, write_try_words};
use edge_chain::EdgeChain;
use grid_vertex::NoMemory;
use patch_file::{Body, Try};
use std::alloc::Global;
use std::sync::Arc;

/// Appends the line of whose frame it is, of its number, and of how many nodes, patches, triangles and open
/// edges it has.
#[tactic(auto, unfolding(text_model::specs::FrameText::head_line))]
fn write_head(
    alloc: Global,
    session: u32,
    number: u64,
    cut: &[u32],
    patches: &[u32],
    chain: &EdgeChain,
    out: &mut Vec<u8>,
) -> Result<(), NoMemory>
    // The tries aren't told in this line.
    ensures ok { OnOk result
        ((bodies : List SeenBody) → IsNetOf (triangles_in bodies) chain.now
        → Adds out.old.items out.new.items
        (head_line (length chain.now.entries)
        (frame_of session number cut.now [] patches.now bodies))) }
    ensures err { OnErr result (Begins out.old.items out.new.items) }
{
    let counts = [
        Part::Number(u64::from(session)),
        Part::Number(number),
        Part::Word("nodes"),
        Part::Number(cut.len() as u64),
        Part::Word("patches"),
        Part::Number(patches.len() as u64),
        Part::Word("triangles"),
        Part::Number(chain.triangles()),
        Part::Word("open"),
        Part::Number(chain.open_edges()),
    ];
    write_line(alloc, "frame", &counts, out)
}

/// Appends the line of this word and these numbers.
fn write_numbers(
    alloc: Global,
    word: &str,
    numbers: &[u32],
    out: &mut Vec<u8>,
) -> Result<(), NoMemory>
    ensures ok { OnOk result (Adds out.old.items out.new.items
        (line_of word.now (decimals numbers.now))) }
    ensures err { OnErr result (Begins out.old.items out.new.items) }
{
    begin_line(alloc, word, out)?;
    write_number_words(numbers, out)?;
    end_line(alloc, out)
}

/// Appends the round's answers as a line.
#[tactic(auto, unfolding(text_model::specs::FrameText::tries_line))]
fn write_tries(alloc: Global, tries: &[Try], out: &mut Vec<u8>) -> Result<(), NoMemory>
    ensures ok { OnOk result (Adds out.old.items out.new.items (tries_line tries.now)) }
    ensures err { OnErr result (Begins out.old.items out.new.items) }
{
    begin_line(alloc, "tries", out)?;
    write_try_words(tries, out)?;
    end_line(alloc, out)
}

/// Appends the lines of a frame's cut, answers and patches, or a beginning of them.
pub fn write_front(
    alloc: Global,
    cut: &[u32],
    tries: &[Try],
    patches: &[u32],
    out: &mut Vec<u8>,
) -> Result<(), NoMemory>
    ensures ok { OnOk result (Adds out.old.items out.new.items
        (cut_line cut.now ++ (tries_line tries.now ++ patches_line patches.now))) }
    ensures err { OnErr result (Begins out.old.items out.new.items) }
{
    write_numbers(alloc, "cut", cut, out)?;
    write_tries(alloc, tries, out)?;
    write_numbers(alloc, "patches", patches, out)
}

/// Appends the frame's text, or a beginning of it.
fn write_frame(
    alloc: Global,
    session: u32,
    number: u64,
    cut: &[u32],
    tries: &[Try],
    patches: &[u32],
    bodies: &[Arc<Body>],
    out: &mut Vec<u8>,
) -> Result<(), NoMemory>
    requires begins { begins_line out.old.items ≡ true }
    requires count { length patches.now ≤ 65536 }
    requires bodies { AreBodiesOf patches.now (map arc_value bodies.now) }
    ensures ok { OnOk result (AddsFrame out.old.items out.new.items
        (frame_of session number cut.now tries.now patches.now (map arc_value bodies.now))) }
    ensures ended { OnOk result (begins_line out.new.items ≡ true) }
    ensures err { OnErr result (Begins out.old.items out.new.items) }
{
    let chain = edges_of(alloc, bodies)?;
    write_head(alloc, session, number, cut, patches, &chain, out)?;
    write_front(alloc, cut, tries, patches, out)?;
    write_bodies(alloc, bodies, out)
}

/// Appends the frame's text. Its open edges are counted in the sums of its triangles' edges. A call that is
/// refused leaves the text as it was.
pub fn frame_text(
    alloc: Global,
    session: u32,
    number: u64,
    cut: &[u32],
    tries: &[Try],
    patches: &[u32],
    bodies: &[Arc<Body>],
    out: &mut Vec<u8>,
) -> Result<(), NoMemory>
    requires begins { begins_line out.old.items ≡ true }
    requires count { length patches.now ≤ 65536 }
    requires bodies { AreBodiesOf patches.now (map arc_value bodies.now) }
    ensures ok { OnOk result (AddsFrame out.old.items out.new.items
        (frame_of session number cut.now tries.now patches.now (map arc_value bodies.now))) }
    ensures ended { OnOk result (begins_line out.new.items ≡ true) }
    ensures err { OnErr result (out.new.items ≡ out.old.items) }
{
    let length = out.len();
    let written = write_frame(alloc, session, number, cut, tries, patches, bodies, out);
    undo_if_refused(written, length, out)
}
