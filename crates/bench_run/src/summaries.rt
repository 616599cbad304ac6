//! What a bench run counts, and its summary.

ghost use Rattle.std.specs.Prelude.{◌≡◌, IfOk, OnOk};
ghost use Rattle.text_model.specs.BenchText.{bench_text, bench_file_line, bench_base_line, bench_frame_line};
ghost use Rattle.text_model.specs.Lines.{Adds};
ghost use Rattle.bench_run.specs.Counts.{counts_seen, frame_seen};

use frame_writer::{Part, add_line};
use grid_vertex::NoMemory;
use std::alloc::Global;
use view_machine::FrameSize;

/// What a bench run counts: the strip's columns, its file, its base, the turns until the tier settled, and the
/// frame behind that.
#[derive(Clone, Copy, Debug, PartialEq, Eq)]
pub struct RunCounts {
    pub columns: u32,
    /// The length of the file in bytes.
    pub file_bytes: u64,
    pub file_nodes: u32,
    pub file_patches: u32,
    pub base_patches: u64,
    pub base_triangles: u64,
    pub base_open: u64,
    pub turns: u64,
    pub frame: FrameSize,
}

/// The five lines that tell them.
#[tactic(auto, unfolding(text_model::specs::BenchText::bench_text))]
pub fn summary_text(alloc: Global, counts: RunCounts) -> Result<Vec<u8>, NoMemory>
    ensures { IfOk result (λ text. text.items ≡ bench_text (counts_seen counts)) }
{
    let mut text = Vec::new(alloc);
    add_line(
        alloc,
        "bench",
        &[Part::Number(u64::from(counts.columns))],
        &mut text,
    )?;
    add_file_line(alloc, counts, &mut text)?;
    add_base_line(alloc, counts, &mut text)?;
    add_line(alloc, "settle", &[Part::Number(counts.turns)], &mut text)?;
    add_frame_line(alloc, counts.frame, &mut text)?;
    Ok(text)
}

// The line of the strip's file.
#[tactic(auto, unfolding(text_model::specs::BenchText::bench_file_line))]
fn add_file_line(alloc: Global, counts: RunCounts, out: &mut Vec<u8>) -> Result<(), NoMemory>
    ensures { OnOk result (Adds out.old.items out.new.items (bench_file_line (counts_seen counts))) }
{
    let parts = [
        Part::Number(counts.file_bytes),
        Part::Word("nodes"),
        Part::Number(u64::from(counts.file_nodes)),
        Part::Word("patches"),
        Part::Number(u64::from(counts.file_patches)),
    ];
    add_line(alloc, "file", &parts, out)
}

// The line of the base.
#[tactic(auto, unfolding(text_model::specs::BenchText::bench_base_line))]
fn add_base_line(alloc: Global, counts: RunCounts, out: &mut Vec<u8>) -> Result<(), NoMemory>
    ensures { OnOk result (Adds out.old.items out.new.items (bench_base_line (counts_seen counts))) }
{
    let parts = [
        Part::Word("patches"),
        Part::Number(counts.base_patches),
        Part::Word("triangles"),
        Part::Number(counts.base_triangles),
        Part::Word("open"),
        Part::Number(counts.base_open),
    ];
    add_line(alloc, "base", &parts, out)
}

// The line of the frame.
#[tactic(auto, unfolding(text_model::specs::BenchText::bench_frame_line))]
fn add_frame_line(alloc: Global, frame: FrameSize, out: &mut Vec<u8>) -> Result<(), NoMemory>
    ensures { OnOk result (Adds out.old.items out.new.items (bench_frame_line (frame_seen frame))) }
{
    let parts = [
        Part::Word("nodes"),
        Part::Number(frame.nodes),
        Part::Word("patches"),
        Part::Number(frame.patches),
        Part::Word("triangles"),
        Part::Number(frame.triangles),
        Part::Word("open"),
        Part::Number(frame.open_edges),
    ];
    add_line(alloc, "frame", &parts, out)
}
