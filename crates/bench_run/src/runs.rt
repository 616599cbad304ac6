//! A bench run: the lines that it makes, and what they come to.

ghost use Rattle.std.specs.Prelude.{◌≡◌, ◌%◌, ◌≤◌, length, IfOk, OnOk};
ghost use Rattle.accepted_mesh.specs.MeshView.{IsMeshOf};
ghost use Rattle.cache_chain.specs.declared.refusals.StartRefusal.TheVariants as starts;
ghost use Rattle.strip_laws.specs.declared.limits.TheConstants.{MOST_COLUMNS};
ghost use Rattle.bench_laws.specs.BenchRuns.{bench_file, bench_view, AreBenchCounts, IsBenchText};
ghost use Rattle.bench_run.specs.Begun.{OpensBench, HasBegun};
ghost use Rattle.bench_run.specs.Counts.{counts_seen};
ghost use Rattle.bench_run.specs.Ran.{HasSettled, RunsBench};
ghost use Rattle.bench_run.specs.StripChecks.{strip_files};

use crate::bases::base_triangles;
use crate::strips::{strip_mesh, strip_store};
use crate::summaries::{RunCounts, summary_text};
use crate::sure::SureStore;
use accepted_mesh::Mesh;
use cache_chain::open_tiers;
use grid_vertex::{NoMemory, Point};
use round_model::View;
use std::alloc::Global;
use view_machine::{EmptyRun, FrameSize, Machine, StartRefusal};

// Only want of memory refuses a tier that has room for all over a store that never fails.
fn memory_of_start(refusal: StartRefusal) -> NoMemory
    requires { refusal ≡ starts.Memory }
{
    match refusal {
        StartRefusal::Memory => NoMemory,
        StartRefusal::Budget { .. } => unreachable!(),
        StartRefusal::ReadFault => unreachable!(),
        StartRefusal::Changed(_, _) => unreachable!(),
    }
}

// The machine over the strip's file, with one tier that has room for all bodies.
fn open_machine<'a>(
    alloc: Global,
    mesh: &'a Mesh,
    store: &'a mut SureStore,
    columns: u32,
) -> Result<Machine<'a, SureStore>, NoMemory>
    requires least { 2 ≤ columns }
    requires most { columns ≤ MOST_COLUMNS }
    requires mesh { IsMeshOf (bench_file columns) mesh.now }
    requires files { store.old.files ≡ strip_files columns }
    ensures { IfOk result (OpensBench columns) }
{
    let first = EmptyRun::new(alloc, mesh)?;
    let budgets = [300 * u64::from(columns) - 120];
    match open_tiers(alloc, mesh, &budgets, 1, store, 0) {
        Ok(tiers) => Ok(Machine::over_tiers(first, mesh, tiers, store, 0)),
        Err(refusal) => Err(memory_of_start(refusal)),
    }
}

// From the strip's middle, a view that wants all that there is.
fn view_of_all(columns: u32) -> View
    requires { columns ≤ MOST_COLUMNS }
    ensures { result ≡ bench_view columns }
{
    let eye = Point {
        x: 2 * columns as i32,
        y: 2,
        z: 0,
    };
    match View::new(eye, 65536, 1, u32::MAX) {
        Some(view) => view,
        None => unreachable!(),
    }
}

// Session 1 opens with that view.
fn begin(alloc: Global, machine: &mut Machine<SureStore>, columns: u32) -> Result<(), NoMemory>
    requires most { columns ≤ MOST_COLUMNS }
    requires opens { OpensBench columns machine.old }
    ensures { OnOk result (HasBegun columns machine.old machine.new) }
{
    let _ = machine.open(alloc, 1)?;
    let _ = machine.view(alloc, 1, view_of_all(columns))?;
    Ok(())
}

// The tier settles, and its turns are counted.
fn settle(alloc: Global, machine: &mut Machine<SureStore>) -> Result<u64, NoMemory>
    ensures { IfOk result (HasSettled machine.old machine.new) }
{
    let mut log = Vec::new(alloc);
    machine.settle_tiers(alloc, &mut log)?;
    Ok(log.len() as u64)
}

// The four lines, one after the other: how many turns the settling made, and how large the frame is.
fn run_lines(
    alloc: Global,
    machine: &mut Machine<SureStore>,
    columns: u32,
) -> Result<(u64, FrameSize), NoMemory>
    requires least { 2 ≤ columns }
    requires most { columns ≤ MOST_COLUMNS }
    requires opens { OpensBench columns machine.old }
    ensures { IfOk result (λ ran. RunsBench columns ran.0 ran.1) }
{
    begin(alloc, machine, columns)?;
    let turns = settle(alloc, machine)?;
    let frame = machine.count_frame(alloc, 1)?;
    Ok((turns, frame))
}

// The run over the strip's file.
fn run_strip(
    alloc: Global,
    mesh: &Mesh,
    store: &mut SureStore,
    columns: u32,
) -> Result<(u64, FrameSize), NoMemory>
    requires least { 2 ≤ columns }
    requires most { columns ≤ MOST_COLUMNS }
    requires mesh { IsMeshOf (bench_file columns) mesh.now }
    requires files { store.old.files ≡ strip_files columns }
    ensures { IfOk result (λ ran. RunsBench columns ran.0 ran.1) }
{
    let mut machine = open_machine(alloc, mesh, store, columns)?;
    run_lines(alloc, &mut machine, columns)
}

// What is counted of the strip's mesh and of a run over it.
fn counts_of(mesh: &Mesh, columns: u32, turns: u64, frame: FrameSize) -> RunCounts
    requires least { 2 ≤ columns }
    requires most { columns ≤ MOST_COLUMNS }
    requires mesh { IsMeshOf (bench_file columns) mesh.now }
    requires runs { RunsBench columns turns frame }
    ensures { AreBenchCounts columns (counts_seen result) }
{
    let index = mesh.index();
    RunCounts {
        columns,
        file_bytes: index.file_length(),
        file_nodes: index.node_count(),
        file_patches: index.patch_count(),
        base_patches: mesh.base().len() as u64,
        base_triangles: base_triangles(index, mesh.root()),
        base_open: mesh.base_open(),
        turns,
        frame,
    }
}

/// The summary of a bench run over the strip of so many columns, an even number of 2 to 16,384.
///
/// The strip is made in memory and checked. One tier with room for all bodies opens, session 1 opens with a view
/// that wants all, the tier settles, and one round is finished.
pub fn bench(alloc: Global, columns: u32) -> Result<Vec<u8>, NoMemory>
    requires even { columns % 2 ≡ 0 }
    requires least { 2 ≤ columns }
    requires most { columns ≤ MOST_COLUMNS }
    ensures { IfOk result (λ text. IsBenchText columns text.items) }
{
    let mut store = strip_store(alloc, columns)?;
    let mesh = strip_mesh(alloc, &mut store, columns)?;
    let (turns, frame) = run_strip(alloc, &mesh, &mut store, columns)?;
    summary_text(alloc, counts_of(&mesh, columns, turns, frame))
}
