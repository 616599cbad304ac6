//! The viewer: commands over patch files, and the program that runs them.
//!
//! `docs/TEXTS.md` has what is written, and `docs/FORMAT.md` the patch file.
#![tactic(auto)]

mod commands;
mod converts;
mod faults;
mod living;
mod meshes;
mod opening;
mod outputs;
mod playing;
mod plays;
mod refusals;
mod run;
mod statuses;
mod strips;
mod telling;
#[cfg(test)]
mod tests;
mod words;

use run::run_still;
use std::alloc::AllocError;
use std::process::ExitCode;
use telling::tell;
use text_model::Status;
use view_outside::{FolderStore, ReadAhead, StdSink, StdSource};
use words::program_words;

// Runs the command over the folder's files and the standard streams.
fn run_program(rt: &HostRuntime) -> Result<Status, AllocError> {
    let words = match program_words(rt, rt.alloc()) {
        Ok(words) => words,
        Err(status) => return Ok(status),
    };
    let mut store = ReadAhead::new(rt.alloc(), FolderStore::new(rt, rt.alloc())?);
    // Neither stream has a buffer: a driver gets its answer before it sends the next line.
    let mut script = StdSource::new(rt.stdin());
    let mut sink = StdSink::new(rt.stdout());
    Ok(run_still(rt.alloc(), &words, &mut store, &mut script, &mut sink))
}

fn main(rt: HostRuntime) -> ExitCode {
    let status = run_program(&rt).unwrap_or(Status::Memory);
    ExitCode::from(tell(rt.alloc(), &status, &mut StdSink::new(rt.stderr())))
}
