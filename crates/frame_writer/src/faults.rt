//! The numbers and arguments of a file's faults, as words of a line.

ghost use Rattle.std.specs.Prelude.{◌≡◌, OnOk, OnErr};
ghost use Rattle.text_model.specs.Lines.{Adds, spaced};
ghost use Rattle.text_model.specs.StatusText.{file_fault_words};

use crate::lines::add_parts;
use crate::parts::Part;
use file_model::FileFault;
use grid_vertex::NoMemory;
use std::alloc::Global;

/// Appends a file fault's number and arguments, each behind a space.
pub fn add_file_fault(alloc: Global, fault: FileFault, out: &mut Vec<u8>) -> Result<(), NoMemory>
    ensures ok { OnOk result (Adds out.old.items out.new.items (spaced (file_fault_words fault))) }
    ensures err { OnErr result (out.new.items ≡ out.old.items) }
{
    match fault {
        FileFault::Magic => add_parts(alloc, &[Part::Number(1)], out),
        FileFault::Version(found) => add_parts(
            alloc,
            &[Part::Number(2), Part::Number(u64::from(found))],
            out,
        ),
        FileFault::NotZero => add_parts(alloc, &[Part::Number(3)], out),
        FileFault::NodeCount(count) => add_parts(
            alloc,
            &[Part::Number(4), Part::Number(u64::from(count))],
            out,
        ),
        FileFault::PatchCount(count) => add_parts(
            alloc,
            &[Part::Number(5), Part::Number(u64::from(count))],
            out,
        ),
        FileFault::Truncated(length) => add_parts(
            alloc,
            &[Part::Number(6), Part::Number(length)],
            out,
        ),
        FileFault::Trailing(seen) => add_parts(alloc, &[Part::Number(7), Part::Number(seen)], out),
        FileFault::NodeOutOfGrid(node) => add_parts(
            alloc,
            &[Part::Number(8), Part::Number(u64::from(node))],
            out,
        ),
        FileFault::ArcEnd(patch) => add_parts(
            alloc,
            &[Part::Number(9), Part::Number(u64::from(patch))],
            out,
        ),
        FileFault::BodyCount(patch) => add_parts(
            alloc,
            &[Part::Number(10), Part::Number(u64::from(patch))],
            out,
        ),
        FileFault::PointOutOfGrid(patch, point) => {
            add_parts(
                alloc,
                &[
                    Part::Number(11),
                    Part::Number(u64::from(patch)),
                    Part::Number(u64::from(point)),
                ],
                out,
            )
        }
        FileFault::CornerIndex(patch, triangle, corner) => {
            add_parts(
                alloc,
                &[
                    Part::Number(12),
                    Part::Number(u64::from(patch)),
                    Part::Number(u64::from(triangle)),
                    Part::Number(u64::from(corner)),
                ],
                out,
            )
        }
        FileFault::Flat(patch, triangle) => {
            add_parts(
                alloc,
                &[
                    Part::Number(13),
                    Part::Number(u64::from(patch)),
                    Part::Number(u64::from(triangle)),
                ],
                out,
            )
        }
        FileFault::Loose(patch, axis) => {
            add_parts(
                alloc,
                &[
                    Part::Number(14),
                    Part::Number(u64::from(patch)),
                    Part::Number(u64::from(axis)),
                ],
                out,
            )
        }
    }
}
