//! Lists that say nothing yet.

ghost use Rattle.std.specs.Prelude.{◌≡◌, replicate, None, IfOk};

use grid_vertex::NoMemory;
use std::alloc::Global;

/// A list of so many blanks.
pub fn blank_list(alloc: Global, length: usize) -> Result<Vec<Option<u32>>, NoMemory>
    ensures { IfOk result (λ list. list.items ≡ replicate length None) }
{
    let list = vec![in alloc; None; length]?;
    Ok(list)
}
