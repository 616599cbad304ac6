//! The rule of the words.

use crate::knowledge::View;
use atomic_table::TableRule;
use std::alloc::Global;

/// The rule of a table that is made with these epochs, each odd for a pinned patch and else even.
pub struct WordRule;

impl TableRule<(), View, Vec<u32, Global>> for WordRule {
    ghost use Rattle.std.specs.Prelude.{vec_len};
    ghost use Rattle.token_table.specs.WordRule.{Holds, opened_at};
    ghost use Rattle.token_table.specs.declared.knowledge.View.TheVariants.{Keeper};

    ghost holds = { λ epochs. Holds (vec_len epochs) };

    ghost first = { λ epochs. Keeper (opened_at epochs.items) };
}
