//! What a script is: its lines and words, the orders that they spell, and the first fault of what is none.
//!
//! Code is only the records and limits, and the laws' names on functions that do nothing. The definitions stand
//! in `specs/`, and `docs/TEXTS.md` tells them in prose.
#![tactic(auto)]

mod commands;
mod limits;
mod modes;
mod orders;
mod stages;

ghost use Rattle.std.specs.Prelude.{◌≡◌, ◌↔◌, ℕ, IsTrue, true, List, ◌∷◌, None, Ok};
ghost use Rattle.text_model.specs.declared.faults.ScriptFault.{ScriptFault};
ghost use Rattle.script_model.specs.declared.modes.Mode.{Mode};
ghost use Rattle.script_model.specs.declared.modes.Mode.TheVariants.{Play};
ghost use Rattle.script_model.specs.declared.orders.Line.{Line};
ghost use Rattle.script_model.specs.declared.orders.Order.{Order};
ghost use Rattle.script_model.specs.Histories.{History};
ghost use Rattle.script_model.specs.OrderFaults.{allows, order_fault};
ghost use Rattle.script_model.specs.Scripts.{script_in, are_lines_from, AreLines};
ghost use Rattle.script_model.specs.ScriptLaws.{StandsFirst};

pub use commands::Command;
pub use limits::MOST_SCRIPT;
pub use modes::Mode;
pub use orders::{Line, Order};
pub use stages::SessionStage;

/// The lines of a script have ascending numbers, and each line's order may stand behind those before it.
pub fn scripts_have_allowed_lines()
    ensures lines { (mode : Mode) (tiers : ℕ) (bytes : List ℕ) (lines : List Line)
        → script_in mode tiers bytes ≡ Ok lines → AreLines mode tiers lines }
    ensures first { (mode : Mode) (tiers : ℕ) (history : History) (above : ℕ) (line : Line)
        (lines : List Line) → are_lines_from mode tiers history above (line ∷ lines) ≡ true
        → StandsFirst mode tiers history above line lines }
{}

/// In a script that is played, an order is allowed exactly where it has no fault.
pub fn allowed_orders_have_no_fault()
    ensures { (tiers : ℕ) (history : History) (number : ℕ) (order : Order)
        → IsTrue (allows tiers history order)
        ↔ (order_fault Play tiers history number order ≡ None) }
{}
