//! The lines before the parts of the text.

ghost use Rattle.std.specs.Prelude.{◌≡◌, true, length, List, OnOk, OnErr};
ghost use Rattle.text_model.specs.Lines.{Adds, begins_line};
ghost use Rattle.script_model.specs.declared.orders.Line.{Line};
ghost use Rattle.run_model.specs.Worlds.{World};
ghost use Rattle.serve_model.specs.Openings.{opened_numbers};
ghost use Rattle.serve_model.specs.ServeTexts.{serve_head, session_head, settled_head};

use frame_writer::{Part, add_line};
use grid_vertex::NoMemory;
use std::alloc::Global;

/// Appends the first line of the text: how many sessions the script opens, and how many tiers there are.
#[tactic(auto, unfolding(serve_model::specs::ServeTexts::serve_head))]
pub fn add_serve_head(
    alloc: Global,
    sessions: u32,
    tiers: u32,
    out: &mut Vec<u8>,
) -> Result<(), NoMemory>
    ensures ok { (w : World) (lines : List Line) → sessions ≡ length (opened_numbers lines)
        → tiers ≡ length w.budgets
        → OnOk result (Adds out.old.items out.new.items (serve_head w lines)) }
    ensures ended { OnOk result (begins_line out.new.items ≡ true) }
    ensures err { OnErr result (out.new.items ≡ out.old.items) }
{
    let parts = [
        Part::Word("sessions"),
        Part::Number(u64::from(sessions)),
        Part::Word("tiers"),
        Part::Number(u64::from(tiers)),
    ];
    add_line(alloc, "serve", &parts, out)
}

/// Appends the line before a session's text.
#[tactic(auto, unfolding(serve_model::specs::ServeTexts::session_head))]
pub fn add_session_head(alloc: Global, session: u32, out: &mut Vec<u8>) -> Result<(), NoMemory>
    ensures ok { OnOk result (Adds out.old.items out.new.items (session_head session)) }
    ensures ended { OnOk result (begins_line out.new.items ≡ true) }
    ensures err { OnErr result (out.new.items ≡ out.old.items) }
{
    add_line(alloc, "session", &[Part::Number(u64::from(session))], out)
}

/// Appends the line before the settling.
#[tactic(auto, unfolding(serve_model::specs::ServeTexts::settled_head))]
pub fn add_settled_head(alloc: Global, out: &mut Vec<u8>) -> Result<(), NoMemory>
    ensures ok { OnOk result (Adds out.old.items out.new.items settled_head) }
    ensures ended { OnOk result (begins_line out.new.items ≡ true) }
    ensures err { OnErr result (out.new.items ≡ out.old.items) }
{
    add_line(alloc, "settled", &[], out)
}
