//! The lines of what sessions did. A call that is refused leaves the text as it was.

ghost use Rattle.std.specs.Prelude.{◌≡◌, true, [], ◌∷◌, codes, OnOk, OnErr};
ghost use Rattle.std.specs.Fmt.{decimal};
ghost use Rattle.text_model.specs.Lines.{Adds, begins_line};
ghost use Rattle.run_model.specs.LineTexts.{session_line, step_words};

use frame_writer::{Part, add_line};
use grid_vertex::NoMemory;
use session_model::Stepped;
use std::alloc::Global;

/// Appends the line of a session that opened.
pub fn add_open(alloc: Global, session: u32, out: &mut Vec<u8>) -> Result<(), NoMemory>
    ensures ok { OnOk result
        (Adds out.old.items out.new.items (session_line (codes "open") session [])) }
    ensures ended { OnOk result (begins_line out.new.items ≡ true) }
    ensures err { OnErr result (out.new.items ≡ out.old.items) }
{
    add_line(alloc, "open", &[Part::Number(u64::from(session))], out)
}

/// Appends the line of a session whose view was set.
pub fn add_view(alloc: Global, session: u32, out: &mut Vec<u8>) -> Result<(), NoMemory>
    ensures ok { OnOk result
        (Adds out.old.items out.new.items (session_line (codes "view") session [])) }
    ensures ended { OnOk result (begins_line out.new.items ≡ true) }
    ensures err { OnErr result (out.new.items ≡ out.old.items) }
{
    add_line(alloc, "view", &[Part::Number(u64::from(session))], out)
}

/// Appends the line of a session's step.
pub fn add_step(
    alloc: Global,
    session: u32,
    did: Stepped,
    out: &mut Vec<u8>,
) -> Result<(), NoMemory>
    ensures ok { OnOk result
        (Adds out.old.items out.new.items (session_line (codes "step") session (step_words did))) }
    ensures ended { OnOk result (begins_line out.new.items ≡ true) }
    ensures err { OnErr result (out.new.items ≡ out.old.items) }
{
    let session = Part::Number(u64::from(session));
    match did {
        Stepped::Unlocked(patch) => {
            let parts = [
                session,
                Part::Word("unlock"),
                Part::Number(u64::from(patch)),
            ];
            add_line(alloc, "step", &parts, out)
        }
        Stepped::Tried(patch, epoch) => {
            let parts = [
                session,
                Part::Word("try"),
                Part::Number(u64::from(patch)),
                Part::Number(u64::from(epoch)),
            ];
            add_line(alloc, "step", &parts, out)
        }
        Stepped::Withdrew(patch) => {
            let parts = [
                session,
                Part::Word("withdraw"),
                Part::Number(u64::from(patch)),
            ];
            add_line(alloc, "step", &parts, out)
        }
        Stepped::GaveBack(patch) => {
            let parts = [session, Part::Word("back"), Part::Number(u64::from(patch))];
            add_line(alloc, "step", &parts, out)
        }
        Stepped::Done => add_line(alloc, "step", &[session, Part::Word("done")], out),
    }
}

/// Appends the line of a session that gave back all that it used; `unlocks` is how many locks these were.
pub fn add_freed(
    alloc: Global,
    session: u32,
    unlocks: u64,
    out: &mut Vec<u8>,
) -> Result<(), NoMemory>
    ensures ok { OnOk result (Adds out.old.items out.new.items
        (session_line (codes "free") session (decimal unlocks ∷ []))) }
    ensures ended { OnOk result (begins_line out.new.items ≡ true) }
    ensures err { OnErr result (out.new.items ≡ out.old.items) }
{
    let parts = [Part::Number(u64::from(session)), Part::Number(unlocks)];
    add_line(alloc, "free", &parts, out)
}

/// Appends the line of a session that gave back all that it used and ended; `unlocks` is how many locks
/// these were.
pub fn add_closed(
    alloc: Global,
    session: u32,
    unlocks: u64,
    out: &mut Vec<u8>,
) -> Result<(), NoMemory>
    ensures ok { OnOk result (Adds out.old.items out.new.items
        (session_line (codes "close") session (decimal unlocks ∷ []))) }
    ensures ended { OnOk result (begins_line out.new.items ≡ true) }
    ensures err { OnErr result (out.new.items ≡ out.old.items) }
{
    let parts = [Part::Number(u64::from(session)), Part::Number(unlocks)];
    add_line(alloc, "close", &parts, out)
}
