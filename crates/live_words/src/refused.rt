//! The answer to a line that is refused.

ghost use Rattle.std.specs.Prelude.{◌≡◌, [], ◌∷◌, codes, IfOk};
ghost use Rattle.text_model.specs.Lines.{line_of, decimals};
ghost use Rattle.live_model.specs.LiveTexts.{refused_text};

use frame_writer::{Part, add_line};
use grid_vertex::NoMemory;
use std::alloc::Global;
use text_model::ScriptFault;

// The line of a fault's number.
fn short_line(alloc: Global, number: u32) -> Result<Vec<u8>, NoMemory>
    ensures { IfOk result
        (λ text. text.items ≡ line_of (codes "refused") (decimals (number ∷ []))) }
{
    let mut text = Vec::new(alloc);
    add_line(
        alloc,
        "refused",
        &[Part::Number(u64::from(number))],
        &mut text,
    )?;
    Ok(text)
}

// The line of the fault of a word, and the word's number.
fn word_line(alloc: Global, word: u32) -> Result<Vec<u8>, NoMemory>
    ensures { IfOk result
        (λ text. text.items ≡ line_of (codes "refused") (decimals (44 ∷ word ∷ []))) }
{
    let parts = [Part::Number(44), Part::Number(u64::from(word))];
    let mut text = Vec::new(alloc);
    add_line(alloc, "refused", &parts, &mut text)?;
    Ok(text)
}

/// The answer to a line that has this fault: the fault's number, and the word's where a word is at fault.
#[tactic(auto, unfolding(live_model::specs::LiveTexts::refused_text))]
pub fn refused_text(alloc: Global, fault: ScriptFault) -> Result<Vec<u8>, NoMemory>
    ensures { IfOk result (λ text. text.items ≡ refused_text fault) }
{
    match fault {
        ScriptFault::TooLong => short_line(alloc, 40),
        ScriptFault::NotText(_) => short_line(alloc, 41),
        ScriptFault::UnknownWord(_) => short_line(alloc, 42),
        ScriptFault::WrongCount(_) => short_line(alloc, 43),
        ScriptFault::Number(_, word) => word_line(alloc, word),
        ScriptFault::SessionOut(_) => short_line(alloc, 45),
        ScriptFault::AlreadyThere(_) => short_line(alloc, 46),
        ScriptFault::NotThere(_) => short_line(alloc, 47),
        ScriptFault::NoView(_) => short_line(alloc, 48),
        ScriptFault::NoTier(_) => short_line(alloc, 49),
        ScriptFault::PlayOnly(_) => short_line(alloc, 50),
    }
}
