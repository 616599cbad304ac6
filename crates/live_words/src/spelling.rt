//! The orders that words spell.

ghost use Rattle.std.specs.Prelude.{◌≡◌, ◌<◌, ◌≤◌, length, map, Some};
ghost use Rattle.live_model.specs.LiveOrders.{live_command_in, numbered, live_spelt_in, spelt_by};

use live_model::{LiveCommand, LiveOrder};
use text_model::ScriptFault;
use view_script::{count_at, spelt, word_at};

// The command that the word names, where it is none of a script.
#[tactic(auto, unfolding(live_model::specs::LiveOrders::live_command_in))]
fn command_of(word: &[u8]) -> Option<LiveCommand>
    ensures { result ≡ live_command_in word.now }
{
    match word {
        b"show" => Some(LiveCommand::Show),
        b"body" => Some(LiveCommand::Body),
        b"turns" => Some(LiveCommand::Turns),
        _ => None,
    }
}

// The order of a command and its number.
fn numbered(command: LiveCommand, number: u32) -> LiveOrder
    ensures { result ≡ numbered command number }
{
    match command {
        LiveCommand::Show => LiveOrder::Show(number),
        LiveCommand::Body => LiveOrder::Body(number),
        LiveCommand::Turns => LiveOrder::Turns(number),
    }
}

// The order of this command and the number behind it, or the first fault of the words.
#[tactic(auto, unfolding(live_model::specs::LiveOrders::spelt_by))]
fn order_of(command: LiveCommand, words: &[&[u8]]) -> Result<LiveOrder, ScriptFault>
    ensures { result ≡ spelt_by (map (λ word. word.now) words.now) (Some command) }
{
    if words.len() != 2 {
        return Err(ScriptFault::WrongCount(0));
    }
    match count_at(2, words) {
        Ok(number) => Ok(numbered(command, number)),
        Err(word) => Err(ScriptFault::Number(0, word)),
    }
}

/// The order that the words of a driver's line spell, or their first fault, whose line is 0.
#[tactic(auto, unfolding(live_model::specs::LiveOrders::spelt_by))]
pub fn live_spelt(words: &[&[u8]]) -> Result<LiveOrder, ScriptFault>
    requires { 0 < length words.now }
    ensures { result ≡ live_spelt_in (map (λ word. word.now) words.now) }
{
    match command_of(word_at(1, words)) {
        Some(command) => order_of(command, words),
        None => match spelt(0, words) {
            Ok(order) => Ok(LiveOrder::Play(order)),
            Err(fault) => Err(fault),
        },
    }
}
