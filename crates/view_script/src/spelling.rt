//! The order that the words of a line spell.

ghost use Rattle.std.specs.Prelude.{◌≡◌, ◌<◌, length, map, bytes_eq};
ghost use Rattle.script_model.specs.Orders.{command_in, word_count, order_in};
ghost use Rattle.script_model.specs.Scripts.{spelt_in};

use crate::views::{count_at, view_of};
use crate::words::word_at;
use script_model::{Command, Order};
use text_model::ScriptFault;

// The command that the word names.
#[tactic(auto, unfolding(script_model::specs::Orders::command_in))]
fn command_of(word: &[u8]) -> Option<Command>
    ensures { result ≡ command_in word.now }
{
    match word {
        b"open" => Some(Command::Open),
        b"view" => Some(Command::View),
        b"step" => Some(Command::Step),
        b"frame" => Some(Command::Frame),
        b"free" => Some(Command::Free),
        b"close" => Some(Command::Close),
        b"turn" => Some(Command::Turn),
        b"settle" => Some(Command::Settle),
        b"status" => Some(Command::Status),
        _ => None,
    }
}

// How many words the line of the command has, the command with them.
fn word_count(command: Command) -> usize
    ensures { result ≡ word_count command }
{
    match command {
        Command::View => 8,
        Command::Settle | Command::Status => 1,
        Command::Open
        | Command::Step
        | Command::Frame
        | Command::Free
        | Command::Close
        | Command::Turn => 2,
    }
}

// The order that the words of the command spell. Err is the number of the first word that spells nothing in its range.
#[tactic(auto, unfolding(script_model::specs::Orders::order_in))]
fn order_of(command: Command, words: &[&[u8]]) -> Result<Order, u32>
    requires { length words.now ≡ word_count command }
    ensures { result ≡ order_in command (map (λ word. word.now) words.now) }
{
    match command {
        Command::Open => Ok(Order::Open(count_at(2, words)?)),
        Command::View => {
            let session = count_at(2, words)?;
            let view = view_of(words)?;
            Ok(Order::View(session, view))
        }
        Command::Step => Ok(Order::Step(count_at(2, words)?)),
        Command::Frame => Ok(Order::Frame(count_at(2, words)?)),
        Command::Free => Ok(Order::Free(count_at(2, words)?)),
        Command::Close => Ok(Order::Close(count_at(2, words)?)),
        Command::Turn => Ok(Order::Turn(count_at(2, words)?)),
        Command::Settle => Ok(Order::Settle),
        Command::Status => Ok(Order::Status),
    }
}

/// The order that the words of the line of this number spell, or their first fault.
#[tactic(auto, unfolding(script_model::specs::Scripts::spelt_in))]
pub fn spelt(number: u32, words: &[&[u8]]) -> Result<Order, ScriptFault>
    requires { 0 < length words.now }
    ensures { result ≡ spelt_in number (map (λ word. word.now) words.now) }
{
    let Some(command) = command_of(word_at(1, words)) else {
        return Err(ScriptFault::UnknownWord(number));
    };
    if words.len() != word_count(command) {
        return Err(ScriptFault::WrongCount(number));
    }
    match order_of(command, words) {
        Ok(order) => Ok(order),
        Err(word) => Err(ScriptFault::Number(number, word)),
    }
}
