//! What came over a link, beside the question that is under way.

ghost use Rattle.std.specs.Prelude.{◌≡◌, ℕ, ◌≤◌, true, List, length, Some};
ghost use Rattle.view_outside.specs.Messages.{IsMessage, message_text, message_number, AsksBytes, AsksName};
ghost use Rattle.view_outside.specs.Links.{is_awaited, is_refusal};
ghost use Rattle.link_messages.specs.Seen.{seen};
ghost use Rattle.patch_link.specs.Asking.{IsArrival, Arrives, IsFitting, IsTrueArrival, IsCounted};

use link_messages::{Message, decode};
use view_outside::Link;

/// What came: the awaited answer, of so many bytes, that the far side failed at this question, another message, or
/// none.
#[derive(Clone, Copy, Debug, PartialEq, Eq)]
pub enum Arrival {
    Answer(usize),
    Refusal,
    Stray,
    Nothing,
}

/// Receives one message, or none, and tells what it is to the question.
pub fn receive_once<L: Link>(link: &mut L, question: &Message<'_>, buffer: &mut [u8]) -> Arrival
    requires right { IsMessage (seen question.now) }
    requires room { 1280 ≤ length buffer.old }
    ensures arrives { Arrives L.Receives (seen question.now) link.old buffer.new result link.new }
    ensures within { IsFitting result }
    ensures honest { L.honest link.old ≡ true
        → L.last link.old ≡ Some (message_text (seen question.now))
        → IsTrueArrival (L.far link.old) (seen question.now) buffer.new result }
    ensures counted { IsCounted result (L.faults link.old) (L.received link.old)
        (L.faults link.new) (L.received link.new) }
    ensures faults { L.faults link.old ≤ L.faults link.new }
    ensures received { L.received link.old ≤ L.received link.new }
    ensures last { L.last link.new ≡ L.last link.old }
    ensures far { L.far link.new ≡ L.far link.old }
    ensures honesty { L.honest link.new ≡ L.honest link.old }
    ensures tells { L.tells link.new ≡ L.tells link.old }
    ensures room { length buffer.new ≡ length buffer.old }
{
    match link.receive(buffer) {
        Ok(size) => arrival_of(question, &buffer[..size]),
        Err(_) => Arrival::Nothing,
    }
}

/// What a message of these bytes is to the question.
fn arrival_of(question: &Message<'_>, bytes: &[u8]) -> Arrival
    ensures { IsArrival (seen question.now) bytes.now result }
{
    match decode(bytes) {
        Some(message) => {
            if is_awaited(question, &message) {
                Arrival::Answer(bytes.len())
            } else if is_refusal(question, &message) {
                Arrival::Refusal
            } else {
                Arrival::Stray
            }
        }
        None => Arrival::Stray,
    }
}

/// The message is the answer that the question awaits: with its number and, of bytes, its file, offset and length.
fn is_awaited(question: &Message<'_>, message: &Message<'_>) -> bool
    ensures { result ≡ is_awaited (seen question.now) (seen message.now) }
{
    match *question {
        Message::AskBytes {
            number,
            file,
            offset,
            length,
        } => gives_bytes(number, file, offset, length, message),
        Message::AskName { number, .. } => gives_file(number, message),
        Message::Bytes { .. } => false,
        Message::File { .. } => false,
        Message::Failed { .. } => false,
    }
}

/// The message gives the bytes that were asked for.
fn gives_bytes(number: u64, file: u32, offset: u64, length: u16, message: &Message<'_>) -> bool
    ensures { result ≡ is_awaited (AsksBytes number file offset length) (seen message.now) }
{
    match *message {
        Message::Bytes {
            number: of_number,
            file: of_file,
            offset: of_offset,
            length: of_length,
            ..
        } => {
            of_number == number && of_file == file && of_offset == offset && of_length == length
        }
        Message::AskBytes { .. } => false,
        Message::AskName { .. } => false,
        Message::File { .. } => false,
        Message::Failed { .. } => false,
    }
}

/// The message gives the file that was asked for.
fn gives_file(number: u64, message: &Message<'_>) -> bool
    ensures { (name : List ℕ) → result ≡ is_awaited (AsksName number name) (seen message.now) }
{
    match *message {
        Message::File {
            number: of_number,
            ..
        } => of_number == number,
        Message::AskBytes { .. } => false,
        Message::Bytes { .. } => false,
        Message::AskName { .. } => false,
        Message::Failed { .. } => false,
    }
}

/// The message says that the far side failed at the question.
fn is_refusal(question: &Message<'_>, message: &Message<'_>) -> bool
    ensures { result ≡ is_refusal (seen question.now) (seen message.now) }
{
    match *message {
        Message::Failed { number } => number == number_of(question),
        Message::AskBytes { .. } => false,
        Message::Bytes { .. } => false,
        Message::AskName { .. } => false,
        Message::File { .. } => false,
    }
}

/// The number that ties an answer to its question.
fn number_of(message: &Message<'_>) -> u64
    ensures { result ≡ message_number (seen message.now) }
{
    match *message {
        Message::AskBytes { number, .. } => number,
        Message::Bytes { number, .. } => number,
        Message::AskName { number, .. } => number,
        Message::File { number, .. } => number,
        Message::Failed { number } => number,
    }
}
