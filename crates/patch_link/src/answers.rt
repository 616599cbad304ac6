//! What the bytes of an answer give.

ghost use Rattle.std.specs.Prelude.{◌≡◌, ◌≤◌, length, take, Some, None, MatchOption};
ghost use Rattle.std.specs.Option.{option_map};
ghost use Rattle.view_outside.specs.Messages.{message_in};
ghost use Rattle.link_messages.specs.Seen.{seen};
ghost use Rattle.patch_link.specs.Questions.{file_answer, bytes_answer, IsGivenIn};

use link_messages::{Message, decode};

/// The file that an answer of these bytes gives, if it gives one.
pub fn file_in(bytes: &[u8]) -> Option<u32>
    ensures { result ≡ file_answer (message_in bytes.now) }
{
    match decode(bytes) {
        Some(message) => file_of(&message),
        None => None,
    }
}

fn file_of(message: &Message<'_>) -> Option<u32>
    ensures { result ≡ file_answer (Some (seen message.now)) }
{
    match *message {
        Message::File { file, .. } => Some(file),
        Message::AskBytes { .. } => None,
        Message::Bytes { .. } => None,
        Message::AskName { .. } => None,
        Message::Failed { .. } => None,
    }
}

/// The bytes that an answer of these bytes gives, if it gives any.
pub fn bytes_in(bytes: &[u8]) -> Option<&[u8]>
    ensures { MatchOption result (bytes_answer (message_in bytes.now) ≡ None)
        (λ given. IsGivenIn bytes.now given.now) }
{
    match decode(bytes) {
        Some(message) => bytes_of(&message),
        None => None,
    }
}

fn bytes_of<'a>(message: &Message<'a>) -> Option<&'a [u8]>
    ensures { option_map (λ given. given.now) result ≡ bytes_answer (Some (seen message.now)) }
{
    match *message {
        Message::Bytes { bytes, .. } => Some(bytes),
        Message::AskBytes { .. } => None,
        Message::AskName { .. } => None,
        Message::File { .. } => None,
        Message::Failed { .. } => None,
    }
}

/// Copies the bytes to the front of the room, and answers how many there are.
pub fn copy_first(bytes: &[u8], room: &mut [u8]) -> usize
    requires { length bytes.now ≤ length room.old }
    ensures count { result ≡ length bytes.now }
    ensures copy { take (length bytes.now) room.new ≡ bytes.now }
    ensures room { length room.new ≡ length room.old }
{
    room[..bytes.len()].copy_from_slice(bytes);
    bytes.len()
}
