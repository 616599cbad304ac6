//! Reading a message from its bytes.

ghost use Rattle.std.specs.Prelude.{◌≡◌, ◌+◌, ◌≤◌, true, false, length, drop, IfSome, MatchOption};
ghost use Rattle.std.specs.Str.{is_utf8};
ghost use Rattle.std.specs.Option.{option_map};
ghost use Rattle.view_outside.specs.Messages.{IsMessage, is_size, field_at, has_bytes, has_name_size, message_text};
ghost use Rattle.view_outside.specs.Messages.{message_in};
ghost use Rattle.view_outside.specs.Messages.{asks_bytes_in, gives_bytes_in, asks_name_in, gives_file_in};
ghost use Rattle.view_outside.specs.Messages.{says_failed_in};
ghost use Rattle.link_messages.specs.Seen.{seen};

use crate::messages::Message;
use byteorder::{ByteOrder, LittleEndian};
use std::str::from_utf8;

/// The message that these bytes are: None exactly where they are none. It takes no memory.
pub fn decode(bytes: &[u8]) -> Option<Message<'_>>
    ensures value { option_map seen result ≡ message_in bytes.now }
    ensures right { IfSome result (λ m. IsMessage (seen m)) }
    ensures text { IfSome result (λ m. message_text (seen m) ≡ bytes.now) }
{
    read_message(bytes)
}

#[tactic(auto, unfolding(view_outside::specs::Messages::message_in))]
fn read_message(bytes: &[u8]) -> Option<Message<'_>>
    ensures { option_map seen result ≡ message_in bytes.now }
{
    match bytes.first() {
        Some(1) => read_asking(bytes),
        Some(2) => read_bytes(bytes),
        Some(3) => read_name(bytes),
        Some(4) => read_file(bytes),
        Some(5) => read_failed(bytes),
        _ => None,
    }
}

#[tactic(auto, unfolding(view_outside::specs::Messages::asks_bytes_in))]
fn read_asking(bytes: &[u8]) -> Option<Message<'_>>
    ensures { option_map seen result ≡ asks_bytes_in bytes.now }
{
    if bytes.len() == 23 && is_size(u16_at(bytes, 21)) {
        Some(Message::AskBytes {
            number: u64_at(bytes, 1),
            file: u32_at(bytes, 9),
            offset: u64_at(bytes, 13),
            length: u16_at(bytes, 21),
        })
    } else {
        None
    }
}

#[tactic(auto, unfolding(view_outside::specs::Messages::gives_bytes_in))]
fn read_bytes(bytes: &[u8]) -> Option<Message<'_>>
    ensures { option_map seen result ≡ gives_bytes_in bytes.now }
{
    if has_bytes(bytes) {
        Some(Message::Bytes {
            number: u64_at(bytes, 1),
            file: u32_at(bytes, 9),
            offset: u64_at(bytes, 13),
            length: u16_at(bytes, 21),
            bytes: behind(bytes, 25),
        })
    } else {
        None
    }
}

/// The fields before the bytes are there and in range, and just so many bytes follow.
fn has_bytes(bytes: &[u8]) -> bool
    ensures value { result ≡ has_bytes bytes.now }
    ensures long { result ≡ true → 25 ≤ length bytes.now }
{
    bytes.len() >= 25
        && is_size(u16_at(bytes, 21))
        && u16_at(bytes, 23) <= u16_at(bytes, 21)
        && bytes.len() == 25 + u16_at(bytes, 23) as usize
}

#[tactic(auto, unfolding(view_outside::specs::Messages::asks_name_in))]
fn read_name(bytes: &[u8]) -> Option<Message<'_>>
    ensures { option_map seen result ≡ asks_name_in bytes.now }
{
    if !has_name_size(bytes) {
        return None;
    }
    match text_of(behind(bytes, 10)) {
        Some(name) => Some(Message::AskName {
            number: u64_at(bytes, 1),
            name,
        }),
        None => None,
    }
}

/// The name has at least a byte, and just so many follow.
fn has_name_size(bytes: &[u8]) -> bool
    ensures value { result ≡ has_name_size bytes.now }
    ensures long { result ≡ true → 10 ≤ length bytes.now }
{
    bytes.len() >= 10 && u8_at(bytes, 9) >= 1 && bytes.len() == 10 + u8_at(bytes, 9) as usize
}

/// The bytes as text, where they are.
fn text_of(bytes: &[u8]) -> Option<&str>
    ensures { MatchOption result (is_utf8 bytes.now ≡ false)
        (λ name. (name.now ≡ bytes.now) × (is_utf8 bytes.now ≡ true)) }
{
    match from_utf8(bytes) {
        Ok(name) => Some(name),
        Err(_) => None,
    }
}

#[tactic(auto, unfolding(view_outside::specs::Messages::gives_file_in))]
fn read_file(bytes: &[u8]) -> Option<Message<'_>>
    ensures { option_map seen result ≡ gives_file_in bytes.now }
{
    if bytes.len() == 13 {
        Some(Message::File {
            number: u64_at(bytes, 1),
            file: u32_at(bytes, 9),
        })
    } else {
        None
    }
}

#[tactic(auto, unfolding(view_outside::specs::Messages::says_failed_in))]
fn read_failed(bytes: &[u8]) -> Option<Message<'_>>
    ensures { option_map seen result ≡ says_failed_in bytes.now }
{
    if bytes.len() == 9 {
        Some(Message::Failed {
            number: u64_at(bytes, 1),
        })
    } else {
        None
    }
}

/// Whether so many bytes may be asked for at once.
fn is_size(size: u16) -> bool
    ensures { result ≡ is_size size }
{
    size >= 1 && size <= 1024
}

/// The bytes from this place on.
fn behind(bytes: &[u8], at: usize) -> &[u8]
    requires { at ≤ length bytes.now }
    ensures { result.now ≡ drop at bytes.now }
{
    &bytes[at..]
}

#[tactic(auto, unfolding(view_outside::specs::Messages::field_at))]
fn u8_at(bytes: &[u8], at: usize) -> u8
    requires { at + 1 ≤ length bytes.now }
    ensures { result ≡ field_at 1 at bytes.now }
{
    bytes[at]
}

#[tactic(auto, unfolding(view_outside::specs::Messages::field_at))]
fn u16_at(bytes: &[u8], at: usize) -> u16
    requires { at + 2 ≤ length bytes.now }
    ensures { result ≡ field_at 2 at bytes.now }
{
    LittleEndian::read_u16(&bytes[at..])
}

#[tactic(auto, unfolding(view_outside::specs::Messages::field_at))]
fn u32_at(bytes: &[u8], at: usize) -> u32
    requires { at + 4 ≤ length bytes.now }
    ensures { result ≡ field_at 4 at bytes.now }
{
    LittleEndian::read_u32(&bytes[at..])
}

#[tactic(auto, unfolding(view_outside::specs::Messages::field_at))]
fn u64_at(bytes: &[u8], at: usize) -> u64
    requires { at + 8 ≤ length bytes.now }
    ensures { result ≡ field_at 8 at bytes.now }
{
    LittleEndian::read_u64(&bytes[at..])
}
