//! Writing a message as its bytes.

ghost use Rattle.std.specs.Prelude.{◌≡◌, ◌+◌, ◌≤◌, ◌<◌, [], ◌∷◌, ◌++◌, length, take, drop};
ghost use Rattle.view_outside.specs.Messages.{IsMessage, field, message_text, AsksBytes, GivesBytes, AsksName};
ghost use Rattle.view_outside.specs.Messages.{GivesFile, SaysFailed};
ghost use Rattle.link_messages.specs.Seen.{seen};

use crate::messages::Message;
use byteorder::{ByteOrder, LittleEndian};

/// Writes the message's bytes to the front of the room, and answers how many there are. It takes no memory. Condition:
/// a length that is asked for is 1 to 1,024, there are at most so many bytes, and a name has 1 to 255.
pub fn encode(message: &Message<'_>, out: &mut [u8; 1280]) -> usize
    requires { IsMessage (seen message.now) }
    ensures fits { result ≤ 1280 }
    ensures text { take result out.new ≡ message_text (seen message.now) }
{
    match *message {
        Message::AskBytes {
            number,
            file,
            offset,
            length,
        } => write_asking(number, file, offset, length, out),
        Message::Bytes {
            number,
            file,
            offset,
            length,
            bytes,
        } => write_bytes(number, file, offset, length, bytes, out),
        Message::AskName { number, name } => write_name(number, name, out),
        Message::File { number, file } => write_file(number, file, out),
        Message::Failed { number } => write_failed(number, out),
    }
}

#[tactic(auto, unfolding(view_outside::specs::Messages::message_text))]
fn write_asking(number: u64, file: u32, offset: u64, size: u16, out: &mut [u8]) -> usize
    requires { length out.old ≡ 1280 }
    ensures fits { result ≤ 1280 }
    ensures text { take result out.new ≡ message_text (AsksBytes number file offset size) }
{
    put_kind(out, 1);
    put_u64(out, 1, number);
    put_u32(out, 9, file);
    put_u64(out, 13, offset);
    put_u16(out, 21, size);
    23
}

#[tactic(auto, unfolding(view_outside::specs::Messages::message_text))]
fn write_bytes(
    number: u64,
    file: u32,
    offset: u64,
    size: u16,
    bytes: &[u8],
    out: &mut [u8],
) -> usize
    requires room { length out.old ≡ 1280 }
    requires few { length bytes.now ≤ 1024 }
    ensures fits { result ≤ 1280 }
    ensures text { take result out.new ≡ message_text (GivesBytes number file offset size bytes.now) }
{
    put_kind(out, 2);
    put_u64(out, 1, number);
    put_u32(out, 9, file);
    put_u64(out, 13, offset);
    put_u16(out, 21, size);
    put_u16(out, 23, bytes.len() as u16);
    put_bytes(out, 25, bytes);
    25 + bytes.len()
}

#[tactic(auto, unfolding(view_outside::specs::Messages::message_text))]
fn write_name(number: u64, name: &str, out: &mut [u8]) -> usize
    requires room { length out.old ≡ 1280 }
    requires few { length name.now ≤ 255 }
    ensures fits { result ≤ 1280 }
    ensures text { take result out.new ≡ message_text (AsksName number name.now) }
{
    put_kind(out, 3);
    put_u64(out, 1, number);
    put_u8(out, 9, name.len() as u8);
    put_bytes(out, 10, name.as_bytes());
    10 + name.len()
}

#[tactic(auto, unfolding(view_outside::specs::Messages::message_text))]
fn write_file(number: u64, file: u32, out: &mut [u8]) -> usize
    requires { length out.old ≡ 1280 }
    ensures fits { result ≤ 1280 }
    ensures text { take result out.new ≡ message_text (GivesFile number file) }
{
    put_kind(out, 4);
    put_u64(out, 1, number);
    put_u32(out, 9, file);
    13
}

#[tactic(auto, unfolding(view_outside::specs::Messages::message_text))]
fn write_failed(number: u64, out: &mut [u8]) -> usize
    requires { length out.old ≡ 1280 }
    ensures fits { result ≤ 1280 }
    ensures text { take result out.new ≡ message_text (SaysFailed number) }
{
    put_kind(out, 5);
    put_u64(out, 1, number);
    9
}

fn put_kind(out: &mut [u8], kind: u8)
    requires { 1 ≤ length out.old }
    ensures text { take 1 out.new ≡ kind ∷ [] }
    ensures room { length out.new ≡ length out.old }
{
    out[0] = kind;
}

fn put_bytes(out: &mut [u8], at: usize, bytes: &[u8])
    requires { at + length bytes.now ≤ length out.old }
    ensures text { take (at + length bytes.now) out.new ≡ take at out.old ++ bytes.now }
    ensures room { length out.new ≡ length out.old }
{
    out[at..at + bytes.len()].copy_from_slice(bytes);
}

fn put_u8(out: &mut [u8], at: usize, number: u8)
    requires { at + 1 ≤ length out.old }
    ensures text { take (at + 1) out.new ≡ take at out.old ++ field 1 number }
    ensures room { length out.new ≡ length out.old }
{
    write_u8(&mut out[at..], number);
}

fn put_u16(out: &mut [u8], at: usize, number: u16)
    requires { at + 2 ≤ length out.old }
    ensures text { take (at + 2) out.new ≡ take at out.old ++ field 2 number }
    ensures room { length out.new ≡ length out.old }
{
    write_u16(&mut out[at..], number);
}

fn put_u32(out: &mut [u8], at: usize, number: u32)
    requires { at + 4 ≤ length out.old }
    ensures text { take (at + 4) out.new ≡ take at out.old ++ field 4 number }
    ensures room { length out.new ≡ length out.old }
{
    write_u32(&mut out[at..], number);
}

fn put_u64(out: &mut [u8], at: usize, number: u64)
    requires { at + 8 ≤ length out.old }
    ensures text { take (at + 8) out.new ≡ take at out.old ++ field 8 number }
    ensures room { length out.new ≡ length out.old }
{
    write_u64(&mut out[at..], number);
}

#[tactic(auto, unfolding(view_outside::specs::Messages::field))]
fn write_u8(out: &mut [u8], number: u8)
    requires { 1 ≤ length out.old }
    ensures { out.new ≡ field 1 number ++ drop 1 out.old }
{
    out[0] = number;
}

#[tactic(auto, unfolding(view_outside::specs::Messages::field))]
fn write_u16(out: &mut [u8], number: u16)
    requires { 2 ≤ length out.old }
    ensures { out.new ≡ field 2 number ++ drop 2 out.old }
{
    LittleEndian::write_u16(out, number);
}

#[tactic(auto, unfolding(view_outside::specs::Messages::field))]
fn write_u32(out: &mut [u8], number: u32)
    requires { 4 ≤ length out.old }
    ensures { out.new ≡ field 4 number ++ drop 4 out.old }
{
    LittleEndian::write_u32(out, number);
}

#[tactic(auto, unfolding(view_outside::specs::Messages::field))]
fn write_u64(out: &mut [u8], number: u64)
    requires { 8 ≤ length out.old }
    ensures { out.new ≡ field 8 number ++ drop 8 out.old }
{
    LittleEndian::write_u64(out, number);
}
