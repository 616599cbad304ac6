//! Asking a far side for a name or for bytes.

ghost use Rattle.std.specs.Prelude.{◌≡◌, ◌+◌, ◌≤◌, true, length, take, IfOk, OnErr};
ghost use Rattle.view_outside.specs.Files.{HasFile, HasName};
ghost use Rattle.view_outside.specs.Messages.{IsName, is_size, AsksName, AsksBytes};
ghost use Rattle.view_outside.specs.Links.{IsAbove, IsNumberOf};
ghost use Rattle.patch_link.specs.Asking.{RoseTogether};
ghost use Rattle.patch_link.specs.Questions.{AsksFor, GivesFileOf, GivesBytesOf, IsRead, IsBoundedBy};

use crate::answers::{bytes_in, copy_first, file_in};
use crate::asking::ask;
use link_messages::Message;
use view_outside::{Failed, Link};

/// Asks for the number of the first file of this name.
pub fn ask_name<L: Link>(
    link: &mut L,
    number: u64,
    name: &str,
    buffer: &mut [u8],
) -> Result<u32, Failed>
    requires named { IsName name.now }
    requires above { IsAbove (L.last link.old) number }
    requires room { length buffer.old ≡ 1280 }
    ensures asked { AsksFor L.Sends L.Receives (AsksName number name.now)
        (λ answer. GivesFileOf answer result) link.old link.new }
    ensures honest { L.honest link.old ≡ true
        → IfOk result (λ file. IsNumberOf (L.far link.old) name.now file) }
    ensures bounded { L.tells link.old ≡ true → L.waiting link.old ≤ 64
        → IsBoundedBy (L.waiting link.new) (L.far_faults link.old) (L.far_faults link.new)
        (HasName (L.far link.old) name.now) result }
    ensures above { IsAbove (L.last link.new) (number + 1) }
    ensures far { L.far link.new ≡ L.far link.old }
    ensures honesty { L.honest link.new ≡ L.honest link.old }
    ensures tells { L.tells link.new ≡ L.tells link.old }
    ensures cost { OnErr result (RoseTogether 64 (L.faults link.old) (L.received link.old)
        (L.faults link.new) (L.received link.new)) }
    ensures room { length buffer.new ≡ 1280 }
{
    let question = Message::AskName { number, name };
    let size = ask(link, &question, buffer)?;
    match file_in(&buffer[..size]) {
        Some(file) => Ok(file),
        None => Err(Failed),
    }
}

/// Asks for so many bytes of a file from an offset on. They come to the front of the room, as many as are answered.
pub fn ask_bytes<L: Link>(
    link: &mut L,
    number: u64,
    file: u32,
    offset: u64,
    size: u16,
    room: &mut [u8],
    buffer: &mut [u8],
) -> Result<usize, Failed>
    requires right { is_size size ≡ true }
    requires small { size ≤ length room.old }
    requires above { IsAbove (L.last link.old) number }
    requires room { length buffer.old ≡ 1280 }
    ensures asked { AsksFor L.Sends L.Receives (AsksBytes number file offset size)
        (λ answer. GivesBytesOf room.new answer result) link.old link.new }
    ensures honest { L.honest link.old ≡ true
        → IfOk result (λ n. IsRead (L.far link.old) file offset room.new n) }
    ensures bounded { L.tells link.old ≡ true → L.waiting link.old ≤ 64
        → IsBoundedBy (L.waiting link.new) (L.far_faults link.old) (L.far_faults link.new)
        (HasFile (L.far link.old) file) result }
    ensures within { IfOk result (λ n. n ≤ size) }
    ensures above { IsAbove (L.last link.new) (number + 1) }
    ensures far { L.far link.new ≡ L.far link.old }
    ensures honesty { L.honest link.new ≡ L.honest link.old }
    ensures tells { L.tells link.new ≡ L.tells link.old }
    ensures cost { OnErr result (RoseTogether 64 (L.faults link.old) (L.received link.old)
        (L.faults link.new) (L.received link.new)) }
    ensures kept { length room.new ≡ length room.old }
    ensures room { length buffer.new ≡ 1280 }
{
    let question = Message::AskBytes {
        number,
        file,
        offset,
        length: size,
    };
    let count = ask(link, &question, buffer)?;
    match bytes_in(&buffer[..count]) {
        Some(bytes) => Ok(copy_first(bytes, room)),
        None => Err(Failed),
    }
}
