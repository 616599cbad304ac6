//! The far side of a file: it answers a question by one call on its store.

ghost use Rattle.std.specs.Prelude.{◌≡◌, ◌≤◌, true, false, length, take, MatchOption, IfSome};
ghost use Rattle.view_outside.specs.Messages.{is_question, IsMessage, IsName, is_size};
ghost use Rattle.link_messages.specs.Seen.{seen};
ghost use Rattle.memory_link.specs.FarCalls.{AnswersName, AnswersRead, CallsFor, HasAnswered, AsksNothing};

use link_messages::{Message, decode, encode};
use std::marker::Model;
use view_outside::Store;

/// The far side of a file, over a store that is lent.
#[derive(Drop)]
pub struct Answerer<'a, S: Store> {
    store: &'a mut S,
}

impl<'a, S: Store> Model for Answerer<'a, S> {
    ghost use Rattle.memory_link.specs.FarCalls.{Lent};

    ghost Value = { Lent S };

    ghost view = { λ a. record { store = a.store.now; lender = a.store.ghost_name } };
}

impl<'a, S: Store> Answerer<'a, S> {
    pub fn new(store: &'a mut S) -> Answerer<'a, S>
        ensures store { result.store ≡ store.entry.now }
        ensures lender { result.lender ≡ store.entry.ghost_name }
    {
        Answerer { store }
    }

    /// Writes the answer to the message to the front of the room, and answers how many bytes it has: None exactly where
    /// the message is no question. The answer is that the call on the store failed exactly where it did. It takes no
    /// memory.
    pub fn answer(&mut self, message: &[u8], out: &mut [u8; 1280]) -> Option<usize>
        ensures answer { MatchOption result (AsksNothing message.now)
            (λ n. HasAnswered S.files S.faults S.taken message.now self.old.store self.new.store (take n out.new)) }
        ensures fits { IfSome result (λ n. n ≤ 1280) }
        ensures none { MatchOption result (self.new.store ≡ self.old.store) (λ _. Unit {0}) }
        ensures lender { self.new.lender ≡ self.old.lender }
    {
        match decode(message) {
            Some(question) => answer_question(self.store, &question, out),
            None => None,
        }
    }
}

/// Answers the message, if it is a question.
fn answer_question<S: Store>(
    store: &mut S,
    question: &Message<'_>,
    out: &mut [u8; 1280],
) -> Option<usize>
    requires { IsMessage (seen question.now) }
    ensures answer { MatchOption result (is_question (seen question.now) ≡ false)
        (λ n. CallsFor S.files S.faults S.taken (seen question.now) store.old store.new (take n out.new)) }
    ensures fits { IfSome result (λ n. n ≤ 1280) }
    ensures none { MatchOption result (store.new ≡ store.old) (λ _. Unit {0}) }
{
    match *question {
        Message::AskName { number, name } => Some(answer_name(store, number, name, out)),
        Message::AskBytes {
            number,
            file,
            offset,
            length,
        } => Some(answer_read(store, number, file, offset, length, out)),
        Message::Bytes { .. } => None,
        Message::File { .. } => None,
        Message::Failed { .. } => None,
    }
}

/// Answers a question for a name.
fn answer_name<S: Store>(store: &mut S, number: u64, name: &str, out: &mut [u8; 1280]) -> usize
    ensures answer { AnswersName S.files S.faults S.taken number name.now store.old store.new (take result out.new) }
    ensures fits { result ≤ 1280 }
{
    match store.find(name) {
        Ok(file) => encode(&Message::File { number, file }, out),
        Err(_) => encode(&Message::Failed { number }, out),
    }
}

/// Answers a question for bytes.
fn answer_read<S: Store>(
    store: &mut S,
    number: u64,
    file: u32,
    offset: u64,
    size: u16,
    out: &mut [u8; 1280],
) -> usize
    requires { is_size size ≡ true }
    ensures answer { AnswersRead S.files S.faults S.taken number file offset size store.old store.new
        (take result out.new) }
    ensures fits { result ≤ 1280 }
{
    let mut room = [0; 1024];
    answer_into(store, number, file, offset, &mut room[..size as usize], out)
}

/// Answers a question for so many bytes as the room has.
fn answer_into<S: Store>(
    store: &mut S,
    number: u64,
    file: u32,
    offset: u64,
    room: &mut [u8],
    out: &mut [u8; 1280],
) -> usize
    requires { is_size (length room.old) ≡ true }
    ensures answer { AnswersRead S.files S.faults S.taken number file offset (length room.old) store.old store.new
        (take result out.new) }
    ensures fits { result ≤ 1280 }
{
    let length = room.len() as u16;
    match store.read_at(file, offset, room) {
        Ok(n) => encode(
            &Message::Bytes {
                number,
                file,
                offset,
                length,
                bytes: &room[..n],
            },
            out,
        ),
        Err(_) => encode(&Message::Failed { number }, out),
    }
}
