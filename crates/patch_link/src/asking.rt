//! Asking one question until its answer comes.

ghost use Rattle.std.specs.Prelude.{◌≡◌, ◌≤◌, true, false, length, take, Some, IfOk, OnErr};
ghost use Rattle.view_outside.specs.Messages.{message_number, is_question, IsMessage, message_text};
ghost use Rattle.view_outside.specs.Links.{IsAbove, Asks};
ghost use Rattle.link_messages.specs.Seen.{seen};
ghost use Rattle.patch_link.specs.Asking.{HasAnswer, IsTrueMessage, RoseTogether, outcome};

use crate::asking::arrivals::{Arrival, receive_once};
use link_messages::{Message, encode};
use view_outside::{Failed, Link};

mod arrivals;

/// Sends the question and receives until its answer comes, which then stands in the buffer's first bytes, so many as
/// are told. A failed `send` or `receive`, or word that the far side failed, is a failure, and the question is sent
/// again; another message is a stray, and receiving goes on. At 64 failures or 128 strays it gives up.
pub fn ask<L: Link>(
    link: &mut L,
    question: &Message<'_>,
    buffer: &mut [u8],
) -> Result<usize, Failed>
    requires right { IsMessage (seen question.now) }
    requires asks { is_question (seen question.now) ≡ true }
    requires above { IsAbove (L.last link.old) (message_number (seen question.now)) }
    requires room { length buffer.old ≡ 1280 }
    ensures asks { Asks L.Sends L.Receives (seen question.now) false 0 0 link.old
        (outcome buffer.new result) link.new }
    ensures answer { IfOk result (λ n. HasAnswer (seen question.now) (take n buffer.new)) }
    ensures within { IfOk result (λ n. n ≤ 1280) }
    ensures honest { L.honest link.old ≡ true
        → IfOk result (λ n. IsTrueMessage (L.far link.old) (seen question.now) (take n buffer.new)) }
    ensures last { L.last link.new ≡ Some (message_text (seen question.now)) }
    ensures far { L.far link.new ≡ L.far link.old }
    ensures honesty { L.honest link.new ≡ L.honest link.old }
    ensures tells { L.tells link.new ≡ L.tells link.old }
    ensures cost { OnErr result (RoseTogether 64 (L.faults link.old) (L.received link.old)
        (L.faults link.new) (L.received link.new)) }
    ensures room { length buffer.new ≡ 1280 }
{
    let mut text = [0; 1280];
    let size = encode(question, &mut text);
    let mut failures = 0u32;
    let mut strays = 0u32;
    let mut under_way = false;
    'tries: while failures < 64 && strays < 128 {
        if under_way {
            match receive_once(link, question, buffer) {
                Arrival::Answer(n) => return Ok(n),
                Arrival::Refusal => {
                    failures += 1;
                    under_way = false;
                }
                Arrival::Nothing => {
                    failures += 1;
                    under_way = false;
                }
                Arrival::Stray => strays += 1,
            }
        } else {
            match link.send(&text[..size]) {
                Ok(()) => under_way = true,
                Err(_) => failures += 1,
            }
        }
    }
    Err(Failed)
}
