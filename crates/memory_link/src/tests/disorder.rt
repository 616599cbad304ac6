//! A link that gives the answer to a question only behind an old message, a wrong one, one cut short and a forged one.

ghost use Rattle.std.specs.Prelude.{◌≡◌, ◌≤◌, ◌<◌, false, length, None, Some, refl};
ghost use Rattle.view_outside.specs.Messages.{IsMessage};
ghost use Rattle.link_messages.specs.Seen.{seen};

use super::*;
use crate::held::Held;
use link_messages::{Message, encode};
use view_outside::Link;

#[derive(Drop)]
struct Disorder<'a> {
    link: MemoryLink<'a, MemoryStore>,
    turn: u32,
    received: u64,
    /// The last message that came from the link within.
    old: Held,
}

impl<'a> Link for Disorder<'a> {
    ghost last = { λ d. d.link.last };

    ghost far = { λ d. None };

    ghost faults = { λ d. d.link.faults };

    ghost received = { λ d. d.received };

    ghost honest = { λ d. false };

    ghost tells = { λ d. false };

    ghost far_faults = { λ d. 0 };

    ghost waiting = { λ d. 0 };

    ghost Sends = { λ before message ok after. after.link.last ≡ Some message };

    ghost Receives = { λ before message after. after.link.last ≡ before.link.last };

    fn send(&mut self, message: &[u8]) -> Result<(), Failed> {
        self.link.send(message)
    }

    fn receive(&mut self, buffer: &mut [u8]) -> Result<usize, Failed> {
        self.turn = self.turn.wrapping_add(1) % 5;
        let size = match self.turn {
            1 => self.old.copy_to(buffer),
            2 => give(&Message::File { number: 0, file: 7 }, buffer),
            3 => self.old.copy_to(buffer) / 2,
            4 => give(
                &Message::Bytes {
                    number: u64::MAX,
                    file: 0,
                    offset: 16,
                    length: 20,
                    bytes: &[9; 20],
                },
                buffer,
            ),
            _ => {
                let size = self.link.receive(buffer)?;
                self.old = Held::new(&buffer[..size]);
                size
            }
        };
        self.received = self.received.saturating_add(1);
        Ok(size)
    }

    ghost sends = { λ before message ok after step. record { last = step; far = refl; honesty = refl } };

    ghost receives = { λ before message after step. record { last = step; far = refl; honesty = refl } };

    ghost receives_honestly = { λ before message after step honest. Prim.cc };

    ghost none_waits = { λ link none. refl };

    ghost bounded = { λ question before after answer tells few asks right above asked. absurd Prim.cc };
}

/// Writes the message to the front of the buffer, and answers how many bytes it has.
fn give(message: &Message<'_>, buffer: &mut [u8]) -> usize
    requires right { IsMessage (seen message.now) }
    requires room { 1280 ≤ length buffer.old }
    ensures few { result ≤ 1280 }
    ensures room { length buffer.new ≡ length buffer.old }
{
    let mut out = [0; 1280];
    let size = encode(message, &mut out);
    buffer[..size].copy_from_slice(&out[..size]);
    size
}

#[test]
fn only_the_answer_is_taken(rt: HostRuntime) -> Result<(), Fail> {
    let alloc = rt.alloc();
    let mut store = far_store(alloc)?;
    let link = MemoryLink::new(alloc, Answerer::new(&mut store), 3, 2)?;
    let disorder = Disorder {
        link,
        turn: 0,
        received: 0,
        old: Held::new(&[5, 1]),
    };
    let mut far = LinkStore::new(alloc, disorder)?;
    assert!(rt; reads_all(&mut far));
    Ok(())
}
