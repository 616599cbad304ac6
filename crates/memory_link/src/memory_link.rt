//! A link in memory.

ghost use Rattle.std.specs.Prelude.{◌≡◌, ◌+◌, ◌++◌, ◌≤◌, ◌<◌, [], true, false, length, take, None, Some, IfOk, ⊤};
ghost use Rattle.std.specs.Prelude.{is_ok, vec_len, vec_capacity};
ghost use Rattle.std.specs.Option.{option_map};
ghost use Rattle.std.specs.Result.{result_ok};
ghost use Rattle.view_outside.specs.Faults.{HasCause};
ghost use Rattle.view_outside.specs.Links.{counted_after, MaySend, IsHonestly};
ghost use Rattle.memory_link.specs.MemoryLinks.{MemorySends, MemoryReceives, arrived, tells_far, waiting_count};
ghost use Rattle.memory_link.specs.MemoryLaws.{memory_sends, memory_receives, memory_receives_honestly};
ghost use Rattle.memory_link.specs.MemoryLaws.{memory_none_waits, memory_bounded};

use crate::answering::Answerer;
use crate::counts::{is_multiple, one_more};
use crate::held::Held;
use grid_vertex::NoMemory;
use std::alloc::Global;
use std::marker::Model;
use view_outside::{Failed, Link, Store};

/// A link whose far side answers at once. Questions and answers are counted together from 1, and each whose count is a
/// multiple of `lose` is lost. Answers that aren't lost are counted by themselves, and each whose count is a multiple
/// of `repeat` is received twice. With 0 none is lost or repeated.
///
/// Answers wait, at most 128, and are received in the order in which they were made, a copy right after its answer.
#[derive(Drop)]
pub struct MemoryLink<'a, S: Store> {
    answerer: Answerer<'a, S>,
    lose: u32,
    repeat: u32,
    /// How many messages were sent since the last that was lost.
    since_lost: u32,
    /// How many answers came since the last that was repeated.
    since_repeated: u32,
    waiting: Vec<Held>,
    last: Option<Held>,
    faults: u64,
    received: u64,
}

impl<'a, S: Store> Model for MemoryLink<'a, S> {
    ghost use Rattle.std.specs.Prelude.{◌≤◌, vec_capacity};
    ghost use Rattle.memory_link.specs.MemoryLinks.{MemoryLinkSeen, IsInOrder};

    ghost Value = { MemoryLinkSeen S };

    ghost view = { λ l. record {
      store = l.answerer.store;
      lender = l.answerer.lender;
      lose = l.lose;
      repeat = l.repeat;
      since_lost = l.since_lost;
      since_repeated = l.since_repeated;
      waiting = l.waiting.items;
      last = l.last;
      faults = l.faults;
      received = l.received;
    } };

    ghost invariant = { λ l. (128 ≤ vec_capacity l.waiting)
        × IsInOrder (S.files l.answerer.store) l.last l.waiting.items };
}

impl<'a, S: Store> MemoryLink<'a, S> {
    /// A link to this far side over which nothing was sent. It takes the room for 128 answers.
    pub fn new(
        alloc: Global,
        answerer: Answerer<'a, S>,
        lose: u32,
        repeat: u32,
    ) -> Result<MemoryLink<'a, S>, NoMemory>
        ensures { IfOk result (λ link. link ≡ record {
          store = answerer.entry.store;
          lender = answerer.entry.lender;
          lose = lose;
          repeat = repeat;
          since_lost = 0;
          since_repeated = 0;
          waiting = [];
          last = None;
          faults = 0;
          received = 0;
        }) }
    {
        let waiting = Vec::with_capacity(alloc, 128)?;
        Ok(MemoryLink {
            answerer,
            lose,
            repeat,
            since_lost: 0,
            since_repeated: 0,
            waiting,
            last: None,
            faults: 0,
            received: 0,
        })
    }
}

impl<'a, S: Store> Link for MemoryLink<'a, S> {
    ghost last = { λ l. l.last };

    ghost far = { λ l. S.files l.store };

    ghost faults = { λ l. l.faults };

    ghost received = { λ l. l.received };

    ghost honest = { λ l. true };

    ghost tells = { λ l. tells_far l.lose };

    ghost far_faults = { λ l. S.faults l.store };

    ghost waiting = { λ l. waiting_count l.last l.waiting };

    ghost Sends = { MemorySends S.files S.faults S.taken };

    ghost Receives = { MemoryReceives S.files };

    // The trait's clauses, and then what this link adds to them.
    fn send(&mut self, message: &[u8]) -> Result<(), Failed>
        requires { MaySend self.old.last message.now }
        ensures step { MemorySends S.files S.faults S.taken self.old message.now (is_ok result) self.new }
        ensures last { self.new.last ≡ Some message.now }
        ensures far { S.files self.new.store ≡ S.files self.old.store }
        ensures honest { true ≡ true }
        ensures tells { tells_far self.new.lose ≡ tells_far self.old.lose }
        ensures cause { HasCause self.old.faults self.new.faults ⊤ result }
        ensures received { self.new.received ≡ self.old.received }
    {
        self.last = Some(Held::new(message));
        if self.waiting.len() > 126 {
            self.faults = self.faults.saturating_add(1);
            return Err(Failed);
        }
        self.since_lost = one_more(self.lose, self.since_lost);
        if is_multiple(self.lose, self.since_lost) {
            return Ok(());
        }
        let mut out = [0; 1280];
        let Some(size) = self.answerer.answer(message, &mut out) else {
            unreachable!()
        };
        self.since_lost = one_more(self.lose, self.since_lost);
        if is_multiple(self.lose, self.since_lost) {
            return Ok(());
        }
        self.since_repeated = one_more(self.repeat, self.since_repeated);
        let again = is_multiple(self.repeat, self.since_repeated);
        hold(&mut self.waiting, &out[..size], again);
        Ok(())
    }

    // The trait's clauses, and then what this link adds to them.
    fn receive(&mut self, buffer: &mut [u8]) -> Result<usize, Failed>
        requires { 1280 ≤ length buffer.old }
        ensures step { MemoryReceives S.files self.old
            (option_map (λ n. take n buffer.new) (result_ok result)) self.new }
        ensures size { IfOk result (λ n. n ≤ 1280) }
        ensures room { length buffer.new ≡ length buffer.old }
        ensures answer { true ≡ true
            → IfOk result (λ n. IsHonestly (S.files self.old.store) self.old.last (take n buffer.new)) }
        ensures last { self.new.last ≡ self.old.last }
        ensures far { S.files self.new.store ≡ S.files self.old.store }
        ensures honest { true ≡ true }
        ensures tells { tells_far self.new.lose ≡ tells_far self.old.lose }
        ensures cause { HasCause self.old.faults self.new.faults ⊤ result }
        ensures received { self.new.received ≡ counted_after (is_ok result) self.old.received }
    {
        if self.waiting.is_empty() {
            self.faults = self.faults.saturating_add(1);
            return Err(Failed);
        }
        let held = self.waiting.remove(0);
        self.received = self.received.saturating_add(1);
        Ok(held.copy_to(buffer))
    }

    ghost sends = { memory_sends S.files S.faults S.taken };

    ghost receives = { memory_receives S.files };

    ghost receives_honestly = { memory_receives_honestly S.files };

    ghost none_waits = { memory_none_waits };

    ghost bounded = { memory_bounded S.files S.faults S.taken };
}

/// Lets the answer wait, and its copy behind it where it is to be received twice.
fn hold(waiting: &mut Vec<Held>, answer: &[u8], again: bool)
    requires small { length answer.now ≤ 1280 }
    requires few { vec_len waiting.old ≤ 126 }
    requires room { 128 ≤ vec_capacity waiting.old }
    ensures items { waiting.new.items ≡ waiting.old.items ++ arrived again answer.now }
    ensures room { vec_capacity waiting.new ≡ vec_capacity waiting.old }
{
    waiting.push_reserved(Held::new(answer));
    if again {
        waiting.push_reserved(Held::new(answer));
    }
}
