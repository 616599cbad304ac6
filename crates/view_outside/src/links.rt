//! Questions that go to the far side of a file, and answers that come from there.

ghost use Rattle.std.specs.Prelude.{◌≡◌, ℕ, ◌≤◌, Bool, true, false, List, length, take, Option, None, Some, ⊤, IfOk};
ghost use Rattle.std.specs.Prelude.{is_ok};
ghost use Rattle.std.specs.Option.{option_map};
ghost use Rattle.std.specs.Result.{result_ok};
ghost use Rattle.view_outside.specs.Faults.{HasCause};
ghost use Rattle.view_outside.specs.Files.{Named};
ghost use Rattle.view_outside.specs.Messages.{MessageSeen, message_number, is_question, IsMessage};
ghost use Rattle.view_outside.specs.Links.{counted_after, IsThere, IsAbove, MaySend, IsHonestly, StepsTo, Asks};
ghost use Rattle.view_outside.specs.Links.{IsBounded};

use crate::Failed;

/// A way to the far side of a file. Messages that are sent or come may be lost; what comes may be old, come again, or
/// come in any order.
pub trait Link {
    /// The bytes of the last message sent, if one was.
    ghost last: { Self → Option (List ℕ) };

    /// The far side's files by their numbers, where the link tells them.
    ghost far: { Self → Option (List Named) };

    /// How often the link has failed. It never falls.
    ghost faults: { Self → ℕ };

    /// How many messages were received. The count stays at the last value of a `u64`.
    ghost received: { Self → ℕ };

    /// Whether each message received that carries the number of the last one sent is the far side's answer to it.
    ghost honest: { Self → Bool };

    /// Whether the link tells how often the far store has failed, and how many answers wait.
    ghost tells: { Self → Bool };

    /// How often the far store has failed, where told.
    ghost far_faults: { Self → ℕ };

    /// How many answers wait to be received, where told.
    ghost waiting: { Self → ℕ };

    /// The step of a `send` of these bytes that went well or not.
    ghost Sends: { Self → List ℕ → Bool → Self → Type 0 };

    /// The step of a `receive` that gave these bytes, or failed.
    ghost Receives: { Self → Option (List ℕ) → Self → Type 0 };

    /// Sends a question: the last one again, or one whose number is above that one's. It fails only where the count of
    /// faults rose, and is the last one sent then too.
    fn send(&mut self, message: &[u8]) -> Result<(), Failed>
        requires { MaySend (last self.old) message.now }
        ensures step { Sends self.old message.now (is_ok result) self.new }
        ensures last { last self.new ≡ Some message.now }
        ensures far { far self.new ≡ far self.old }
        ensures honest { honest self.new ≡ honest self.old }
        ensures tells { tells self.new ≡ tells self.old }
        ensures cause { HasCause (faults self.old) (faults self.new) ⊤ result }
        ensures received { received self.new ≡ received self.old };

    /// Receives one message of at most 1,280 bytes into the front of the buffer, and answers how many bytes it has.
    /// It fails only where the count of faults rose.
    fn receive(&mut self, buffer: &mut [u8]) -> Result<usize, Failed>
        requires { 1280 ≤ length buffer.old }
        ensures step { Receives self.old
            (option_map (λ n. take n buffer.new) (result_ok result)) self.new }
        ensures size { IfOk result (λ n. n ≤ 1280) }
        ensures room { length buffer.new ≡ length buffer.old }
        ensures answer { honest self.old ≡ true
            → IfOk result (λ n. IsHonestly (far self.old) (last self.old) (take n buffer.new)) }
        ensures last { last self.new ≡ last self.old }
        ensures far { far self.new ≡ far self.old }
        ensures honest { honest self.new ≡ honest self.old }
        ensures tells { tells self.new ≡ tells self.old }
        ensures cause { HasCause (faults self.old) (faults self.new) ⊤ result }
        ensures received { received self.new ≡ counted_after (is_ok result) (received self.old) };

    // The steps mean what the clauses say.
    ghost sends: { (before : Self) (message : List ℕ) (ok : Bool) (after : Self)
        → Sends before message ok after
        → StepsTo (Some message) (last after) (far before) (far after) (honest before) (honest after) };

    ghost receives: { (before : Self) (message : Option (List ℕ)) (after : Self)
        → Receives before message after
        → StepsTo (last before) (last after) (far before) (far after) (honest before) (honest after) };

    ghost receives_honestly: { (before : Self) (message : List ℕ) (after : Self)
        → Receives before (Some message) after → honest before ≡ true
        → IsHonestly (far before) (last before) message };

    // No answer waits where nothing was asked.
    ghost none_waits: { (link : Self) → last link ≡ None → waiting link ≡ 0 };

    // Where the link tells of its far store, a question is asked in vain only where that store failed or lacks what was
    // asked for.
    ghost bounded: { (question : MessageSeen) (before after : Self) (answer : Option MessageSeen)
        → tells before ≡ true → waiting before ≤ 64 → is_question question ≡ true
        → IsMessage question → IsAbove (last before) (message_number question)
        → Asks Sends Receives question false 0 0 before answer after
        → IsBounded (waiting after) (far_faults before) (far_faults after)
        (IsThere (far before) question) answer };
}
