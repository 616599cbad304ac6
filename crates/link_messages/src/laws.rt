//! The law of messages and their bytes.

ghost use Rattle.std.specs.Prelude.{◌≡◌, ℕ, List, Some};
ghost use Rattle.view_outside.specs.Files.{AreBytes};
ghost use Rattle.view_outside.specs.Messages.{MessageSeen, IsMessage, message_text, message_in};
ghost use Rattle.link_messages.specs.Spells.{IsSpelled};

/// The bytes of a message are read as that message, and bytes that are read as a message are that message's.
pub fn a_message_has_one_spelling()
    ensures read { (m : MessageSeen) → IsMessage m → message_in (message_text m) ≡ Some m }
    ensures spells { (bytes : List ℕ) (m : MessageSeen) → AreBytes bytes
        → message_in bytes ≡ Some m → IsSpelled m bytes }
{}
