//! The law of the core.

ghost use Rattle.std.specs.Prelude.{◌≡◌, ◌⊎◌, ℕ, true, List, Option, Some};
ghost use Rattle.view_outside.specs.Files.{Named};
ghost use Rattle.view_outside.specs.Messages.{MessageSeen, message_number, is_question, message_text, IsMessage};
ghost use Rattle.view_outside.specs.Links.{IsTrueOf, IsAbove, IsHonestly};
ghost use Rattle.link_laws.specs.Cores.{Event, Core, Sent, CoreSteps, fresh, CoreRuns, Takes};
ghost use Rattle.link_laws.specs.Ties.{LastOf, after_sent, IsHeard};

/// For every list of events, an answer that the reader takes then is true of the far files: bytes are the file's at the
/// offset that was asked for.
pub fn what_is_taken_is_true()
    ensures { (far : Option (List Named)) (events : List Event) (core next : Core) (question message : MessageSeen)
        → CoreRuns far fresh events core → Takes far core question message next → IsTrueOf far question message }
{}

/// Where the core's last question is the last one sent over a link, sending the next one is an event of the core, and
/// what is received, where the link is honest, is one too, or two where the answer wasn't made yet.
pub fn steps_are_events()
    ensures sends { (far : Option (List Named)) (core : Core) (last after : Option (List ℕ)) (question : MessageSeen)
        → IsMessage question → is_question question ≡ true → LastOf core.questions last
        → (last ≡ Some (message_text question)) ⊎ IsAbove last (message_number question)
        → after ≡ Some (message_text question)
        → CoreSteps far core (Sent question) (after_sent core question)
        × LastOf (after_sent core question).questions after }
    ensures receives { (far : Option (List Named)) (core : Core) (last : Option (List ℕ)) (bytes : List ℕ)
        → LastOf core.questions last → IsHonestly far last bytes → IsHeard far core bytes }
{}
