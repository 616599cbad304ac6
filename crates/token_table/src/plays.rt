//! What each step on the table tells, and how seats are split and joined.

ghost use Rattle.token_table.specs.Changes.{Tries, Leaves, Admits, Evicts, Watches, making, made_next, alone, leaving, welcoming, ending};
ghost use Rattle.token_table.specs.declared.knowledge.View.TheVariants.{Spent};

use crate::knowledge::View;
use atomic_table::{Join, Play, Split};

/// A session tries to lock a patch.
pub(crate) struct Try;

impl Play<(), View> for Try {
    ghost then = { Tries };
}

/// A session withdraws a try, or gives a lock back.
pub(crate) struct Leave;

impl Play<(), View> for Leave {
    ghost then = { Leaves };
}

/// The keeper counts an admission.
pub(crate) struct Admission;

impl Play<(), View> for Admission {
    ghost then = { Admits };
}

/// The keeper counts an eviction, if there is no use.
pub(crate) struct Eviction;

impl Play<(), View> for Eviction {
    ghost then = { Evicts };
}

/// The keeper looks at what it knows.
pub(crate) struct Watch;

impl Play<(), View> for Watch {
    ghost then = { Watches };
}

/// The next session's seat is split off the keeper's.
pub(crate) struct Making;

impl Split<View> for Making {
    ghost left = { making };

    ghost right = { made_next };
}

/// A session's seat is joined into the keeper's, and split off again.
pub(crate) struct Visit;

impl Split<View> for Visit {
    ghost left = { alone };

    ghost right = { leaving };
}

impl Join<View> for Visit {
    ghost both = { welcoming };

    ghost spent = { Spent };
}

/// A session's seat is joined into the keeper's for good.
pub(crate) struct End;

impl Join<View> for End {
    ghost both = { ending };

    ghost spent = { Spent };
}
