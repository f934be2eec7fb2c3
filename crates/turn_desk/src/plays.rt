//! What each kind of step tells the pass that makes it.
ghost use Rattle.turn_desk.specs.Steps.{IsTake, IsGive, IsShut, IsTell};
ghost use Rattle.turn_desk.specs.Views.{one_fewer, newcomer, joined, spent};

use crate::Kept;
use crate::rule::View;
use atomic_table::{Join, Play, Split};

// The turn is taken, or was found taken.
pub(crate) struct Take;

impl<V: Kept> Play<Option<V>, View<V::Entry>> for Take {
    ghost then = { IsTake V.entries V.pass_of V.issued_by V.is_legal };
}

// The turn is given back.
pub(crate) struct Give;

impl<V: Kept> Play<Option<V>, View<V::Entry>> for Give {
    ghost then = { IsGive V.entries V.pass_of V.issued_by V.is_legal };
}

// The turn is kept for ever, and the empty slot goes home.
pub(crate) struct Shut;

impl<V: Kept> Play<Option<V>, View<V::Entry>> for Shut {
    ghost then = { IsShut V.entries V.pass_of V.issued_by V.is_legal };
}

// What was seen by the two passes of the last join agrees.
pub(crate) struct Tell;

impl<V: Kept> Play<Option<V>, View<V::Entry>> for Tell {
    ghost then = { IsTell V.entries V.pass_of V.issued_by V.is_legal };
}

// A drawn number goes to a new pass.
pub(crate) struct NewPass;

impl<E> Split<View<E>> for NewPass {
    ghost left = { one_fewer };

    ghost right = { newcomer };
}

// Two passes become one.
pub(crate) struct Glue;

impl<E> Join<View<E>> for Glue {
    ghost both = { joined };

    ghost spent = { spent };
}
