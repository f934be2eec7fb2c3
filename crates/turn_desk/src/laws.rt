//! Laws for those who keep facts about what passes have seen. That a fact of all entries of a
//! number is kept as the journal goes on is the lemmas of `proofs/Facts.antt`.
ghost use Rattle.std.specs.Prelude.{◌≡◌, ℕ, List};
ghost use Rattle.turn_desk.specs.Entering.{LaterNumbersAreGreater};
ghost use Rattle.turn_desk.specs.Known.{TableId};
ghost use Rattle.turn_desk.specs.Laws.{LeavingGoesOn, GoingOnAddsUp};
ghost use Rattle.turn_desk.specs.Laws.{NewPassesStandInOrder, NumbersTellDesks};

use crate::{Kept, MOST_PASSES};

/// The most passes of a desk, by their number.
pub fn limits()
    ensures most_passes { MOST_PASSES ≡ 4294967295 }
{}

/// What is seen once a pass has left into another goes on from what either had seen.
pub fn leaving_goes_on<V: Kept>()
    ensures { LeavingGoesOn V.pass_of }
{}

/// What goes on from a list that goes on from what a pass had seen goes on from that, too.
pub fn going_on_adds_up<V: Kept>()
    ensures { GoingOnAddsUp V.pass_of }
{}

/// New passes stand in the order of their numbers, each as it was given.
pub fn new_passes_stand_in_order<V: Kept>()
    ensures { (desk : TableId) (seen : List V.Entry) (first count : ℕ)
        → NewPassesStandInOrder desk seen first count }
{}

/// A pass that has seen some entries draws numbers that these haven't issued. So numbers that were
/// issued where memory ran out go to no pass later.
pub fn later_numbers_are_greater<V: Kept>()
    ensures { LaterNumbersAreGreater V.pass_of V.issued_by }
{}

/// Two desks of the same numbers are one.
pub fn numbers_tell_desks()
    ensures { NumbersTellDesks }
{}
