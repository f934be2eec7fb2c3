//! Laws of the definitions: each function does nothing, and its contract is the law.
ghost use Rattle.std.specs.Prelude.{◌≡◌};
ghost use Rattle.plan_book.specs.Alone.{NobodyElseAdds};

use crate::FIRST_NUMBER;

/// The greatest first number, by its number; planners and tasks are a law of `capacity_cmd`.
pub fn limits()
    ensures first_number { FIRST_NUMBER ≡ 16777216 }
{}

/// A call by a pass that is alone with a book finds what the pass has seen.
pub fn nobody_else_adds()
    ensures { NobodyElseAdds }
{}
