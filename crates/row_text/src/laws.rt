//! A law of the definitions: the function does nothing, and its contract is the law.
ghost use Rattle.std.specs.Prelude.{◌≡◌};

use crate::GREATEST_CLOCK_S;

/// The greatest time of day, by its number; how many digits a number and hours have is a law of
/// `capacity_cmd`.
pub fn limits()
    ensures clock_s { GREATEST_CLOCK_S ≡ 359999999 }
{}
