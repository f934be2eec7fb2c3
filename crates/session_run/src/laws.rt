//! A law of the definitions: the function does nothing, and its contract is the law.
ghost use Rattle.std.specs.Prelude.{◌≡◌};

use crate::WORKERS;

/// The most workers of a session, by their number; planners and tasks are a law of `capacity_cmd`.
pub fn limits()
    ensures workers { WORKERS ≡ 16 }
{}
