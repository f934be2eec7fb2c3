//! A failed call, and the counts of them.
ghost use Rattle.std.specs.Prelude.{◌≡◌, ◌↔◌, IsTrue, Contains};
ghost use Rattle.rail_outside.specs.InCall.{raised};

use rail_model::List;

/// A read, a write or a flush failed.
#[derive(Clone, Copy, Debug, PartialEq, Eq)]
pub struct Failed;

// The count after one more. It stands still at 2^64 - 1.
pub(crate) fn one_more(count: u64) -> u64
    ensures { result ≡ raised count }
{
    count.saturating_add(1)
}

// Whether the call of this number is among those that fail.
pub(crate) fn is_listed(fails: &List<u64>, call: u64) -> bool
    ensures { IsTrue result ↔ Contains fails.now call }
{
    fails.slice().contains(&call)
}
