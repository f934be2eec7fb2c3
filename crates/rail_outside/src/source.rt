//! Where bytes come from.
ghost use Rattle.std.specs.Prelude.{◌≡◌, ◌<◌, ◌≤◌, ◌++◌, ◌↔◌, ℕ, List, Option, length, take, IsTrue, IsErr, IfOk, OnOk, OnErr};
ghost use Rattle.std.specs.Io.KnownBytes.{Consumes, Keeps, IsAtEnd};
ghost use Rattle.rail_outside.specs.InCall.{RoseByOne};

use crate::Failed;

/// Where bytes come from.
pub trait Source {
    /// The bytes that its reads gave so far. Each source tells them.
    ghost given: { Self → List ℕ };

    /// The bytes that are left, where the source tells them.
    ghost left: { Self → Option (List ℕ) };

    /// The last read gave no byte for a piece with room.
    ghost ended: { Self → Type 0 };

    /// How many reads have failed. A read that fails raises the count by one, and no other does; it
    /// stands still at its type's end (2^64 - 1).
    ghost faults: { Self → ℕ };

    /// The last read failed.
    ghost at_fault: { Self → Type 0 };

    /// Reads into a piece. `Ok(n)`: the first n bytes of the piece are the next ones. `Ok(0)` for a
    /// piece that isn't empty is the end. A read that fails gives no byte and loses none.
    fn read(&mut self, into: &mut [u8]) -> Result<usize, Failed>
        ensures within { IfOk result (λ n. n ≤ length into.old) }
        ensures more { IfOk result (λ n. given self.new ≡ given self.old ++ take n into.new) }
        ensures next { IfOk result (λ n.
            Consumes (left self.old) (left self.new) (take n into.new)) }
        ensures end { result ≡ Ok 0 → 0 < length into.old → IsAtEnd (left self.new) }
        ensures none_given { OnErr result (given self.new ≡ given self.old) }
        ensures none_lost { OnErr result (Keeps (left self.old) (left self.new)) }
        ensures at_end { ended self.new ↔ ((result ≡ Ok 0) × (0 < length into.old)) }
        ensures no_fault { OnOk result (faults self.new ≡ faults self.old) }
        ensures later { faults self.old ≤ faults self.new }
        ensures failed { OnErr result (RoseByOne (faults self.old) (faults self.new)) }
        ensures last { at_fault self.new ↔ IsErr result };
}

// Whether a read that gave so many bytes for a piece of this length found the end.
pub(crate) fn found_end(count: usize, room: usize) -> bool
    ensures { IsTrue result ↔ ((count ≡ 0) × (0 < room)) }
{
    count == 0 && room > 0
}
