//! Where bytes go.
ghost use Rattle.std.specs.Prelude.{◌≡◌, ◌<◌, ◌≤◌, ◌++◌, ℕ, List, Option, length, take, IfOk, OnOk, OnErr};
ghost use Rattle.std.specs.Io.KnownBytes.{Appends, Keeps};
ghost use Rattle.rail_outside.specs.InCall.{RoseByOne, IsFlushed};

use crate::Failed;

/// Where bytes go.
pub trait Sink {
    /// The bytes that its writes took so far. Each sink tells them.
    ghost taken: { Self → List ℕ };

    /// The bytes that it holds, where the sink tells them.
    ghost written: { Self → Option (List ℕ) };

    /// How many of the bytes taken are flushed. A failed flush may leave any number.
    ghost flushed: { Self → ℕ };

    /// How many calls have failed. A call that fails raises the count by one, and no other does; it
    /// stands still at its type's end (2^64 - 1).
    ghost faults: { Self → ℕ };

    /// Writes the first bytes of a piece. `Ok(n)`: the first n bytes are written, at least one
    /// where the piece isn't empty. A write that fails takes nothing, and writes nothing where the
    /// sink tells it.
    fn write(&mut self, from: &[u8]) -> Result<usize, Failed>
        ensures within { IfOk result (λ n. n ≤ length from.now) }
        ensures some { IfOk result (λ n. 0 < length from.now → 0 < n) }
        ensures more { IfOk result (λ n. taken self.new ≡ taken self.old ++ take n from.now) }
        ensures appended { IfOk result (λ n.
            Appends (written self.old) (written self.new) (take n from.now)) }
        ensures flushed_stay { flushed self.new ≡ flushed self.old }
        ensures none_taken { OnErr result (taken self.new ≡ taken self.old) }
        ensures nothing { OnErr result (Keeps (written self.old) (written self.new)) }
        ensures no_fault { OnOk result (faults self.new ≡ faults self.old) }
        ensures later { faults self.old ≤ faults self.new }
        ensures failed { OnErr result (RoseByOne (faults self.old) (faults self.new)) };

    /// Flushes all bytes taken.
    fn flush(&mut self) -> Result<(), Failed>
        ensures none_taken { taken self.new ≡ taken self.old }
        ensures nothing { Keeps (written self.old) (written self.new) }
        ensures all { OnOk result (IsFlushed (taken self.new) (flushed self.new)) }
        ensures no_fault { OnOk result (faults self.new ≡ faults self.old) }
        ensures later { faults self.old ≤ faults self.new }
        ensures failed { OnErr result (RoseByOne (faults self.old) (faults self.new)) };
}
