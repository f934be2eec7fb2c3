//! Writing a whole text, in one piece or in several.
ghost use Rattle.std.specs.Prelude.{◌≡◌, ◌≤◌, ◌++◌, ℕ, length, take, OnOk, OnErr};
ghost use Rattle.std.specs.List.{flat_map};
ghost use Rattle.std.specs.Io.KnownBytes.{Appends};
ghost use Rattle.rail_outside.specs.InCall.{RoseByOne, IsFlushed};

use crate::{Failed, Sink};

/// Writes a text and flushes it. Takes no memory. Where a call fails, a prefix of the text is
/// written.
///
/// For a text in one piece. The program's texts are in pieces, which `send_each` writes.
pub fn send_all<K: Sink>(sink: &mut K, text: &[u8]) -> Result<(), Failed>
    ensures sent { OnOk result (Appends (K.written sink.old) (K.written sink.new) text.now) }
    ensures taken { OnOk result (K.taken sink.new ≡ K.taken sink.old ++ text.now) }
    ensures flushed { OnOk result (IsFlushed (K.taken sink.new) (K.flushed sink.new)) }
    ensures prefix { OnErr result ((n : ℕ) × (n ≤ length text.now)
        × Appends (K.written sink.old) (K.written sink.new) (take n text.now)
        × (K.taken sink.new ≡ K.taken sink.old ++ take n text.now)) }
    ensures no_fault { OnOk result (K.faults sink.new ≡ K.faults sink.old) }
    ensures failed { OnErr result (RoseByOne (K.faults sink.old) (K.faults sink.new)) }
    ensures later { K.faults sink.old ≤ K.faults sink.new }
{
    write_all(sink, text)?;
    sink.flush()
}

/// Writes a text in pieces, one after the other, and flushes it. Takes no memory. Where a call
/// fails, a prefix of the text is written.
pub fn send_each<K: Sink>(sink: &mut K, pieces: &[Vec<u8>]) -> Result<(), Failed>
    ensures sent { OnOk result (Appends (K.written sink.old) (K.written sink.new)
        (flat_map (λ piece. piece.items) pieces.now)) }
    ensures taken { OnOk result (K.taken sink.new
        ≡ K.taken sink.old ++ flat_map (λ piece. piece.items) pieces.now) }
    ensures flushed { OnOk result (IsFlushed (K.taken sink.new) (K.flushed sink.new)) }
    ensures prefix { OnErr result ((n : ℕ)
        × (n ≤ length (flat_map (λ piece. piece.items) pieces.now))
        × Appends (K.written sink.old) (K.written sink.new)
        (take n (flat_map (λ piece. piece.items) pieces.now))
        × (K.taken sink.new
        ≡ K.taken sink.old ++ take n (flat_map (λ piece. piece.items) pieces.now))) }
    ensures no_fault { OnOk result (K.faults sink.new ≡ K.faults sink.old) }
    ensures failed { OnErr result (RoseByOne (K.faults sink.old) (K.faults sink.new)) }
    ensures later { K.faults sink.old ≤ K.faults sink.new }
{
    for piece in pieces {
        write_all(sink, piece)?;
    }
    sink.flush()
}

// Writes a text, and flushes nothing.
fn write_all<K: Sink>(sink: &mut K, text: &[u8]) -> Result<(), Failed>
    ensures sent { OnOk result (Appends (K.written sink.old) (K.written sink.new) text.now) }
    ensures taken { OnOk result (K.taken sink.new ≡ K.taken sink.old ++ text.now) }
    ensures prefix { OnErr result ((n : ℕ) × (n ≤ length text.now)
        × Appends (K.written sink.old) (K.written sink.new) (take n text.now)
        × (K.taken sink.new ≡ K.taken sink.old ++ take n text.now)) }
    ensures no_fault { OnOk result (K.faults sink.new ≡ K.faults sink.old) }
    ensures failed { OnErr result (RoseByOne (K.faults sink.old) (K.faults sink.new)) }
    ensures later { K.faults sink.old ≤ K.faults sink.new }
{
    let mut sent: usize = 0;
    while sent < text.len() {
        sent += sink.write(&text[sent..])?;
    }
    Ok(())
}
