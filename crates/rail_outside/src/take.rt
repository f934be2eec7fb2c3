//! Reading a whole input.
ghost use Rattle.std.specs.Prelude.{◌≡◌, ◌≢◌, ◌+◌, ◌-◌, ◌^◌, ◌<◌, ◌≤◌, ◌++◌, ℕ, List, length, IfOk, IsErrOf};
ghost use Rattle.std.specs.Io.KnownBytes.{Consumes, IsAtEnd};
ghost use Rattle.rail_outside.specs.InCall.{RoseByOne};

use crate::Source;
use rail_model::{List, OutOfMemory};
use std::alloc::Global;

/// Why `take_all` gave no bytes.
#[derive(Clone, Copy, Debug, PartialEq, Eq)]
pub enum Taken {
    /// A read failed. None was made after it.
    Failed,
    /// The source gave one byte more than the limit.
    TooLong,
}

// The greatest number of bytes that one read is asked for.
const PIECE_BYTES: usize = 65_536;

/// Takes all bytes that a source has left, at most `limit`. It stops at the end of the source, at a
/// read that fails, after which it makes none, and at the first byte past the limit, of which it
/// takes one. Where memory runs out, what was taken is lost.
pub fn take_all<S: Source>(
    alloc: Global,
    source: &mut S,
    limit: usize,
) -> Result<Result<List<u8>, Taken>, OutOfMemory>
    requires { limit < 2 ^ 63 - 1 }

    // All bytes that the source had left, in their order.
    ensures within { IfOk result (λ taken. IfOk taken (λ bytes. length bytes ≤ limit)) }
    ensures whole { IfOk result (λ taken. IfOk taken (λ bytes.
        Consumes (S.left source.old) (S.left source.new) bytes)) }
    ensures given { IfOk result (λ taken. IfOk taken (λ bytes.
        S.given source.new ≡ S.given source.old ++ bytes)) }
    ensures end { IfOk result (λ taken. IfOk taken (λ bytes. IsAtEnd (S.left source.new))) }
    ensures ended { IfOk result (λ taken. IfOk taken (λ bytes. S.ended source.new)) }

    ensures too_long { IfOk result (λ taken. IsErrOf taken Taken.TooLong →
        ((bytes : List ℕ) × (length bytes ≡ limit + 1)
        × (Consumes (S.left source.old) (S.left source.new) bytes
        × (S.given source.new ≡ S.given source.old ++ bytes)))) }

    // One read failed, after no more bytes than the limit, and none came after it. Unless it says so,
    // no read failed.
    ensures failed { IfOk result (λ taken. IsErrOf taken Taken.Failed →
        RoseByOne (S.faults source.old) (S.faults source.new)) }
    ensures last { IfOk result (λ taken. IsErrOf taken Taken.Failed → S.at_fault source.new) }
    ensures failed_within { IfOk result (λ taken. IsErrOf taken Taken.Failed →
        ((bytes : List ℕ) × (length bytes ≤ limit)
        × (Consumes (S.left source.old) (S.left source.new) bytes
        × (S.given source.new ≡ S.given source.old ++ bytes)))) }
    ensures no_fault { result ≢ Ok (Err Taken.Failed) → S.faults source.new ≡ S.faults source.old }
    ensures later { S.faults source.old ≤ S.faults source.new }
{
    let mut bytes = Vec::new(alloc);
    let mut piece = [0u8; PIECE_BYTES];
    while bytes.len() <= limit {
        let most = PIECE_BYTES.min(limit + 1 - bytes.len());
        match source.read(&mut piece[..most]) {
            Err(_) => return Ok(Err(Taken::Failed)),
            Ok(0) => return Ok(Ok(List::from_vec(bytes))),
            Ok(count) => bytes.extend_from_slice(&piece[..count])?,
        }
    }
    Ok(Err(Taken::TooLong))
}
