//! Why a step of a call gives nothing.
use rail_model::OutOfMemory;
use std::alloc::AllocError;

// A refusal, which says why, or want of memory.
#[derive(Drop)]
pub(crate) enum Stopped<W> {
    Refused(W),
    OutOfMemory,
}

impl<W: Drop> From<OutOfMemory> for Stopped<W> {
    ghost use Rattle.std.specs.Prelude.{◌≡◌};
    ghost use Rattle.capacity_cmd.specs.declared.stopped.Stopped.TheVariants as stopped;

    ghost from_gives = { λ _ result. result ≡ stopped.OutOfMemory };

    fn from(_: OutOfMemory) -> Self {
        Stopped::OutOfMemory
    }
}

impl<W: Drop> From<AllocError> for Stopped<W> {
    ghost use Rattle.std.specs.Prelude.{◌≡◌};
    ghost use Rattle.capacity_cmd.specs.declared.stopped.Stopped.TheVariants as stopped;

    ghost from_gives = { λ _ result. result ≡ stopped.OutOfMemory };

    fn from(_: AllocError) -> Self {
        Stopped::OutOfMemory
    }
}
