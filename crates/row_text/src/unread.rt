//! Why a row is not read: a fault of its form, or want of memory.
use rail_model::{Form, OutOfMemory};
use std::alloc::{AllocError, AllocFailed};

/// Why a row or a part of it is not read.
#[derive(Clone, Copy)]
pub enum Unread {
    /// It has a fault of its form.
    Fault(Form),
    /// Memory ran out.
    OutOfMemory,
}

impl From<Form> for Unread {
    ghost use Rattle.std.specs.Prelude.{◌≡◌};
    ghost use Rattle.row_text.specs.declared.unread.Unread.TheVariants as unread;

    ghost from_gives = { λ fault result. result ≡ unread.Fault fault };

    fn from(fault: Form) -> Self {
        Unread::Fault(fault)
    }
}

impl From<OutOfMemory> for Unread {
    ghost use Rattle.std.specs.Prelude.{◌≡◌};
    ghost use Rattle.row_text.specs.declared.unread.Unread.TheVariants as unread;

    ghost from_gives = { λ _ result. result ≡ unread.OutOfMemory };

    fn from(_: OutOfMemory) -> Self {
        Unread::OutOfMemory
    }
}

impl From<AllocError> for Unread {
    ghost use Rattle.std.specs.Prelude.{◌≡◌};
    ghost use Rattle.row_text.specs.declared.unread.Unread.TheVariants as unread;

    ghost from_gives = { λ _ result. result ≡ unread.OutOfMemory };

    fn from(_: AllocError) -> Self {
        Unread::OutOfMemory
    }
}

impl<T: Drop> From<AllocFailed<T>> for Unread {
    ghost use Rattle.std.specs.Prelude.{◌≡◌};
    ghost use Rattle.row_text.specs.declared.unread.Unread.TheVariants as unread;

    ghost from_gives = { λ _ result. result ≡ unread.OutOfMemory };

    fn from(_: AllocFailed<T>) -> Self {
        Unread::OutOfMemory
    }
}
