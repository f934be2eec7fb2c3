//! The limits of an input.

/// The greatest number of bytes of an input.
pub const INPUT_BYTES: usize = 16_777_216;
