//! Where and why an input is refused.
use crate::Cause;

// At which row an input is refused, counted from 1, or with row 0 as a whole, and why.
#[derive(Clone, Copy)]
pub(crate) struct Refusal {
    pub(crate) row: u64,
    pub(crate) cause: Cause,
}
