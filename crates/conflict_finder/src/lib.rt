//! The conflicts of a timetable: which runs block one block at one time, and from when until when.
//!
//! The blocks are taken in parts of consecutive numbers, side by side by threads where there are
//! many uses. The blockings of a part are laid out by block, in one list for each. Runs are taken
//! in the order in which they enter the line, so a list is nearly in the order of its starts. Each
//! blocking is moved back to its place where that is near, and else the list is sorted.
//!
//! Each list is then swept by itself. What conflicts with a blocking follows it, up to the first
//! that starts at its end or later. That end is found by a few tests, and else by halving, so
//! conflicts that are not listed are counted without a walk over them. The lists of a part are let
//! go of when it is swept. Each part lists conflicts by the numbers of the runs, and the first of
//! all are then given their names.
//!
//! ```text
//! let found = conflicts(rt, alloc, &stairways)?;
//! for conflict in found.list.slice() {
//!     let Conflict { block, first, second, from, to } = conflict;
//! }
//! let all = found.list.len() as u64 + found.more;
//! ```
#![tactic(auto)]

mod by_block;
mod found;
mod in_order;
mod laws;
mod parts;
mod ranked;
mod run_starts;
mod run_uses;
mod sweep;

pub use found::{Conflict, Conflicts, LISTED};
pub use laws::{conflicts_are_unique, found_is_unique};
pub use sweep::conflicts;
