//! A lock that hands one value from thread to thread, so that each can prove what the others may
//! have done meanwhile.
//!
//! A `Desk` has a word and a slot. The word is 0 where the turn is free, and the slot then holds
//! the value. The thread that changes the word from 0 to 1 has the turn. It takes the value out,
//! works on it alone, puts it back, and stores 0. A thread that finds 1 sleeps until it is woken,
//! or goes away with `Busy`.
//!
//! The value keeps a journal, to which each change adds an entry with the number of a pass. A
//! `Pass` is a thread's access. At run time it is a number; what else it knows exists in proofs:
//! the part of the journal that it has seen, and the pass numbers that are its own.
//!
//! - `take`, `try_take`: the journal is what the pass had seen, and then entries of others alone.
//! - `give`: what the pass has seen is the value's journal.
//! - `enter`: new passes, which start with all that the drawing pass has seen.
//! - `leave`: the longer of two seen parts stays, with the numbers of both passes.
//! - `shut`, `close`: the value, and no desk any more.
//!
//! ```text
//! let (desk, mut pass) = Desk::start(alloc, value)?;
//! let mut turn = desk.take(rt, &mut pass);
//! let changed = change(turn.value_mut());
//! desk.give(&mut pass, turn); // also where the change failed
//! let value = desk.close(rt, pass);
//! ```
#![tactic(auto)]

mod crossing;
mod desk;
mod drawn;
mod kept;
mod laws;
mod pass;
mod plays;
mod rule;
mod steps;
mod turn;

pub use desk::{Busy, Desk, Full};
pub use kept::{Kept, MOST_PASSES};
pub use laws::{
    going_on_adds_up, later_numbers_are_greater, leaving_goes_on, limits,
    new_passes_stand_in_order, numbers_tell_desks,
};
pub use pass::Pass;
pub use turn::Turn;
