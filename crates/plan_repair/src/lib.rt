//! The answer of a section by repair: of a reading's cut only those rows are taken that aren't
//! kept from an earlier reading with their name and stamp. Where few rows change, the net of the
//! kept ones is mended, and the answer is read off it.
//!
//! A `Keep` has the rows of the last reading, and the net of its trains if they have an order.
//! `repair` goes through kept rows and read rows side by side. As long as their names are the same,
//! a kept row of the stamp that is read stays where it is, and any other is taken in its place. From
//! the first other name on, both are gone through in the order of names, and a kept row of the name
//! and stamp that is read is moved into the new cut. The uses of a row that stays or is moved are
//! neither taken nor copied. Every other row is taken. It shares the uses of the cut's row where
//! those can be shared, and else copies them (`SharedUses`). Section and connections come from the
//! reading. What is known on the way is one record, `IsRenewed` in `specs/Renewed.antt`.
//!
//! The net is mended where at most a quarter of the rows is fresh and the places are the same.
//! Else the order is found and the net made from all uses, as for a first answer. A cut without an
//! order has no net. Of a crowded cut nothing is taken and nothing kept.
//!
//! ```text
//! let (keep, answer) = Keep::first(alloc, &mut reading)?;
//! let (keep, answer) = keep.repair(alloc, &mut later)?;
//! ```
#![tactic(auto)]

mod held;
mod keep;
mod left;
mod renewed;
mod taken;

pub use keep::Keep;
