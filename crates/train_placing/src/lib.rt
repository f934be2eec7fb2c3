//! Trains are placed one after the other, in their order, each as early as its floor and the places
//! that it uses allow. That is the least schedule from these floors.
//!
//! For each place the last use so far is kept: until when, and by which train. A train enters as
//! soon as each of its places is free, and not before its floor. Its tie is the first, by train and
//! place, of the last uses that end as it starts there. Then its own uses are the last ones. So
//! nothing is done for each pair of trains.
//!
//! That no train can enter earlier follows from the ties. Each train enters at its floor or touches
//! one that precedes it, and by `plan_model::tied_is_least` such a schedule is the least. What is
//! known on the way is one record, `ArePlaced` in `specs/Placing.antt`.
//!
//! ```text
//! let placing = place_in_window(alloc, &cut, order.positions.slice())?;
//! let (entries, ties) = (&placing.entries, &placing.ties);
//! let plan = plan_of_placed(alloc, &cut, entries, ties, &placing.last)?;
//! ```
#![tactic(auto)]

mod last;
mod placing;
mod plan;
mod tie;

pub use last::Last;
pub use placing::{Placing, place_all, place_in_window};
pub use plan::{plan_of_occupied, plan_of_placed};
