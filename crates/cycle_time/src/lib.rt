//! The least cycle time of a section: after how many seconds its pattern of trains can repeat
//! without end, with running times, dwell times and order kept, and a ring of trains that refuses
//! each lesser period. `shows` tells whether a cycle from elsewhere is one.
//!
//! On each place a demand leads to a train from the last train that used the place. On each block
//! one more leads from the last train to the first of the next pattern. A demand's weight says how
//! long after the first train the second must enter. Entries that keep the demands keep all pairs.
//!
//! To try a period, all trains enter at the window's start at first. Each round raises the second
//! train of each demand that isn't kept, and the demand stays with it as the cause. After a round
//! the causes are followed back from the latest raised train:
//!
//! - They end at a train that was never raised: there is another round.
//! - They come to a train twice: a ring, which asks for more than this period gives. The next
//!   period that is tried is the least that the ring allows.
//!
//! The first period that no ring refuses is the least, and the last ring refuses every lesser one.
//!
//! `shows` takes the visits of each place in the order of precedence, sees that each train is off
//! before the next comes, and adds the weights along the ring. It takes no memory.
//!
//! ```text
//! match cycle(alloc, &cut)? {
//!     Ok(cycle) => cycle_rows(&mut sheet, &cut, &cycle)?,
//!     Err(disorder) => ..,
//! }
//! ```
#![tactic(auto)]

mod checking;
mod demand;
mod found;
mod keeping;
mod laws;
mod laying;
mod least_period;
mod merging;
mod raising;
mod refusal;
mod repetition;
mod ring;
mod rows;
mod settling;
mod stay;
mod steps;
mod trail;
mod turning;

pub use checking::shows;
pub use found::{Cycle, Step};
pub use laws::{
    answer_is_there, cycle_is_there, cycles_are_alike, longer_repeats, no_lesser_period,
    period_is_within_occupancy, schedule_repeats, shorter_is_refused,
};
pub use repetition::cycle;
pub use rows::cycle_rows;
