//! The chain of trains that lets a train of a compressed timetable enter no earlier, and whether an
//! answer is that of a cut.
//!
//! `chain` goes back along the ties, from a train to one that enters at the window's start, and
//! turns the links round. It ends because a tie names a train that precedes, and such a train is
//! taken out in an earlier round.
//!
//! `is_answer` compresses nothing and takes no memory; its lists are arrays on the stack. It finds
//! disorder by `train_order::disorder_of`. Of an ordered answer it tests:
//!
//! 1. The window, the places and the trains are those of the cut.
//! 2. Each train enters at the window's start or touches the train that its tie names.
//! 3. At each place each visit follows the one before, and of those that touch a train none comes
//!    before its tie by name.
//! 4. The occupancy time, the busiest block and the critical train are those of the entries.
//!
//! By `plan_model::tied_is_least` a schedule that passes these tests is the least.
//!
//! ```text
//! if let Answer::Ordered(plan) = &answer {
//!     for link in chain(alloc, plan, train)?.slice() { .. }
//! }
//! let holds = is_answer(&cut, &answer);
//! ```
#![tactic(auto)]

mod answered;
mod checking;
mod keeping;
mod last;
mod laws;
mod links;
mod moved;
mod touched;
mod trains;

pub use answered::is_answer;
pub use laws::{chain_is_of, chain_is_unique, checked_is_compressed, ordered_is_not_opposite};
pub use links::chain;
