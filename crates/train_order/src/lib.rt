//! The order in time of a cut's trains, or why they have none: two trains each of which precedes
//! the other at some place, or a ring of trains each of which precedes the next.
//!
//! The definition takes trains out in rounds. `order` first takes the trains by their entries, and
//! answers at once where each place keeps that order. Where few trains are out of turn, so that the
//! others keep it, only pairs with one of the few are compared, and the first that is opposite is
//! the answer. Where many are out of turn, the first trains by name are compared with all others,
//! since mostly one of them is opposite to another. Else the users of each place are sorted once.
//! Each train gets a set of bits with those that precede it. It is taken out after all of them: the
//! search goes back to the first that is left, until a train has none left.
//!
//! `disorder_of` and `place_of_link` say the same without memory, with sets on the stack.
//!
//! ```text
//! match order(alloc, &cut)? {
//!     Ok(order) => place_in_window(alloc, &fit, order.positions.slice())?,
//!     Err(Disorder::Opposite { first, second, block1, block2 }) => ..,
//!     Err(Disorder::Ring(links)) => ..,
//! }
//! ```
#![tactic(auto)]

mod disorder;
mod entry_order;
mod found;
mod laws;
mod link_place;
mod member_set;
mod members;
mod opposite;
mod ordering;
mod out_of_turn;
mod pairs;
mod precedence;
mod ring;
mod taking;
mod told;
mod visits;

pub use disorder::disorder_of;
pub use found::{Disordered, Order, RingMembers};
pub use laws::{disorder_is_unique, each_comes_next, ordered_has_no_disorder};
pub use link_place::place_of_link;
pub use ordering::order;
pub use plan_model::Disorder;
pub use ring::next_place;
pub use visits::{Visit, visits_at};
