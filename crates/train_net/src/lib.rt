//! The net of a cut: for each train, edges from the trains that stand nearest before it at its
//! places, each with the headway there.
//!
//! Who stands farther before has left when the nearest comes. So entries that keep the edges keep
//! all pairs of trains, and the earliest that do are the compressed timetable. Entries and ties are
//! read off the net. For the occupancy time only the first and the last use of each block are
//! looked at.
//!
//! `mend` makes the net of a later cut from that of an earlier one, where few trains are fresh:
//!
//! 1. Kept trains stand as before. Where each also has the position that it had, fresh ones are
//!    tried at their old places first; else they stand by their entries.
//! 2. A kept train has the edges that it had, unless a train from which one came is gone, or a
//!    fresh train stands nearest before it at a place.
//! 3. The edges to every other train are made from its uses, and it is compared with its nearest at
//!    each place. Where it doesn't follow its nearest, there is no mended net.
//!
//! A net speaks of its own cut alone (`IsNetOf`), so nothing about entries is carried from one cut
//! to the next.
//!
//! ```text
//! let net = net_of(alloc, &sound, order.positions)?;
//! let plan = plan_by(alloc, &fit, &net)?;
//! if let Some(later) = mend(alloc, &later_sound, &net, &origin)? {
//!     let plan = plan_by(alloc, &later_fit, &later)?;
//! }
//! ```
#![tactic(auto)]

mod edge;
mod edge_lists;
mod edges;
mod ends;
mod entering;
mod laws;
mod making;
mod marking;
mod mending;
mod near;
mod net;
mod plan;
mod reordered;
mod tying;

pub use edge::Edge;
pub use edge_lists::EdgeLists;
pub use laws::{
    along_are_spans, carried_are_edges, compared_follow, following_is_order, mended_is_net,
    read_are_placed, solved_is_least, unmarked_has_none_fresh,
};
pub use making::net_of;
pub use mending::mend;
pub use net::Net;
pub use plan::plan_by;
