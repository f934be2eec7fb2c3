//! The motion of a train's head along its path, and the blocking times of a run, after Pachl's
//! theory of blocking times.
//!
//! `motion` says when the head reaches a place of a path. `approach` and `moments` say from when
//! until when a block is kept. `reach`, `reach_down`, `approach_moment` and `parts` answer for one
//! place or block, and sum anew for each, as the definitions do.
//!
//! `walk` gives the blockings of all hops at once. It fills a table of marks first, in `course`:
//! the place of each block's end, and the departure from it. A place is looked for among the
//! nearest marks, and else by halving. The last stop is carried along. `stair_on` gives the uses of
//! some blocks alone, and `stairs_in` puts the uses into a list that is there.
//!
//! ```text
//! let path = tables.paths()?.path(run)?;
//! for blocking in blockings(alloc, &path)?.slice() {
//!     let [form, watch, approach, running, clearing, release] = blocking.parts;
//!     let Use { block, start, end } = blocking.used;
//! }
//! ```
#![tactic(auto)]

mod approach;
mod course;
mod moments;
mod motion;
mod walk;

pub use approach::approach_moment;
pub use moments::parts;
pub use motion::{constant_speed_law, reach, reach_down};
pub use walk::{Blocking, blockings, stair_on, stairs, stairs_in};
