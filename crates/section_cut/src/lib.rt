//! The cuts of a line's sections: which runs enter a section within its window, what they use of
//! it, and which connections bind them.
//!
//! `cut_of` makes one cut from the runs' stairways. A table over the numbers of blocks says where
//! each stands in the section, so no name is looked up for a use. A run is passed over where all
//! its uses start before the window or all after it, and of the others only the uses between the
//! first and the last place in the section are looked at. These places are found once for all
//! stairways over the same blocks that are made together, for up to 16 lists of blocks; stairways
//! over others are looked at whole. Connections come after that: one that binds adds a use to the
//! rows of its two runs. `cut_among` makes the cuts of many sections from stairways that are made
//! once, by `stairways` or, side by side, by `stairways_in_parts`. `all_cuts` makes the cuts of all
//! sections with few stairways at a time, which takes less memory.
//!
//! `cut_change` makes a cut that is kept that of the tables after an edit, with the stamps of its
//! rows, and tells whether the edit touches the section; `CutChanges` does so for many sections:
//!
//! - An edit of a run makes that run's stairway once, for all sections. Where its row has a use
//!   for each block of its path, the positions stay, and only times are written. Where each of the
//!   run's connections binds after the edit exactly where it does before, one row is replaced,
//!   inserted or removed, all others stay, and the cut isn't copied. Otherwise it is copied, and the
//!   connections are bound anew among all members.
//! - An edit of a section touches no other. Where its window and its blocks stay, as where only its
//!   additional time rate changes, its rows stay, too.
//! - An edit of a connection touches the sections in which it binds before or after it. There the
//!   connections are bound anew, while the members and their uses of blocks stay. Another minimum
//!   changes one use of the first run's row.
//! - A change of a signal that keeps its block touches no section without the block, and of the
//!   runs' new stairways only the uses in sections with it are made. Otherwise an edit of a block,
//!   a signal or a route compares the row of each run that passes it with the run's new stairway.
//!   A row that differs is copied, and its uses that differ are written anew. Uses of connections
//!   stay, where each of these runs that has a connection enters the section as before. Otherwise
//!   the connections are bound anew among all members.
//! - Rows that stand as before keep their stamps.
//!
//! ```text
//! let stairs = AllStairways::of(alloc, stairways(alloc, &tables)?)?;
//! for section in 0..tables.sections() {
//!     let cut = cut_among(alloc, &tables, &stairs, section, stamp)?;
//! }
//! ```
#![tactic(auto)]

mod all_stairways;
mod bound_anew;
mod connected;
mod connections;
mod cut_changes;
mod cuts;
mod late;
mod laws;
mod line_cuts;
mod members;
mod one_block;
mod one_connection;
mod one_run;
mod passing_runs;
mod positions;
mod reach;
mod reached_rows;
mod reached_runs;
mod reached_stairs;
mod same_value;
mod spans;
mod stamps;
mod timed_stair;
mod times;
mod wanted_blocks;

pub use all_stairways::{AllStairways, stairways, stairways_in_parts};
pub use cut_changes::{CutChange, CutChanges, cut_change};
pub use cuts::{cut_among, cut_of};
pub use laws::made_cuts_have_their_value;
pub use line_cuts::all_cuts;
