//! What a planner's files speak of: names, lists, the items of a line, the tables that hold them,
//! and the paths and stairways of runs.
//!
//! The definitions of motion, blocking time, conflict, rules and edits stand in `specs/`, for all
//! crates above. They speak of whole lists: the place of a block's end is a sum over the blocks
//! before it, and an edit is tested by what the tables hold.
//!
//! ```text
//! let name = Name::read(b"W1")?;
//! let block = Block { name, length_m: 1_000 };
//! let edit = Edit::Put(Item::Block(block));
//! let again = edit.copy(alloc)?;
//! ```
#![tactic(auto)]

mod copies;
mod edit;
mod form;
mod items;
pub mod laws;
mod legs;
mod limits;
mod list;
mod memory;
mod name;
mod named;
mod names;
mod path;
mod range;
mod room;
mod stair;
mod tables;

pub use edit::{Edit, Kind, Rule};
pub use form::Form;
pub use items::{Block, Connection, Item, Leg, Route, Run, Section, Signal};
pub use legs::Legs;
pub use limits::{
    BLOCKS, CONNECTIONS, GREATEST_LENGTH_M, GREATEST_MOMENT_S, GREATEST_RATE, GREATEST_START_S,
    GREATEST_TIME_S, GREATEST_WINDOW_END_S, PATH_HOPS, ROUTES, RUNS, SECTIONS, SIGNALS,
};
pub use list::List;
pub use memory::OutOfMemory;
pub use name::{BadName, NAME_BYTES, Name, same_names};
pub use named::Named;
pub use names::Names;
pub use path::{Hop, Path};
pub use range::{is_block_within, is_signal_within, is_within};
pub use room::ask_for_room;
pub use stair::{Stair, Use};
pub use tables::Tables;
