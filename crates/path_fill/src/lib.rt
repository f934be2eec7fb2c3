//! How many more trains fit into a section: copies of one of its trains that follow all planned
//! trains, as many as leave the capacity consumption at most 1.
//!
//! The trains are compressed first. The first copy enters as early as the last uses of its blocks
//! allow, and each further one a constant headway later. So the occupancy time with any number of
//! copies is known, and the greatest number of them is found by one division.
//!
//! ```text
//! match fill_of_cut(alloc, &cut, row)? {
//!     Ok(fill) => fill_rows(alloc, &mut sheet, &cut.section, &run, &fill)?,
//!     Err(answer) => ..,
//! }
//! ```
#![tactic(auto)]

mod blocks;
mod copies;
mod filling;
mod found;
mod laws;
mod rows;

pub use filling::{fill, fill_of_cut};
pub use found::Fill;
pub use laws::{
    consumption_never_falls, fill_is_unique, filled_occupancy_is_there, filled_occupancy_is_unique,
    filling_is_unique, members_enter_as_compressed, occupancy_never_falls,
};
pub use rows::fill_rows;
