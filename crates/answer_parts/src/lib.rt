//! Fields and rows that several reports share: what holds a train at its entry, links, disorder and
//! rates. They take names and numbers, and no plan.
//!
//! Each call adds its row or fields to a sheet. Where memory runs out, a prefix of them is added.
//!
//! ```text
//! let mut sheet = Sheet::new(alloc);
//! let rate = Fraction::of(300, 3_600);
//! let consumed = consumption(300, 33, 3_600);
//! rate_row(alloc, &mut sheet, &section, &rate, &consumed)?;
//! // rate,S,1/12,8.34,133/1200,11.09,within
//! ```
#![tactic(auto)]

mod disorder;
mod links;
mod rates;
mod ties;

pub use disorder::{crowded_row, opposite_row, ring_rows};
pub use links::link_rows;
pub use rates::{push_consumption, rate_row};
pub use ties::{push_after, push_start};
