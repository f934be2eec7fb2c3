//! Headways: how long after one train of a section another may enter, of a pair and of all pairs.
//!
//! For the table the starts of all trains at a place, after their entries, are laid out once, in a
//! row with a number for each train. A train that doesn't use the place has a number later than any
//! start. The headways from one train to all others are a row that each of its uses raises: to its
//! own end there less the start of each other. These are plain loops over rows of 32-bit numbers,
//! which the compiler does several at a time. Where two trains share no place, the number stays
//! below every headway. The rows are made side by side, each by itself.
//!
//! ```text
//! let table = matrix(rt, alloc, &cut)?;
//! if let Some(seconds) = table.get(i, j) {
//!     // Train j may enter so many seconds after train i, if it goes second.
//! }
//! ```
#![tactic(auto)]

mod ending;
mod pair;
mod row;
mod starts;
mod table;

pub use pair::headway;
pub use table::{Headways, matrix};
