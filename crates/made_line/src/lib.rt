//! The line that `made N` measures with: blocks, signals, runs and sections, and the scripts of
//! four planners, with numbers that are drawn from N.
//!
//! ```text
//! let tables = made_tables(alloc, 1)?;
//! let scripts = made_scripts(alloc, 1)?;
//! let book = Book::start(alloc, tables, BASE_EDITS, scripts)?;
//! ```
#![tactic(auto)]

mod base;
mod counts;
mod draws;
mod input;
mod laws;
mod names;
mod runs;
mod scripts;
mod tables;

pub use counts::{BASE_EDITS, PLANNERS, SCRIPT_EDITS, WORKERS, made_counts};
pub use input::made_input;
pub use laws::{any_order_makes_one, each_session_makes_all};
pub use scripts::made_scripts;
pub use tables::made_tables;
