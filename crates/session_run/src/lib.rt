//! Sessions: planners' scripts run to the end, and every section answered, in one thread or with
//! each planner and each worker in a thread of its own.
//!
//! `session_alone` takes the scripts in the order of the planners' numbers. Before each task, and
//! after the last, it answers every section that isn't current, in the order of names. The first
//! answers are worked out side by side. `session` puts the book at a desk and gives each planner
//! and worker a pass. They work until nothing is left or memory runs out, and then all passes leave
//! and the desk is closed.
//!
//! ```text
//! let book = session(rt, alloc, tables, edits, scripts, 2, &OpenGate)?;
//! for entry in book.journal().slice() {
//!     if let Act::Published { section, at, answer } = &entry.act { .. }
//! }
//! ```
#![tactic(auto)]

mod actor;
mod ahead;
mod alone;
mod laws;
mod signals;
mod threads;

pub use alone::session_alone;
pub use laws::limits;
pub use threads::{WORKERS, session};
