//! A worker that brings the answers of sections up to date, turn by turn, over any board.
//!
//! A turn reads the first section of the worker's share that isn't current, works out its answer,
//! and publishes it. The worker keeps the rows of the last reading of each section, or none where
//! that was crowded or memory ran out. Of a later reading it takes at most the rows that it hasn't
//! kept.
//!
//! ```text
//! let mut worker = Worker::new(alloc, share, of, actor);
//! match worker.turn(rt, &mut board, &gate)? {
//!     Turned::Published { section, at } => ..,
//!     Turned::Stale { section, at, by } => ..,
//!     Turned::Current { section, at } => ..,
//!     Turned::Idle { left } => ..,
//! }
//! ```
#![tactic(auto)]

mod worker;

pub use worker::{KeptReading, Turned, Worker, answer_by};
