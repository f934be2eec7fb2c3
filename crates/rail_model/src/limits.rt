//! The limits of all numbers and lists. They bound every time of a path and the work on any input.

/// The greatest number of blocks.
pub const BLOCKS: usize = 4_096;

/// The greatest number of signals.
pub const SIGNALS: usize = 8_192;

/// The greatest number of routes.
pub const ROUTES: usize = 4_096;

/// The greatest number of runs.
pub const RUNS: usize = 2_048;

/// The greatest number of sections.
pub const SECTIONS: usize = 64;

/// The greatest number of connections.
pub const CONNECTIONS: usize = 1_024;

/// The greatest number of signals of a route, legs of a run and blocks of a section.
pub const PATH_HOPS: usize = 256;

/// Metres: the greatest length of a block and a train, approach and overlap.
pub const GREATEST_LENGTH_M: u32 = 1_000_000;

/// Seconds: the greatest start of a run and of a window.
pub const GREATEST_START_S: u32 = 604_800;

/// Seconds: the greatest running time, dwell and tail, time of a signal and minimum of a
/// connection.
pub const GREATEST_TIME_S: u32 = 86_400;

/// Seconds: the greatest end of a window.
pub const GREATEST_WINDOW_END_S: u32 = 1_209_600;

/// Per cent: the greatest additional time rate.
pub const GREATEST_RATE: u32 = 1_000;

/// Seconds: no time of a path that fits is further from 0.
pub const GREATEST_MOMENT_S: i64 = 50_000_000;
