//! What is found.

/// How many copies of a train a section can take. Times are in seconds.
#[derive(Clone, Copy)]
pub enum Fill {
    /// None: the consumption without copies is above 1.
    Over {
        /// The occupancy time without copies.
        occupancy: u64,
    },
    /// So many that with one more the consumption is above 1.
    Fits {
        copies: u64,
        /// The occupancy time with so many copies.
        occupancy: u64,
        /// The occupancy time with one copy more.
        next: u64,
    },
}
