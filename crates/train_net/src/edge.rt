//! An edge of a net.

/// What one train of a cut asks of another that comes after it at a place.
#[derive(Clone, Copy)]
pub struct Edge {
    /// The position of the one that precedes, among the cut's members.
    pub from: u32,
    /// How long after it the other enters at the earliest: seconds, which may be negative.
    pub weight: i64,
    /// The position of the place among the cut's places.
    pub place: u32,
}
