//! What is found: where a line is cut, and why.
use plan_model::Disorder;
use rail_model::List;

/// A part of a line whose trains have no order, so that it has to be cut between two of its blocks.
#[derive(Drop)]
pub struct Stretch {
    /// The position of its first block among the section's.
    pub first: u32,
    /// The position of its last block.
    pub last: u32,
    /// Why its trains have no order.
    pub disorder: Disorder,
}

/// A line that is cut into pieces.
#[derive(Drop)]
pub struct Cutting {
    /// Where each piece ends: the position of the block before which it does, with which the next
    /// piece begins. They rise, and the last is the number of blocks.
    pub ends: List<u32>,
    /// For each piece but the last, the piece and the next block, in the order of the line.
    pub stretches: List<Stretch>,
}
