//! A net.
use crate::edge_lists::EdgeLists;
use rail_model::List;

/// A net tells when each train of a cut may enter. It is an order of the trains, and for each train
/// edges from those that stand nearest before it at its places, each with the time that it asks
/// for.
#[derive(Drop)]
pub struct Net {
    /// The positions of the cut's members, each once: each comes after all that precede it.
    pub order: List<u32>,
    /// By the members' positions.
    pub edges: EdgeLists,
}
