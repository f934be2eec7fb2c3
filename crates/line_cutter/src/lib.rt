//! The fewest orderly pieces into which a section is cut, and the stretches that force each cut.
//!
//! A piece is a part of the section's line, from one block to before another, with the trains that
//! use it. It is orderly where its trains have an order in time. A stretch is a piece and the next
//! block, where these have none.
//!
//! The longest piece from a block is looked for by doubling and then by halving. That a part of an
//! orderly piece is orderly makes this search right, and the longest pieces the fewest. Marks make
//! it short: the trains are followed once along the line, and each block is marked on which they
//! stand in another order than since the last such block. The piece up to the next mark is tried
//! first. No answer rests on marks.
//!
//! A piece is tried by making its cut and asking `train_order::order`. Where it is short and likely
//! to be in disorder, its least opposite pair is looked for first, pair by pair. Where that would
//! take many pairs, the order tells.
//!
//! ```text
//! let cutting = cut_line(alloc, &cut)?;
//! for stretch in cutting.stretches.slice() {
//!     // From block stretch.first to block stretch.last the trains have no order.
//! }
//! cutting_rows(&mut sheet, &cut, &cutting)?;
//! ```
#![tactic(auto)]

mod breaks;
mod cutting;
mod found;
mod laws;
mod line;
mod longest;
mod opposed;
mod piece;
mod rows;

pub use cutting::cut_line;
pub use found::{Cutting, Stretch};
pub use laws::{
    cutting_is_there, cutting_is_unique, each_is_longest, each_needs_a_cut, no_fewer_pieces,
    one_piece_more, over_piece_is_orderly, part_is_orderly, stretches_are_disjoint,
};
pub use rows::cutting_rows;
