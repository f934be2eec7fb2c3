//! Laws of the definitions: each function does nothing, and its contract is the law.
ghost use Rattle.line_cutter.specs.Laws.{PartIsOrderly, NoFewerPieces, EachIsLongest, EachNeedsACut, StretchesAreDisjoint, OnePieceMore, CuttingIsUnique, OverPieceIsOrderly, CuttingIsThere};

/// A part of an orderly piece is orderly.
pub fn part_is_orderly()
    ensures { PartIsOrderly }
{}

/// No other cutting into orderly pieces has fewer of them.
pub fn no_fewer_pieces()
    ensures { NoFewerPieces }
{}

/// Each piece but the last is the longest orderly one from its first block.
pub fn each_is_longest()
    ensures { EachIsLongest }
{}

/// Whoever cuts the line into orderly pieces cuts it between two neighbouring blocks of each
/// stretch.
pub fn each_needs_a_cut()
    ensures { EachNeedsACut }
{}

/// No two neighbouring blocks lie in two stretches: they share at most the block with which one
/// ends and the other begins.
pub fn stretches_are_disjoint()
    ensures { StretchesAreDisjoint }
{}

/// There is one piece more than stretches.
pub fn one_piece_more()
    ensures { OnePieceMore }
{}

/// A cut has at most one cutting: one list of ends, and one stretch with one disorder for each
/// piece but the last.
pub fn cutting_is_unique()
    ensures { CuttingIsUnique }
{}

/// Each sound cut has a cutting.
pub fn cutting_is_there()
    ensures { CuttingIsThere }
{}

/// What may be concluded from a cutting: a section over the blocks of an orderly piece has an
/// order, where each of its members is a member of the section that was cut, and no connection
/// binds in it. Its name and window may be others.
///
/// Without these conditions it may have none: a piece has the section's members, and the other
/// section may count more.
pub fn over_piece_is_orderly()
    ensures { OverPieceIsOrderly }
{}
