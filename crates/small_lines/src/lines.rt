//! A small line.
use crate::{Text, tables_of};
use line_tables::LineTables;
use std::alloc::Global;

// Two blocks with their signals, and a route over both; two runs, five minutes apart; and a section
// over both blocks.
const LINE: &[u8] = b"block,A,1000\n\
    block,B,1000\n\
    signal,SA,A,1000,10,5,0,5\n\
    signal,SB,B,1000,10,5,0,5\n\
    route,R,SA,SB\n\
    run,T1,R,100,10,100,60,0,60\n\
    run,T2,R,100,10,400,60,0,60\n\
    section,S,0,3600,33,A,B\n";

/// The tables of a line of two blocks, A and B, with a route R over both, its runs T1 and T2, five
/// minutes apart, and a section S.
pub fn small_line(alloc: Global, text: &mut Text) -> Option<LineTables> {
    tables_of(alloc, text, LINE)
}
