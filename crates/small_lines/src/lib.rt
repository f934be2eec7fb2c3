//! What tests share: the texts that they write, scripts of cases, the tables that rows make, and a
//! small line.
#![tactic(auto)]

mod lines;
mod script;
mod tables;
mod text;

pub use lines::small_line;
pub use script::{
    after_line, after_pieces, halves, line_at, number_of, parts_of, piece_at, put_piece,
    rows_of_case, signed_number, small_number, starts_line, word,
};
pub use tables::{edit_of, tables_of};
pub use text::{Text, end_of};
