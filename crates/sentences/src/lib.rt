//! Lines for people about a call, to be written on standard error: what is wrong with its words, why
//! a row is refused, which section isn't there, which run is no train of its section, and what the
//! answer of a section leaves out.
//!
//! No answer rests on these lines. Contracts say what a person can rely on: no byte is a control
//! character of ASCII but the line feeds, whatever the input has, and a refused row is told by its
//! own number. What else the lines say is tested. Without memory for a line nothing is told.
//!
//! What a sentence may need is read first: the fields of the refused row, and the tables that the
//! rows above it make. Deciding on the sentence then takes no memory, and ends in one call of `tell`,
//! which alone writes.
//!
//! A refused row is looked at again, until the field or the item is found that makes the fault. Where
//! the sentence may speak of other rows, all rows are cut once more. Else only this row and the first
//! are, since the first may say the version. All are also cut where the text has double quotes, or
//! where the refused row starts with the byte 0xEF.
//!
//! ```text
//! let told = told_of_row(alloc, input, 3, Fault::Rule(Rule::Twice));
//! eprintln!(rt; "{}", told.text())?;
//! ```
#![tactic(auto)]

mod clashes;
mod column;
mod form_sentence;
mod found;
mod member_sentence;
mod notes;
mod piece;
mod row_at;
mod row_place;
mod row_sentence;
mod rule_sentence;
mod said;
mod script_sentence;
mod section_sentence;
mod standing;
mod told;
mod twice_sentence;
mod words_sentence;

pub use member_sentence::told_of_run;
pub use notes::told_of_cut;
pub use row_sentence::{Fault, told_of_row};
pub use section_sentence::told_of_section;
pub use told::Told;
pub use words_sentence::{USAGE, told_of_words};
