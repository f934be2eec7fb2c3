//! What a planner asks of a section and gets: the cut of a section, its readings, and the answer;
//! and the journal of what planners did and were answered.
//!
//! The definitions stand in `specs/`, for all crates above:
//!
//! - of a section: its cut, what precedes what, schedules and the least of them, disorder, the
//!   occupancy time, and which answer a cut has;
//! - of a journal: which edits touch a section, when a section is current, and which journals are
//!   legal.
//!
//! A cut has a row for each train, and each row the train's uses of the section's places. The
//! places are the section's blocks and then the connections that bind. A `Reading` shows a cut
//! row by row and counts the uses that are taken. A `Board` is access to a journal that others
//! may add to.
//!
//! ```text
//! let cut = SoundCut::of(&cut);
//! for i in 0..cut.member_count() {
//!     let row = cut.row(i);
//!     for used in row.uses.slice() {
//!         let place = cut.place_name(used.block);
//!     }
//! }
//! ```
#![tactic(auto)]

mod answer;
mod board;
mod copies;
mod cut;
mod fit_cut;
mod journal;
mod journal_laws;
mod laws;
mod limits;
mod outcome;
mod placed_list;
mod reading;
mod rows;
mod scripts;
mod shared_cut;
mod shared_uses;
mod train_numbers;

pub use answer::{Answer, Disorder, Done, Link, Placed, Plan, Tie};
pub use board::Board;
pub use cut::{Cut, CutRow, least_start};
pub use fit_cut::{FitCut, SoundCut, comes_before, shift, use_of};
pub use journal::{Act, Entry, Reply};
pub use journal_laws::{
    beginning_is_journal, beginning_is_legal, calls_end_in_one_way, calls_leave_journals,
    current_is_answered, current_stays, done_stays, each_is_next, longer_agrees,
    longer_issues_no_fewer, next_is_legal, none_is_left, others_keep_tables, publications_rise,
    reading_may_be_published, session_alone_is_one, stamp_tells_row, tables_are_sound,
    untouched_is_none_touches,
};
pub use laws::{
    answer_is_unique, comes_before_is_tested, conflict_is_overlap, fraction_is_reduced,
    least_is_tied, least_is_unique, members_are_usable, none_is_later, occupancy_is_to_closing,
    occupancy_reaches_closing, order_is_none_remains, preceded_remain, reduced_is_unique,
    remaining_is_left, ring_is_true, tied_is_least, uses_are_apart,
};
pub use limits::{MEMBERS, is_crowded};
pub use outcome::{Asked, Next, NotTaken, Stepped};
pub use placed_list::PlacedList;
pub use reading::Reading;
pub use rows::Rows;
pub use scripts::{Scripts, Task};
pub use shared_cut::SharedCut;
pub use shared_uses::SharedUses;
