//! Why a row may not stand at its place, in a sentence.
use crate::piece::Piece::{Field, Many, Number};
use crate::piece::{Added, tell};
use crate::row_at::{RowAt, is_planner_row};
use row_text::Word;

// For a command that takes the scripts of so many planners, with so many tasks in all.
pub(crate) fn script_sentence(
    text: &mut String,
    row: &RowAt<'_>,
    planners: usize,
    tasks: usize,
) -> Added {
    let above = planner_rows_above(row);
    let next = Number((above as u64).saturating_add(1));
    let (why, piece) = match row.word() {
        _ if planners == 0 => (NO_SCRIPTS, next),
        Some(Word::Planner) if above >= planners => (TOO_MANY, Many(planners, "planner")),
        Some(Word::Planner) => (NOT_NEXT, Field(row.field(1))),
        _ if above == 0 => (NO_PLANNER, next),
        _ => (MORE_TASKS, Number(tasks as u64)),
    };
    // Each takes as many of the pieces as it has gaps.
    tell(text, why, &[piece, next])
}

const NO_SCRIPTS: &str =
    "rows planner and ask stand in scripts of planners, which the command session alone takes";

const TOO_MANY: &str = "a session takes @ at most";

const NOT_NEXT: &str =
    "field 2, @: planners stand in the order of their numbers, and the next is @";

const NO_PLANNER: &str = "a question is a task of a planner, and no row planner stands above it";

const MORE_TASKS: &str = "the scripts have @ tasks above this row, and more are not taken";

// How many planners' scripts begin above a row.
fn planner_rows_above(row: &RowAt<'_>) -> usize {
    let mut count: usize = 0;
    for i in row.rows.first_line()..row.place {
        if is_planner_row(row.rows, i) {
            count = count.saturating_add(1);
        }
    }
    count
}
