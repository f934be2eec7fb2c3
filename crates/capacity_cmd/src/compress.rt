//! The command `compress`.
ghost use Rattle.std.specs.Prelude.{IfOk};
ghost use Rattle.plan_model.specs.Cut.{IsSoundCut};
ghost use Rattle.plan_model.specs.Answer.{IsAnswer};
ghost use Rattle.capacity_cmd.specs.Ends.{cut_named, EndsOnNamed, IsCompressText};
ghost use Rattle.capacity_cmd.specs.Stopped.{Makes};

use crate::named::cut_named;
use crate::no_plan::is_crowded;
use crate::stopped::Stopped;
use crate::{Cause, Told};
use capacity_report::{Detail, answer_rows};
use compression::answer_of_cut;
use line_tables::LineTables;
use plan_model::{Answer, Cut};
use rail_model::{Name, OutOfMemory};
use rayon::current_num_threads;
use row_text::{Sheet, Text};
use sentences::told_of_cut;
use std::alloc::Global;
use std::thread::{Threads, join};

// The answer of a cut with fewer uses isn't worth a thread beside what is told of the cut.
const LEAST_USES: usize = 8_192;

// The rows of the answer of the section that is named, or why there is none.
pub(crate) fn compress_text(
    rt: &impl Threads,
    alloc: Global,
    tables: &LineTables,
    section: Option<Name>,
    told: &mut Told,
) -> Result<Text, Stopped<Cause>>
    ensures { Makes (EndsOnNamed IsCompressText (cut_named tables.now section)) result }
{
    let cut = cut_named(alloc, tables, section, told)?;
    let answer = answer_telling(rt, alloc, tables, &cut, told)?;
    Ok(answer_text(alloc, &cut, &answer)?)
}

// The answer of a cut, and what is told of it: side by side where both take some time.
fn answer_telling(
    rt: &impl Threads,
    alloc: Global,
    tables: &LineTables,
    cut: &Cut,
    told: &mut Told,
) -> Result<Answer, OutOfMemory>
    requires { IsSoundCut cut.now }
    ensures { IfOk result (IsAnswer cut.now) }
{
    if !has_many_uses(cut) || current_num_threads(rt) == 1 {
        *told = told_of_cut(alloc, tables, cut);
        return answer_of(alloc, cut);
    }
    let answer = move || -> Result<Answer, OutOfMemory>
        requires { IsSoundCut cut.now }
        ensures { IfOk result (IsAnswer cut.entry.now) }
    { answer_of(alloc, cut) };
    let (notes, answer) = join(rt, move || told_of_cut(alloc, tables, cut), answer);
    *told = notes;
    answer
}

// Whether a cut is one that is compressed, with many uses. No clause says so: side by side or not,
// the answer is one.
fn has_many_uses(cut: &Cut) -> bool {
    let mut uses = 0usize;
    for row in cut.rows.slice() {
        uses = uses.saturating_add(row.uses.len());
    }
    !is_crowded(cut) && uses >= LEAST_USES
}

// The answer of a cut.
pub(crate) fn answer_of(alloc: Global, cut: &Cut) -> Result<Answer, OutOfMemory>
    requires { IsSoundCut cut.now }
    ensures { IfOk result (IsAnswer cut.now) }
{
    if is_crowded(cut) {
        return Ok(Answer::Crowded {
            count: cut.rows.len() as u32,
        });
    }
    answer_of_cut(alloc, cut)
}

// The text of a cut's answer in full.
fn answer_text(alloc: Global, cut: &Cut, answer: &Answer) -> Result<Text, OutOfMemory>
    requires sound { IsSoundCut cut.now }
    requires answer { IsAnswer cut.now answer.now }
    ensures { IfOk result (IsCompressText cut.now) }
{
    let mut sheet = Sheet::new(alloc);
    answer_rows(alloc, &mut sheet, &cut.section.name, answer, Detail::Full)?;
    Text::of(sheet.into_text())
}
