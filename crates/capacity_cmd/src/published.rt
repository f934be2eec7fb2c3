//! The answers that a journal has published last, one of each section.
ghost use Rattle.std.specs.Prelude.{◌≡◌, length, map, IfOk, option_copied};
ghost use Rattle.rail_model.specs.Rules.{IsSound};
ghost use Rattle.plan_model.specs.Journal.{tables_of};
ghost use Rattle.plan_model.specs.Session.{AllAreCurrent};
ghost use Rattle.capacity_cmd.specs.Published.{last_answers, NotesEntry, HaveAnswers};

use line_tables::LineTables;
use plan_book::Book;
use plan_model::{Act, Answer, Entry};
use rail_model::OutOfMemory;
use std::alloc::Global;

// The answers of all sections of a book, in the order of names. Where each section is current, none
// has to be worked out.
pub(crate) fn answers_of_book<'a>(
    alloc: Global,
    book: &'a Book,
) -> Result<Vec<Option<&'a Answer>>, OutOfMemory>
    requires { AllAreCurrent book.now }
    ensures { IfOk result (λ answers.
        HaveAnswers (tables_of book.entry.now) (map option_copied answers.items)) }
{
    last_answers(alloc, book.tables(), book.journal().slice())
}

// The answer of each section that a journal has published last, in the order of names; none of a
// section that it hasn't published. One walk through the journal finds them all.
fn last_answers<'a>(
    alloc: Global,
    tables: &LineTables,
    journal: &'a [Entry],
) -> Result<Vec<Option<&'a Answer>>, OutOfMemory>
    ensures { IfOk result (λ last.
        map option_copied last.items ≡ last_answers journal.entry.now tables.now.sections) }
{
    let mut last = vec![in alloc; None; tables.sections() as usize]?;
    for entry in journal {
        note(&mut last, tables, entry);
    }
    Ok(last)
}

// Notes the answer that an entry publishes, if it publishes one of a section that is there.
fn note<'a>(last: &mut [Option<&'a Answer>], tables: &LineTables, entry: &'a Entry)
    requires sound { IsSound tables.now }
    requires count { length last.old ≡ length tables.now.sections }
    ensures count { length last.new ≡ length last.old }
    ensures last { NotesEntry
        tables.now.sections
        entry.entry.now
        (map option_copied last.old)
        (map option_copied last.new) }
{
    if let Act::Published {
        section,
        answer,
        ..
    } = &entry.act
    {
        if let Some(number) = tables.section_number(section) {
            last[number as usize] = Some(answer);
        }
    }
}
