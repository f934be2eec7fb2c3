//! The entries of a book's journal.
ghost use Rattle.std.specs.Prelude.{◌≡◌, ◌++◌, ◌∷◌, [], IfOk, OnOk, OnErr};
ghost use Rattle.rail_model.specs.Rules.{IsSound};
ghost use Rattle.plan_model.specs.Session.{opened};
ghost use Rattle.plan_model.specs.Outcome.{reply_of};
ghost use Rattle.plan_model.specs.declared.journal.Act.TheVariants as acts;

use line_tables::LineTables;
use plan_model::{Act, Asked, Done, Entry, Reply, Scripts};
use rail_model::{Edit, List, OutOfMemory};
use std::alloc::Global;

// The journal of a book that is started.
pub(crate) fn opening(
    alloc: Global,
    tables: &LineTables,
    at: u64,
    scripts: Scripts,
) -> Result<List<Entry>, OutOfMemory>
    ensures same { IfOk result (λ journal. journal ≡ opened tables.now at scripts ∷ []) }
    ensures sound { IsSound tables.now }
{
    tables.learn_sound();
    let mut journal = List::new(alloc);
    let act = Act::Opened {
        tables: tables.plain()?,
        at,
        scripts,
    };
    journal.push(Entry { pass: 0, act })?;
    Ok(journal)
}

// What an entry says of an answer that was asked for.
pub(crate) fn replied(asked: &Asked) -> Reply
    ensures { result ≡ reply_of asked.now }
{
    match asked {
        Asked::Ready { at, .. } => Reply::Ready { at: *at },
        Asked::Stale { at, by } => Reply::Stale { at: *at, by: *by },
        Asked::NotYet => Reply::NotYet,
        Asked::Unknown => Reply::Unknown,
    }
}

// Adds the entry of an edit that is made. Without memory the journal stays as it was.
pub(crate) fn add_edited(
    alloc: Global,
    journal: &mut List<Entry>,
    who: u32,
    planner: u32,
    number: u64,
    edit: &Edit,
) -> Result<(), OutOfMemory>
    ensures ok { OnOk result (journal.new ≡ journal.old
        ++ record { pass = who; act = acts.Edited planner number edit.now } ∷ []) }
    ensures err { OnErr result (journal.new ≡ journal.old) }
{
    let act = Act::Edited {
        planner,
        at: number,
        edit: edit.copy(alloc)?,
    };
    journal.push(Entry { pass: who, act })?;
    Ok(())
}

// The entry of a publication.
pub(crate) fn published_entry(who: u32, done: Done) -> Entry
    ensures { result ≡ record {
      pass = who;
      act = acts.Published done.section done.at done.answer;
    } }
{
    Entry {
        pass: who,
        act: Act::Published {
            section: done.section,
            at: done.at,
            answer: done.answer,
        },
    }
}
