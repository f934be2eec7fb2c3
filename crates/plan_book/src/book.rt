//! The book: what calls on it do to its tables, its journal and what it knows of sections.
ghost use Rattle.std.specs.Prelude.{◌≡◌, ◌+◌, ◌≤◌, ◌<◌, ◌++◌, ◌∷◌, [], length, sum_by, None, Some};
ghost use Rattle.std.specs.Prelude.{IfOk, OnOk, OnErr, MatchResult};
ghost use Rattle.plan_model.specs.Journal.{opening, last_number, tables_of, issued, tasks_left};
ghost use Rattle.plan_model.specs.Legal.{IsJournal, IsNext, MayBePublished};
ghost use Rattle.rail_model.specs.Rules.{rule_of};
ghost use Rattle.plan_model.specs.Session.{opened};
ghost use Rattle.plan_model.specs.Board.{Gives};
ghost use Rattle.plan_model.specs.Outcome.{AddsEntry, EditsTo, AsksTo, PublishesTo, IsDone, IsNotTaken};
ghost use Rattle.rail_model.specs.Rules as rules;
ghost use Rattle.plan_model.specs.declared.journal.Act.TheVariants as acts;
ghost use Rattle.plan_model.specs.declared.scripts.Task.TheVariants as tasks;
ghost use Rattle.plan_book.specs.Kept.{IsQuiet, IsBy, MayDo, IsAnswered};

use crate::changes::{AcceptedEdit, change_shelves, changes_for, share_cuts};
use crate::entries::{add_edited, opening, published_entry, replied};
use crate::first::first_shelves;
use crate::shelf::{Published, Shelf, asked_of, place_of, shelf_of, verdict_of};
use crate::tasks::count_task;
use crate::twin::TwinTables;
use line_tables::LineTables;
use plan_model::{Act, Asked, Done, Entry, NotTaken, Scripts};
use rail_model::{Edit, List, Name, OutOfMemory, Rule};
use std::alloc::Global;
use std::marker::Model;

/// The most planners of a book.
pub const PLANNERS: usize = 16;

/// The most tasks of a book, in all scripts.
pub const TASKS: usize = 256;

/// The greatest number of the last edit before a book is started.
pub const FIRST_NUMBER: u64 = 16_777_216;

/// A book is a timetable that planners edit and ask, and whose sections' answers are published,
/// with the journal of all that. Contracts see its journal. The journal is legal, and each planner
/// keeps to its script.
pub struct Book {
    pub(crate) alloc: Global,
    pub(crate) journal: List<Entry>,
    // The tables after all edits, the number of the last edit before the book was started and that
    // of the last one, and how many passes are issued.
    pub(crate) tables: TwinTables,
    pub(crate) first: u64,
    pub(crate) at: u64,
    pub(crate) passes: u32,
    // In the order of names.
    pub(crate) shelves: List<Shelf>,
    // How many tasks each planner has done.
    pub(crate) done: Vec<usize>,
}

// A drop by hand, so that dropping a book is one call in the proof of whoever holds it.
impl Drop for Book {
    fn drop(self) {
        let Book {
            alloc: _,
            journal: _,
            tables: _,
            first: _,
            at: _,
            passes: _,
            shelves: _,
            done: _,
        } = self;
    }
}

impl Model for Book {
    ghost use Rattle.std.specs.Prelude.{List};
    ghost use Rattle.plan_model.specs.declared.journal.Entry.{Entry};
    ghost use Rattle.plan_book.specs.Kept.{IsBook};

    ghost Value = { List Entry };

    ghost view = { λ b. b.journal };

    ghost invariant = { λ b.
        IsBook b.journal b.tables b.first b.at b.passes b.shelves b.done.items };
}

impl Book {
    /// A book of these tables and scripts, whose last edit had the number `at`. Its journal is
    /// opened by pass 0, and the next edit gets the number after `at`.
    pub fn start(
        alloc: Global,
        tables: LineTables,
        at: u64,
        scripts: Scripts,
    ) -> Result<Book, OutOfMemory>
        requires planners { length scripts ≤ PLANNERS }
        requires tasks { sum_by length scripts ≤ TASKS }
        requires at { at ≤ FIRST_NUMBER }
        ensures { IfOk result (λ book. book ≡ opened tables at scripts ∷ []) }
    {
        let shelves = first_shelves(alloc, &tables, at)?;
        let done = vec![in alloc; 0; scripts.len()]?;
        let journal = opening(alloc, &tables, at, scripts)?;
        Ok(Book {
            alloc,
            journal,
            tables: TwinTables::of(alloc, tables)?,
            first: at,
            at,
            passes: 1,
            shelves,
            done,
        })
    }

    /// The journal: what was done to the timetable, and what was asked and answered of it, in
    /// order.
    pub fn journal(&self) -> &List<Entry>
        ensures same { result.now ≡ self.now }
        ensures is_journal { IsJournal self.now }
    {
        &self.journal
    }

    /// The journal alone. The tables and the cuts are let go of.
    pub fn into_journal(self) -> List<Entry>
        ensures same { result ≡ self }
        ensures is_journal { IsJournal self }
    {
        let Book {
            journal,
            alloc: _,
            tables: _,
            first: _,
            at: _,
            passes: _,
            shelves: _,
            done: _,
        } = self;
        journal
    }

    /// The number of the last edit.
    pub fn at(&self) -> u64
        ensures { result ≡ last_number self.now }
    {
        self.at
    }

    /// The tables after all edits.
    pub fn tables(&self) -> &LineTables
        ensures { result.now ≡ tables_of self.now }
    {
        self.tables.tables()
    }

    /// How many planners there are: one for each script.
    pub fn planners(&self) -> u32
        ensures { result ≡ length (opening self.now).scripts }
    {
        self.done.len() as u32
    }

    /// Asks for a section outside the scripts, by a pass. `Unknown` comes where the section isn't
    /// there. Else `NotYet` comes where no answer of it was published; `Stale` where a later edit
    /// touches it, with the number of the answer and that of the last such edit; and `Ready` where
    /// none does, with the answer that was published last. Each reply adds its entry. Without
    /// memory the journal stays as it was.
    pub fn ask(&mut self, who: u32, section: Name) -> Result<Asked, OutOfMemory>
        requires { who < issued self.old }
        ensures { Gives (AsksTo who 0 section) result self.old self.new }
    {
        self.ask_by(who, 0, section)
    }

    // Asks for a section as a planner, or outside the scripts as planner 0.
    pub(crate) fn ask_by(
        &mut self,
        who: u32,
        planner: u32,
        section: Name,
    ) -> Result<Asked, OutOfMemory>
        requires issued { who < issued self.old }
        requires may { MayDo self.old planner (tasks.Ask section) }
        ensures { Gives (AsksTo who planner section) result self.old self.new }
    {
        let asked = self.answer_of(&section)?;
        let reply = replied(&asked);
        self.add(
            who,
            planner,
            Act::Asked {
                planner,
                section,
                reply,
            },
        )?;
        Ok(asked)
    }

    // What one gets who asks for a section.
    fn answer_of(&self, section: &Name) -> Result<Asked, OutOfMemory>
        ensures answered { IfOk result (IsAnswered self.now section.now) }
        ensures is_journal { IsJournal self.now }
    {
        match shelf_of(self.shelves.slice(), section) {
            Some(shelf) => asked_of(self.alloc, shelf, self.journal.slice()),
            None => Ok(Asked::Unknown),
        }
    }

    // Adds an entry of a planner, or of planner 0, that makes no edit, publishes nothing and issues
    // no pass.
    fn add(&mut self, who: u32, planner: u32, act: Act) -> Result<(), OutOfMemory>
        requires quiet { IsQuiet act }
        requires by { IsBy planner act }
        requires planner { planner ≤ length (opening self.old).scripts }
        requires is_journal { IsJournal (self.old ++ record { pass = who; act = act } ∷ []) }
        ensures ok { OnOk result (self.new ≡ self.old ++ record { pass = who; act = act } ∷ []) }
        ensures err { OnErr result (self.new ≡ self.old) }
    {
        self.journal.push(Entry { pass: who, act })?;
        count_task(&mut self.done, planner);
        Ok(())
    }

    /// Makes an edit outside the scripts, by a pass, and gives its number; or says by which rule it
    /// is refused, the first that refuses it, and leaves the tables. Each adds its entry. Without
    /// memory the journal stays as it was.
    pub fn edit(&mut self, who: u32, edit: Edit) -> Result<Result<u64, Rule>, OutOfMemory>
        requires { who < issued self.old }
        ensures { Gives (EditsTo who 0 edit) result self.old self.new }
    {
        self.edit_by(who, 0, edit)
    }

    // Makes an edit as a planner, or outside the scripts as planner 0.
    pub(crate) fn edit_by(
        &mut self,
        who: u32,
        planner: u32,
        edit: Edit,
    ) -> Result<Result<u64, Rule>, OutOfMemory>
        requires issued { who < issued self.old }
        requires may { MayDo self.old planner (tasks.Edit edit) }
        ensures { Gives (EditsTo who planner edit) result self.old self.new }
    {
        let mut next = self.next_tables()?;
        match next.apply(&edit)? {
            Ok(()) => {
                let number = self.accept(who, planner, edit, next)?;
                self.share();
                Ok(Ok(number))
            }
            Err(rule) => {
                self.give_back(next);
                self.refuse(who, planner, edit, rule)?;
                Ok(Err(rule))
            }
        }
    }

    // The tables once more, for an edit.
    fn next_tables(&mut self) -> Result<Box<LineTables>, OutOfMemory>
        ensures same { self.new ≡ self.old }
        ensures tables { IfOk result (λ tables. tables.value ≡ tables_of self.old) }
    {
        self.tables.take_spare(self.alloc)
    }

    // Gives the tables for an edit back, unchanged.
    fn give_back(&mut self, next: Box<LineTables>)
        requires { next.value ≡ tables_of self.old }
        ensures { self.new ≡ self.old }
    {
        self.tables.give_back(next);
    }

    // Adds an edit that a rule refuses.
    fn refuse(&mut self, who: u32, planner: u32, edit: Edit, rule: Rule) -> Result<(), OutOfMemory>
        requires issued { who < issued self.old }
        requires may { MayDo self.old planner (tasks.Edit edit) }
        requires rule { rule_of (tables_of self.old) edit ≡ Some rule }
        ensures { Gives
            (λ found u after. AddsEntry who (acts.Refused planner rule edit) found after)
            result self.old self.new }
    {
        let _journal = self.journal();
        self.add(
            who,
            planner,
            Act::Refused {
                planner,
                rule,
                edit,
            },
        )?;
        Ok(())
    }

    // Makes an edit that no rule refuses, after which the tables are these, and gives its number.
    fn accept(
        &mut self,
        who: u32,
        planner: u32,
        edit: Edit,
        next: Box<LineTables>,
    ) -> Result<u64, OutOfMemory>
        requires issued { who < issued self.old }
        requires may { MayDo self.old planner (tasks.Edit edit) }
        requires rule { rule_of (tables_of self.old) edit ≡ None }
        requires next { next.value ≡ rules.after (tables_of self.old) edit }
        ensures { Gives
            (λ found number after. AddsEntry who (acts.Edited planner number edit) found after)
            result self.old self.new }
    {
        let number = self.next_number();
        let accepted = AcceptedEdit {
            before: self.tables.tables(),
            after: &next,
            edit: &edit,
            number,
        };
        let changes = changes_for(self.alloc, &mut self.shelves, self.first, accepted)?;
        add_edited(self.alloc, &mut self.journal, who, planner, number, &edit)?;
        count_task(&mut self.done, planner);
        change_shelves(self.alloc, &mut self.shelves, changes, number);
        self.at = number;
        self.tables.replace(next, edit);
        Ok(number)
    }

    // Shares the cuts that were changed with readings to come.
    fn share(&mut self)
        ensures { self.new ≡ self.old }
    {
        share_cuts(self.alloc, &mut self.shelves);
    }

    // The number of the next edit.
    #[tactic(auto, using(crate::proofs::Edited::last_number_within))]
    fn next_number(&self) -> u64
        ensures number { result ≡ last_number self.now + 1 }
        ensures is_journal { IsJournal self.now }
    {
        let _entries = self.journal.len();
        self.at + 1
    }

    /// Publishes an answer by a pass. `Stale` comes exactly where a later edit touches the section,
    /// and names the last one; `Current` exactly where none does and the section is current, since
    /// its publication at the edit of this number. With either nothing is added, and the answer is
    /// dropped. Without memory the journal stays as it was.
    pub fn publish(&mut self, who: u32, done: Done) -> Result<Result<(), NotTaken>, OutOfMemory>
        requires issued { who < issued self.old }
        requires done { IsDone self.old done }
        ensures { Gives (PublishesTo who done) result self.old self.new }
    {
        if let Err(why) = self.verdict(&done) {
            return Ok(Err(why));
        }
        self.add_published(who, done)?;
        Ok(Ok(()))
    }

    // Whether an answer may be published.
    fn verdict(&self, done: &Done) -> Result<(), NotTaken>
        requires { IsDone self.now done.now }
        ensures { MatchResult result
            (λ _. MayBePublished self.now done.now.section done.now.at done.now.answer)
            (IsNotTaken self.now done.now) }
    {
        let Some(shelf) = shelf_of(self.shelves.slice(), &done.section) else {
            unreachable!();
        };
        verdict_of(shelf, done.at)
    }

    // Adds the publication of an answer.
    fn add_published(&mut self, who: u32, done: Done) -> Result<(), OutOfMemory>
        requires issued { who < issued self.old }
        requires may { MayBePublished self.old done.section done.at done.answer }
        ensures ok { OnOk result (self.new ≡ self.old
            ++ record { pass = who; act = acts.Published done.section done.at done.answer } ∷ []) }
        ensures err { OnErr result (self.new ≡ self.old) }
    {
        let Ok(place) = place_of(self.shelves.slice(), &done.section) else {
            unreachable!();
        };
        let published = Published {
            at: done.at,
            entry: self.journal.len(),
        };
        self.journal.push(published_entry(who, done))?;
        self.shelves.get_mut(place).published = Some(published);
        Ok(())
    }
}
