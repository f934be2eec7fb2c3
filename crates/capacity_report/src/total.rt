//! The total of a report.
ghost use Rattle.std.specs.Prelude.{◌≡◌, ◌+◌, ◌<◌, [], OnOk, OnErr};
ghost use Rattle.row_text.specs.SheetRows.{with_row};
ghost use Rattle.capacity_report.specs.Answers as totals;

use crate::rates::is_within;
use plan_model::Answer;
use rail_model::OutOfMemory;
use row_text::{Field, Sheet};
use std::marker::Model;

/// How many sections were counted, and how many of them are ordered, within and over their
/// capacity, in disorder, and crowded. Contracts see a `Total`.
#[derive(Drop)]
pub struct Tally {
    sections: u32,
    ordered: u32,
    within: u32,
    over: u32,
    disordered: u32,
    crowded: u32,
}

impl Model for Tally {
    ghost use Rattle.capacity_report.specs.Answers.{Total, IsTally};

    ghost Value = { Total };

    ghost view = { λ t. record {
      sections = t.sections;
      ordered = t.ordered;
      within = t.within;
      over = t.over;
      disordered = t.disordered;
      crowded = t.crowded;
    } };

    ghost invariant = { λ t. IsTally t.sections t.ordered t.within t.over t.disordered t.crowded };
}

impl Tally {
    /// The total of no section. It takes no memory.
    pub fn new() -> Tally
        ensures { result ≡ totals.total_of [] }
    {
        Tally {
            sections: 0,
            ordered: 0,
            within: 0,
            over: 0,
            disordered: 0,
            crowded: 0,
        }
    }

    /// Counts one answer more. It takes no memory.
    pub fn add(&mut self, answer: &Answer)
        requires answer { totals.IsAnswerOfSome answer.now }
        requires room { self.old.sections < 4_294_967_295 }
        ensures { self.new ≡ totals.with_answer self.old answer.now }
    {
        let within = is_within_capacity(answer);
        self.sections += 1;
        self.ordered += u32::from(is_ordered(answer));
        self.within += u32::from(within);
        self.over += u32::from(is_over_capacity(answer, within));
        self.disordered += u32::from(is_disordered(answer));
        self.crowded += u32::from(is_crowded(answer));
    }

    /// Counts the answers of another total. It takes no memory.
    pub fn join(&mut self, other: &Tally)
        requires room { self.old.sections + other.now.sections < 4_294_967_296 }
        ensures { self.new ≡ totals.joined self.old other.now }
    {
        self.sections += other.sections;
        self.ordered += other.ordered;
        self.within += other.within;
        self.over += other.over;
        self.disordered += other.disordered;
        self.crowded += other.crowded;
    }
}

fn is_ordered(answer: &Answer) -> bool
    ensures { result ≡ totals.is_ordered answer.now }
{
    matches!(answer, Answer::Ordered(_))
}

fn is_within_capacity(answer: &Answer) -> bool
    requires { totals.IsAnswerOfSome answer.now }
    ensures { result ≡ totals.is_within_capacity answer.now }
{
    match answer {
        Answer::Ordered(plan) => is_within(plan),
        _ => false,
    }
}

// Whether an answer is a compressed timetable whose capacity consumption is above 1.
fn is_over_capacity(answer: &Answer, is_within: bool) -> bool
    requires { is_within ≡ totals.is_within_capacity answer.now }
    ensures { result ≡ totals.is_over_capacity answer.now }
{
    match answer {
        Answer::Ordered(_) => !is_within,
        _ => false,
    }
}

fn is_disordered(answer: &Answer) -> bool
    ensures { result ≡ totals.is_disordered answer.now }
{
    matches!(answer, Answer::Opposite { .. } | Answer::Ring(_))
}

fn is_crowded(answer: &Answer) -> bool
    ensures { result ≡ totals.is_crowded answer.now }
{
    matches!(answer, Answer::Crowded { .. })
}

/// Adds the row of a report's total. A row that is open is dropped first. It takes memory; where
/// that runs out, no row is added.
pub fn total_row(sheet: &mut Sheet, tally: &Tally) -> Result<(), OutOfMemory>
    ensures ok { OnOk result (sheet.new ≡ with_row sheet.old (totals.total_row tally.now)) }
    ensures err { OnErr result (sheet.new.rows ≡ sheet.old.rows) }
{
    sheet.write(&[
        Field::Text(b"total"),
        Field::Count(u64::from(tally.sections)),
        Field::Count(u64::from(tally.ordered)),
        Field::Count(u64::from(tally.within)),
        Field::Count(u64::from(tally.over)),
        Field::Count(u64::from(tally.disordered)),
        Field::Count(u64::from(tally.crowded)),
    ])
}
