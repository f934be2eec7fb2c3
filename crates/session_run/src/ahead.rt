//! First answers of all sections, each worked out by itself before it is published.
ghost use Rattle.std.specs.Prelude.{◌≡◌, ◌<◌, true, None, map, IfOk, OnOk};
ghost use Rattle.plan_model.specs.Outcome.{IsAnswerOf};
ghost use Rattle.section_worker.specs.Keeping.{KeepsRows};
ghost use Rattle.session_run.specs.Ahead.{IsRight, IsWorkedOut, AreWorkedOut, AreAhead};

use plan_book::Book;
use plan_model::{Answer, Done, Reading, is_crowded};
use rail_model::{OutOfMemory, ask_for_room};
use rayon::current_num_threads;
use section_worker::{KeptReading, Worker, answer_by};
use std::alloc::Global;
use std::thread::{Threads, for_each_mut};

// Fewer sections aren't worth threads of their own.
const LEAST_SECTIONS: usize = 4;

// Nor are fewer rows in all of them.
const LEAST_ROWS: u32 = 1_024;

// Room that is asked for at once for each section, for its answer and what is kept of it.
const ROOM: usize = 4 * 1_048_576;

// A section that is answered by itself: its reading, and what is to be kept of it with its answer.
#[derive(Drop)]
pub(crate) struct Ahead {
    pub(crate) reading: Reading,
    pub(crate) done: Option<(KeptReading, Answer)>,
}

impl Ahead {
    // Works out the answer, if there is memory for it.
    fn work_out(&mut self, alloc: Global)
        ensures { IsWorkedOut self.old self.new }
    {
        self.done = answer_by(alloc, None, &mut self.reading).ok();
    }

    // Whether this is the section of a reading, read after the same edit, and answered.
    pub(crate) fn is_of(&self, reading: &Reading) -> bool
        ensures name { result ≡ true
            → self.now.reading.cut.section.name ≡ reading.now.cut.section.name }
        ensures at { result ≡ true → self.now.reading.at ≡ reading.now.at }
    {
        self.done.is_some()
            && self.reading.at() == reading.at()
            && self.reading.section().name == reading.section().name
    }

    // The answer, as it is published; the worker keeps what is to be kept of the section. The
    // reading stays.
    pub(crate) fn taken_in(&mut self, worker: &mut Worker) -> Result<Done, OutOfMemory>
        requires { IsRight self.old }
        ensures answer { IfOk result (IsAnswerOf self.old.reading) }
        ensures keeps { OnOk result
            (KeepsRows self.old.reading.cut self.old.reading.at worker.old worker.new) }
        ensures reading { self.new.reading ≡ self.old.reading }
        ensures gone { self.new.done ≡ None }
    {
        let Some((kept, answer)) = self.done.take() else {
            return Err(OutOfMemory);
        };
        let section = self.reading.section().name;
        worker.put(section, kept)?;
        Ok(Done {
            section,
            at: self.reading.at(),
            answer,
        })
    }
}

// The answers of all sections that are not current, in the order of names, worked out without what
// is kept of them, side by side. Where threads don't pay the list is empty; no clause says when.
pub(crate) fn first_answers(
    rt: &(impl Threads + Sync),
    alloc: Global,
    book: &Book,
) -> Result<Vec<Ahead>, OutOfMemory>
    ensures { IfOk result (λ all. AreAhead book.now all.items) }
{
    let _journal = book.journal();
    let readings = book.readings()?;
    let threads = threads_for(rt, &readings);
    if threads == 1 {
        return Ok(Vec::new(alloc));
    }
    let mut all = asked(alloc, readings)?;
    work_all(rt, alloc, threads, &mut all);
    Ok(all)
}

// In how many threads these sections are answered: in one where more don't pay. Only where they may
// pay is the system asked for the number of processors, since that reads a file.
fn threads_for(rt: &impl Threads, readings: &[Reading]) -> usize
    ensures { 0 < result }
{
    if are_many(readings) {
        current_num_threads(rt)
    } else {
        1
    }
}

// Whether it takes long enough to answer these sections. Of a crowded section nothing is worked
// out. No clause says so: the answers are the same.
fn are_many(readings: &[Reading]) -> bool {
    let mut rows = 0u32;
    for reading in readings {
        let count = reading.count();
        if !is_crowded(count) {
            rows = rows.saturating_add(count);
        }
    }
    readings.len() >= LEAST_SECTIONS && rows >= LEAST_ROWS
}

// The sections of these readings, none of which is answered yet.
fn asked(alloc: Global, readings: Vec<Reading>) -> Result<Vec<Ahead>, OutOfMemory>
    ensures { IfOk result (λ all. map (λ a. a.reading) all.items ≡ readings.items) }
{
    let mut all = Vec::with_capacity(alloc, readings.len())?;
    for reading in readings {
        all.push(Ahead {
            reading,
            done: None,
        })?;
    }
    Ok(all)
}

// Works out all answers, in at most so many threads.
fn work_all<R: Threads + Sync>(rt: &R, alloc: Global, threads: usize, all: &mut [Ahead])
    requires { 0 < threads }
    ensures { AreWorkedOut all.old all.new }
{
    for_each_mut(
        rt,
        all,
        threads,
        &|_, one: &mut Ahead|
            ensures { IsWorkedOut one.entry.now one.exit.now }
        {
            ask_for_room(alloc, ROOM);
            one.work_out(alloc)
        },
    );
}
