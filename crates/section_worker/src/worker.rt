//! A worker, its turns, and what it keeps of sections.
ghost use Rattle.std.specs.Prelude.{◌≡◌, ◌+◌, ◌<◌, ◌≤◌, IfOk, OnOk, OnErr, IfSome};
ghost use Rattle.plan_model.specs.Answer.{IsAnswer};
ghost use Rattle.plan_model.specs.Board.{IsAccess, IsCall, Gives, CountsHanded};
ghost use Rattle.plan_model.specs.Outcome.{IsNextReading, IsDone};
ghost use Rattle.plan_repair.specs.Kept.{kept_of, AgreesWith, TakesAtMost};
ghost use Rattle.section_worker.specs.Keeping.{new_worker, kept_for, kept_reading, uses_missing};
ghost use Rattle.section_worker.specs.Keeping.{IsSameWorker, KeepsWhatWasRead, KeepsRows};
ghost use Rattle.section_worker.specs.Keeping.{Keeps, Forgets};
ghost use Rattle.section_worker.specs.Turn.{IsSameBoard, TurnsTo, WorksTo, TurnsOut, done_of};
ghost use Rattle.section_worker.specs.Turn.{turned_of};

use plan_model::{Answer, Board, Done, Next, NotTaken, Rows};
use plan_repair::Keep;
use rail_model::{Name, OutOfMemory};
use rail_outside::{Gate, Point};
use std::alloc::Global;
use std::collections::BTreeMap;
use std::marker::Model;
use std::sync::Wait;

/// What came of one turn of a worker.
#[derive(Drop)]
pub enum Turned {
    /// The answer of a section was published; it is that of the edit of the number `at`.
    Published { section: Name, at: u64 },
    /// The reading was that of the edit of the number `at`, and since then edits touched the
    /// section, the last one by the number `by`.
    Stale { section: Name, at: u64, by: u64 },
    /// Meanwhile the section became current, by its publication at the edit of the number `at`.
    Current { section: Name, at: u64 },
    /// Every section of the share is current. So many tasks are left in all scripts.
    Idle { left: u64 },
}

/// What a worker keeps of a section: the number of its last reading, and that reading's rows.
#[derive(Drop)]
pub struct KeptReading {
    at: u64,
    keep: Keep,
}

/// A worker answers those sections whose number leaves the rest `share` on division by `of`.
/// Contracts see the two numbers, the worker's actor at the gate, and what it keeps of sections.
#[derive(Drop)]
pub struct Worker {
    alloc: Global,
    share: u32,
    of: u32,
    actor: u32,
    kept: BTreeMap<Name, KeptReading>,
}

impl Model for Worker {
    ghost use Rattle.std.specs.Prelude.{◌<◌};
    ghost use Rattle.section_worker.specs.Keeping.{Working};

    ghost Value = { Working };

    ghost view = { λ w. record {
      share = w.share;
      of = w.of;
      actor = w.actor;
      kept = w.kept.entries;
    } };

    ghost invariant = { λ w. w.share < w.of };
}

impl Worker {
    /// A worker that keeps nothing. It asks for no memory.
    pub fn new(alloc: Global, share: u32, of: u32, actor: u32) -> Worker
        requires { share < of }
        ensures { result ≡ new_worker share of actor }
    {
        Worker {
            alloc,
            share,
            of,
            actor,
            kept: BTreeMap::new(alloc),
        }
    }

    /// The worker's actor at the gate.
    pub fn actor(&self) -> u32
        ensures { result ≡ self.now.actor }
    {
        self.actor
    }

    /// One turn: reads the next section of the share, works out its answer between two calls of the
    /// board, and publishes it, unless a later edit touches the section or it is current already.
    /// Where the share is current nothing is read. The gate is passed after a reading and before
    /// its publication, of which no clause speaks.
    ///
    /// Of a section that was answered before at most the uses of those rows are taken that aren't
    /// kept with their name and stamp. Without memory nothing is added, and of the section that was
    /// read nothing is kept.
    pub fn turn<R: Wait, B: Board, G: Gate>(
        &mut self,
        rt: &R,
        board: &mut B,
        gate: &G,
    ) -> Result<Turned, OutOfMemory>
        requires { KeepsWhatWasRead self.old (B.access board.old).seen }
        ensures turn { TurnsTo self.old self.new (B.access board.old) (B.access board.new) result }
        ensures kept { KeepsWhatWasRead self.new (B.access board.new).seen }
        ensures worker { IsSameWorker self.old self.new }
        ensures board { IsSameBoard (B.access board.old) (B.access board.new) }
        ensures readings { (B.access board.new).readings ≤ (B.access board.old).readings + 1 }
    {
        match board.read_next(rt, self.share, self.of)? {
            Next::Reading(reading) => self.work(rt, board, gate, reading),
            Next::Idle { left } => Ok(Turned::Idle { left }),
        }
    }

    // Works out the answer of a reading and publishes it. Without memory nothing is kept of its
    // section.
    fn work<R: Wait, B: Board, G: Gate>(
        &mut self,
        rt: &R,
        board: &mut B,
        gate: &G,
        reading: B::Read,
    ) -> Result<Turned, OutOfMemory>
        requires access { IsAccess (B.access board.old) }
        requires next { IsNextReading self.old.share self.old.of (B.access board.old).seen
            (B.Read.shown reading) }
        requires kept { KeepsWhatWasRead self.old (B.access board.old).seen }
        ensures turn { WorksTo self.old self.new (B.access board.old) (B.access board.new) result }
        ensures kept { KeepsWhatWasRead self.new (B.access board.new).seen }
        ensures worker { IsSameWorker self.old self.new }
        ensures board { IsSameBoard (B.access board.old) (B.access board.new) }
        ensures readings { (B.access board.new).readings ≡ (B.access board.old).readings }
    {
        let mut reading = reading;
        gate.pass(rt, self.actor, Point::AfterReading);
        let answer = self.answer(&mut reading)?;
        gate.pass(rt, self.actor, Point::BeforePublication);
        let section = reading.section().name;
        match publish(rt, board, answer, reading) {
            Ok(turned) => Ok(turned),
            Err(error) => {
                self.forget(&section);
                Err(error)
            }
        }
    }

    /// The answer of a reading, by what is kept of its section, which is used up for it. The
    /// reading's rows are kept in its place. At most the uses of those rows are taken that aren't
    /// kept with their name and stamp. Without memory nothing is kept of the section.
    ///
    /// The condition: where something is kept of the section, a kept row and a row of the reading
    /// that have one name and one stamp are equal. Readings of one journal, an earlier and a later,
    /// are so (`plan_model::stamp_tells_row`).
    pub fn answer<R: Rows>(&mut self, reading: &mut R) -> Result<Answer, OutOfMemory>
        requires { IfSome (kept_for self.old (R.shown reading.old).cut.section.name)
            (λ h. AgreesWith h.keep (R.shown reading.old).cut) }
        ensures answer { IfOk result (IsAnswer (R.shown reading.old).cut) }
        ensures worker { IsSameWorker self.old self.new }
        ensures ok { OnOk result
            (KeepsRows (R.shown reading.old).cut (R.shown reading.old).at self.old self.new) }
        ensures err { OnErr result
            (Forgets (R.shown reading.old).cut.section.name self.old self.new) }
        ensures reading { TakesAtMost
            (uses_missing (kept_for self.old (R.shown reading.old).cut.section.name)
            (R.shown reading.old).cut)
            (R.shown reading.old) (R.shown reading.new) }
    {
        let section = reading.section().name;
        let kept = self.take(&section);
        let (kept, answer) = answer_by(self.alloc, kept, reading)?;
        self.put(section, kept)?;
        Ok(answer)
    }

    // What is kept of a section, of which nothing is kept then.
    fn take(&mut self, section: &Name) -> Option<KeptReading>
        ensures worker { IsSameWorker self.old self.new }
        ensures taken { result ≡ kept_for self.old section.now }
        ensures forgets { Forgets section.now self.old self.new }
    {
        self.kept.remove(section)
    }

    /// Keeps this of a section, in place of what was kept of it. Without memory nothing changes.
    pub fn put(&mut self, section: Name, kept: KeptReading) -> Result<(), OutOfMemory>
        ensures worker { IsSameWorker self.old self.new }
        ensures ok { OnOk result (Keeps section kept self.old self.new) }
        ensures err { OnErr result (self.new ≡ self.old) }
    {
        self.kept.insert(section, kept)?;
        Ok(())
    }

    // Keeps nothing of a section.
    fn forget(&mut self, section: &Name)
        ensures worker { IsSameWorker self.old self.new }
        ensures forgets { Forgets section.now self.old self.new }
    {
        self.kept.remove(section);
    }
}

/// The answer of a reading by what is kept of its section, and what is to be kept of it from then
/// on. At most the uses of those rows are taken that aren't kept with their name and stamp. The
/// condition is that of `Worker::answer`, which answers so. Readings of several sections can be
/// answered side by side.
pub fn answer_by<R: Rows>(
    alloc: Global,
    kept: Option<KeptReading>,
    reading: &mut R,
) -> Result<(KeptReading, Answer), OutOfMemory>
    requires { IfSome kept (λ k. AgreesWith k.keep (R.shown reading.old).cut) }
    ensures answer { IfOk result (λ both. IsAnswer (R.shown reading.old).cut both.1) }
    ensures keep { IfOk result (λ both. both.0 ≡ kept_reading (R.shown reading.old)) }
    ensures reading { TakesAtMost (uses_missing kept (R.shown reading.old).cut)
        (R.shown reading.old) (R.shown reading.new) }
{
    let at = reading.at();
    let (keep, answer) = repaired(alloc, kept, reading)?;
    Ok((KeptReading { at, keep }, answer))
}

// The answer of a reading by what is kept of its section, and its rows as they are to be kept.
fn repaired<R: Rows>(
    alloc: Global,
    kept: Option<KeptReading>,
    reading: &mut R,
) -> Result<(Keep, Answer), OutOfMemory>
    requires { IfSome kept (λ k. AgreesWith k.keep (R.shown reading.old).cut) }
    ensures answer { IfOk result (λ both. IsAnswer (R.shown reading.old).cut both.1) }
    ensures keep { IfOk result (λ both. both.0 ≡ kept_of (R.shown reading.old).cut) }
    ensures reading { TakesAtMost (uses_missing kept (R.shown reading.old).cut)
        (R.shown reading.old) (R.shown reading.new) }
{
    match kept {
        Some(kept) => kept.keep.repair(alloc, reading),
        None => Keep::first(alloc, reading),
    }
}

// Publishes the answer of a reading.
fn publish<R: Wait, B: Board>(
    rt: &R,
    board: &mut B,
    answer: Answer,
    reading: B::Read,
) -> Result<Turned, OutOfMemory>
    requires { IsDone (B.access board.old).seen (done_of (B.Read.shown reading) answer) }
    ensures call { IsCall
        (Gives (TurnsOut (B.access board.old).pass (done_of (B.Read.shown reading) answer)) result)
        (B.access board.old) (B.access board.new) }
    ensures counts { CountsHanded (B.Read.shown reading).taken result
        (B.access board.old) (B.access board.new) }
{
    let section = reading.section().name;
    let number = reading.at();
    let done = Done {
        section,
        at: number,
        answer,
    };
    let published = board.publish(rt, done, reading)?;
    Ok(turned_by(section, number, published))
}

// What came of a turn whose publication was answered so.
fn turned_by(section: Name, at: u64, published: Result<(), NotTaken>) -> Turned
    ensures { result ≡ turned_of section at published }
{
    match published {
        Ok(()) => Turned::Published { section, at },
        Err(NotTaken::Stale { by }) => Turned::Stale { section, at, by },
        Err(NotTaken::Current { at }) => Turned::Current { section, at },
    }
}
