//! A desk over a value that keeps a list of numbers, which several passes share.
ghost use Rattle.std.specs.Prelude.{◌≡◌, ℕ, ◌+◌, ◌^◌, ◌<◌, length, sum_by, All, IfOk, IfSome};
ghost use Rattle.turn_desk.specs.Journal.{AddsOwn};
ghost use Rattle.turn_desk.specs.Known.{IsReady};

use rail_model::{List, OutOfMemory};
use std::alloc::{AllocError, Global};
use std::sync::Wait;
use std::test::Fail;
use std::thread::{Threads, map_vec};
use turn_desk::{Desk, Kept, Pass};

// How many numbers each pass puts.
const COUNT: u32 = 500;

// A number, the pass that put it, and how many passes were drawn with it.
#[derive(Clone, Copy)]
struct Note {
    by: u32,
    number: u32,
    draws: u32,
}

#[derive(Drop)]
struct Notes {
    notes: List<Note>,
    issued: u32,
    ghost some: { 0 < length notes },
    ghost counted: { issued ≡ sum_by (λ n. n.draws) notes },
}

impl Notes {
    // The list of one note, by which pass 0 is drawn.
    fn new(alloc: Global) -> Result<Notes, OutOfMemory>
        ensures one { IfOk result (λ v. sum_by (λ n. n.draws) v.notes ≡ 1) }
        ensures zero { IfOk result (λ v. All (λ n. n.by ≡ 0) v.notes) }
    {
        let mut notes = List::new(alloc);
        notes.push(Note {
            by: 0,
            number: 0,
            draws: 1,
        })?;
        Ok(Notes { notes, issued: 1 })
    }

    // Puts a number at the end, with so many draws where so many numbers are left.
    fn put(&mut self, by: u32, number: u32, draws: u32) -> Result<(), OutOfMemory>
        ensures { AddsOwn (λ (n : Note). n.by) by self.old.notes self.new.notes }
    {
        if draws > u32::MAX - self.issued {
            return Err(OutOfMemory);
        }
        self.notes.push(Note { by, number, draws })?;
        self.issued += draws;
        Ok(())
    }

    fn times(&self, by: u32, number: u32) -> usize {
        self.notes
            .slice()
            .iter()
            .filter(|n| n.by == by && n.number == number)
            .count()
    }
}

impl Kept for Notes {
    ghost use Rattle.std.specs.Prelude.{◌<◌, length, sum_by};
    ghost use Rattle.std.proofs.Common.{arith};
    ghost use Rattle.std.proofs.lemmas.List.Sums.{sum_by-append};

    type Entry = Note;

    ghost entries = { λ v. v.notes };

    ghost pass_of = { λ n. n.by };

    ghost issued_by = { sum_by (λ n. n.draws) };

    ghost is_legal = { λ notes. 0 < length notes };

    fn issued(&self) -> u32 {
        self.issued
    }

    fn enter(&mut self, by: u32) -> Result<u32, OutOfMemory> {
        let number = self.issued;
        self.notes.push(Note {
            by,
            number,
            draws: 1,
        })?;
        self.issued = number + 1;
        Ok(number)
    }

    ghost longer_issues_no_fewer = { λ xs ys. omega (arith, sum_by-append (λ n. n.draws) xs ys) };

    ghost legal_has_one = { λ h. omega arith };

    ghost prefixes_are_legal = { λ n xs ys h. omega arith };
}

// A desk over the list of one note, and passes that pass 0 has drawn.
fn started<R: Wait>(
    rt: &R,
    alloc: Global,
    count: u32,
) -> Result<(Desk<Notes>, Pass<Notes>, Vec<Pass<Notes>>), Fail>
    ensures main { IfOk result (λ r. IsReady r.0 r.1) }
    ensures others { IfOk result (λ r. All (IsReady r.0) r.2.items) }
{
    let (desk, mut main) = Desk::start(alloc, Notes::new(alloc)?)?;
    let passes = desk.enter(rt, alloc, &mut main, count)??;
    Ok((desk, main, passes.into_vec()))
}

fn one_of(desk: &Desk<Notes>, passes: Vec<Pass<Notes>>) -> Option<Pass<Notes>>
    requires { All (IsReady desk.now) passes.items }
    ensures { IfSome result (IsReady desk.now) }
{
    let mut passes = passes;
    passes.pop()
}

// Takes the turn, puts one number, and gives the turn back.
fn put<R: Wait>(
    rt: &R,
    desk: &Desk<Notes>,
    pass: &mut Pass<Notes>,
    number: u32,
    draws: u32,
) -> Result<(), OutOfMemory>
    requires { IsReady desk.now pass.old }
    ensures { IsReady desk.now pass.new }
{
    let mut turn = desk.take(rt, pass);
    let by = pass.number();
    let result = turn.value_mut().put(by, number, draws);
    desk.give(pass, turn);
    result
}

fn put_all<R: Wait>(rt: &R, desk: &Desk<Notes>, pass: Pass<Notes>) -> Pass<Notes>
    requires { IsReady desk.now pass }
    ensures { IsReady desk.now result }
{
    let mut pass = pass;
    for number in 0..COUNT {
        let _ = put(rt, desk, &mut pass, number, 0);
    }
    pass
}

// Each pass puts its numbers in a thread of its own.
fn put_at_once<R: Threads + Wait + Sync>(
    rt: &R,
    desk: &Desk<Notes>,
    passes: Vec<Pass<Notes>>,
) -> Result<Vec<Pass<Notes>>, AllocError>
    requires { All (IsReady desk.now) passes.items }
    ensures { IfOk result (λ v. All (IsReady desk.now) v.items) }
{
    map_vec(
        rt,
        passes,
        &|pass: Pass<Notes>| -> Pass<Notes>
            requires { IsReady desk.now pass }
            ensures { IsReady desk.entry.now result }
        { put_all(rt, desk, pass) },
    )
}

fn take_in(desk: &Desk<Notes>, main: &mut Pass<Notes>, others: Vec<Pass<Notes>>)
    requires main { IsReady desk.now main.old }
    requires others { All (IsReady desk.now) others.items }
    ensures { IsReady desk.now main.new }
{
    let mut others = others;
    while let Some(other) = others.pop() {
        desk.leave(main, other);
    }
}

#[test]
fn who_has_the_turn_has_the_value(rt: HostRuntime) -> Result<(), Fail> {
    let (desk, mut main, others) = started(&rt, rt.alloc(), 1)?;
    let Some(mut pass) = one_of(&desk, others) else {
        panic!(rt; "there is a pass")
    };
    assert_eq!(rt; pass.number(), 1);
    let turn = desk.take(&rt, &mut main);
    let tried = desk.try_take(&mut pass);
    assert!(rt; tried.is_err());
    desk.give(&mut main, turn);
    let Ok(turn) = desk.try_take(&mut pass) else {
        panic!(rt; "the turn was given back")
    };
    assert_eq!(rt; turn.value().notes.len(), 2);
    desk.give(&mut pass, turn);
    desk.leave(&mut main, pass);
    let notes = desk.close(&rt, main);
    assert_eq!(rt; notes.notes.len(), 2);
    Ok(())
}

// Pass 0 closes the desk while another pass has not left into it, and has put a number that pass 0
// has not seen. The value has what was put, and nothing more: no clause of `close` says that it
// adds no entry in the name of a pass that has not left.
#[test]
fn closing_adds_no_entry(rt: HostRuntime) -> Result<(), Fail> {
    let (desk, mut main, others) = started(&rt, rt.alloc(), 1)?;
    let Some(mut pass) = one_of(&desk, others) else {
        panic!(rt; "there is a pass")
    };
    put(&rt, &desk, &mut main, 7, 0)?;
    put(&rt, &desk, &mut pass, 9, 0)?;
    let notes = desk.close(&rt, main);
    let put_once = (notes.times(0, 7), notes.times(1, 9));
    assert_eq!(rt; (notes.notes.len(), put_once), (4, (1, 1)));
    Ok(())
}

#[test]
fn each_number_of_many_passes_stands_once(rt: HostRuntime) -> Result<(), Fail> {
    let (desk, mut main, others) = started(&rt, rt.alloc(), 6)?;
    let others = put_at_once(&rt, &desk, others)?;
    take_in(&desk, &mut main, others);
    let notes = desk.close(&rt, main);
    assert_eq!(rt; notes.notes.len(), 7 + 6 * COUNT as usize);
    for by in 1..=6 {
        for number in 0..COUNT {
            assert_eq!(rt; notes.times(by, number), 1);
        }
    }
    Ok(())
}

// The first number of so many new passes, if so many numbers are left.
fn first_drawn<R: Wait>(
    rt: &R,
    alloc: Global,
    desk: &Desk<Notes>,
    pass: &mut Pass<Notes>,
    count: u32,
) -> Result<Option<u32>, OutOfMemory>
    requires { IsReady desk.now pass.old }
    ensures { IsReady desk.now pass.new }
{
    match desk.enter(rt, alloc, pass, count)? {
        Ok(passes) => Ok(passes.get(0).map(|first| first.number())),
        Err(_) => Ok(None),
    }
}

// No more than 2^32 - 1 passes are issued, and two numbers are left.
#[test]
fn too_few_numbers_are_left(rt: HostRuntime) -> Result<(), Fail> {
    let (desk, mut main, others) = started(&rt, rt.alloc(), 0)?;
    drop(others);
    put(&rt, &desk, &mut main, 0, u32::MAX - 3)?;
    let three = first_drawn(&rt, rt.alloc(), &desk, &mut main, 3)?;
    let two = first_drawn(&rt, rt.alloc(), &desk, &mut main, 2)?;
    let one = first_drawn(&rt, rt.alloc(), &desk, &mut main, 1)?;
    assert_eq!(rt; (three, two, one), (None, Some(u32::MAX - 2), None));
    Ok(())
}
