//! The fields that stand at the end of a row: names, or the times of a run.
ghost use Rattle.std.specs.Prelude.{◌≡◌, ℕ, ◌+◌, ◌<◌, ◌≤◌, ◌^◌, List, [], ◌∷◌, ◌++◌, length, drop, vec_len, vec_capacity, IfOk, IfErr, OnOk, Ok, Err};
ghost use Rattle.row_text.specs.SheetRows.{field};
ghost use Rattle.row_text.specs.Reads.{Reads};
ghost use Rattle.row_text.specs.Words.{name_in, time_in};
ghost use Rattle.row_text.specs.Lines as lines;

use crate::fields::Row;
use crate::read_field::{name_at, number_at, time_at};
use crate::unread::Unread;
use rail_model::{Form, Leg, List, Name, OutOfMemory};
use std::alloc::Global;

// The names in the fields from one on.
pub(crate) fn names_from(alloc: Global, row: &Row<'_>, from: usize) -> Result<List<Name>, Unread>
    requires there { from ≤ length row.now }
    requires few { length row.now < 2 ^ 63 }
    ensures { Reads result (lines.read_each name_in (drop from row.now)) }
{
    let mut names = Vec::with_capacity(alloc, row.len() - from)?;
    if from < row.len() {
        let first = name_at(row, from)?;
        for i in from..row.len() {
            push_name(&mut names, &first, row, i)?;
        }
    }
    Ok(List::from_vec(names))
}

// Adds the name in the field at `i`. It is made where it stands: first another name is put there. One
// that is made elsewhere would be moved as soon as its bytes are written, which takes longer than
// to write them.
#[inline]
fn push_name(names: &mut Vec<Name>, other: &Name, row: &Row<'_>, i: usize) -> Result<(), Form>
    requires there { i < length row.now }
    requires room { vec_len names.old < vec_capacity names.old }
    ensures ok { OnOk result ((name : List ℕ) × (name_in (field row.now i) ≡ Ok name)
        × (names.new.items ≡ names.old.items ++ name ∷ [])) }
    ensures len { OnOk result (vec_len names.new ≡ vec_len names.old + 1) }
    ensures capacity { OnOk result (vec_capacity names.new ≡ vec_capacity names.old) }
    ensures err { IfErr result (λ form. name_in (field row.now i) ≡ Err form) }
{
    let at = names.len();
    names.push_reserved(*other);
    match names[at].set(row.get(i)) {
        Ok(()) => Ok(()),
        Err(_) => Err(Form::BadName),
    }
}

// The legs of a run, of the times in the fields from one on.
pub(crate) fn run_legs(
    alloc: Global,
    version: u32,
    start_s: u32,
    row: &Row<'_>,
    from: usize,
) -> Result<List<Leg>, Unread>
    requires there { from ≤ length row.now }
    requires few { length row.now < 2 ^ 63 }
    ensures { Reads result (lines.legs_in version start_s (drop from row.now)) }
{
    if version != 2 {
        return legs_from(alloc, row, from);
    }
    let mut times = times_from(alloc, version, row, from)?.into_vec();
    legs_between(alloc, start_s, &mut times)
}

// The legs of the running and dwell times in the fields from one on, as in version 1, where they
// are the same for any start.
fn legs_from(alloc: Global, row: &Row<'_>, from: usize) -> Result<List<Leg>, Unread>
    requires there { from ≤ length row.now }
    requires few { length row.now < 2 ^ 63 }
    ensures { Reads result (lines.legs_in 1 0 (drop from row.now)) }
{
    let len = row.len();
    let mut legs = Vec::with_capacity(alloc, (len - from).div_ceil(2))?;
    let mut i = from;
    while len - i >= 2 {
        let running_s = number_at(row, i)?;
        let dwell_s = number_at(row, i + 1)?;
        legs.push_reserved(Leg { running_s, dwell_s });
        i += 2;
    }
    if i < len {
        let running_s = number_at(row, i)?;
        legs.push_reserved(Leg {
            running_s,
            dwell_s: 0,
        });
    }
    Ok(List::from_vec(legs))
}

// The times in the fields from one on.
fn times_from(alloc: Global, version: u32, row: &Row<'_>, from: usize) -> Result<List<u32>, Unread>
    requires there { from ≤ length row.now }
    requires few { length row.now < 2 ^ 63 }
    ensures { Reads result (lines.read_each (time_in version) (drop from row.now)) }
{
    let mut times = Vec::with_capacity(alloc, row.len() - from)?;
    for i in from..row.len() {
        times.push(time_at(version, row, i)?)?;
    }
    Ok(List::from_vec(times))
}

// The legs of the arrivals and departures after a start.
fn legs_between(alloc: Global, start_s: u32, times: &mut [u32]) -> Result<List<Leg>, Unread>
    ensures { Reads result (lines.run_legs 2 start_s times.old) }
{
    if falls(start_s, times) {
        return Err(Unread::Fault(Form::Order));
    }
    take_differences(start_s, times);
    Ok(legs_of(alloc, times)?)
}

// The legs of running and dwell times.
fn legs_of(alloc: Global, times: &[u32]) -> Result<List<Leg>, OutOfMemory>
    ensures { IfOk result (λ legs. legs ≡ lines.legs_of times.now) }
{
    let mut legs = Vec::with_capacity(alloc, times.len().div_ceil(2))?;
    let mut i = 0;
    while times.len() - i >= 2 {
        legs.push_reserved(Leg {
            running_s: times[i],
            dwell_s: times[i + 1],
        });
        i += 2;
    }
    if i < times.len() {
        legs.push_reserved(Leg {
            running_s: times[i],
            dwell_s: 0,
        });
    }
    Ok(List::from_vec(legs))
}

// Makes of times how long after the one before it each comes.
fn take_differences(start_s: u32, times: &mut [u32])
    ensures { times.new ≡ lines.differences start_s times.old }
{
    let mut before = start_s;
    for i in 0..times.len() {
        let time = times[i];
        times[i] = time.saturating_sub(before);
        before = time;
    }
}

// Whether a time is less than the time before it.
fn falls(start_s: u32, times: &[u32]) -> bool
    ensures { result ≡ lines.falls start_s times.now }
{
    let mut before = start_s;
    for time in times {
        if *time < before {
            return true;
        }
        before = *time;
    }
    false
}
