//! A journal's text that grows by the rows of one entry after the other.
ghost use Rattle.std.specs.Prelude.{◌≡◌, List, [], map, All, IfOk, OnOk};
ghost use Rattle.std.specs.List.{flat_map};
ghost use Rattle.row_text.specs.Adds.{AddsAll};
ghost use Rattle.row_text.specs.SheetRows.{text_of_rows};
ghost use Rattle.capacity_report.specs.Answers as rows;
ghost use Rattle.capacity_report.specs.Answers.{IsAnswerOfSome};
ghost use Rattle.capacity_report.specs.LastTrains.{bytes_of};
ghost use Rattle.capacity_report.specs.Published.{PublishesAnswer};
ghost use Rattle.capacity_report.specs.Rows as journal;
ghost use Rattle.capacity_report.specs.Shown.{IsShown};
ghost use Rattle.capacity_report.specs.TextSoFar.{so_far, AreThere, IsThere, Grows};

use crate::compressed::{head_rows, train_rows};
use crate::journal::{act_rows, published_row, published_rows};
use crate::last_trains::{LastTrains, are_alike, rows_again, rows_anew};
use crate::parts::first_room;
use plan_model::{Act, Answer, Entry, Plan};
use rail_model::{Name, OutOfMemory};
use row_text::Sheet;
use std::alloc::Global;
use std::mem;

// Of an answer with fewer trains all rows are written anew.
const LEAST_TRAINS: usize = 64;

// About how many bytes a row has besides names of trains. A longer text must be moved.
const BYTES_A_ROW: usize = 40;

// The text so far: texts that are finished, and the sheet of the rows after them. A text ends with
// the trains of an answer: so they are found again.
#[derive(Drop)]
pub(crate) struct TextSoFar {
    pub(crate) texts: Vec<Vec<u8>>,
    pub(crate) sheet: Sheet,
    // At most one of a section.
    pub(crate) last: Vec<LastTrains>,
    // Rooms in which sheets begin.
    pub(crate) rooms: Vec<Vec<u8>>,
}

impl TextSoFar {
    // No text, with rooms in which its sheets will begin.
    pub(crate) fn new(alloc: Global, rooms: Vec<Vec<u8>>) -> TextSoFar
        ensures empty { so_far result ≡ [] }
        ensures there { AreThere result }
    {
        let mut rooms = rooms;
        TextSoFar {
            texts: Vec::new(alloc),
            sheet: begun(alloc, &mut rooms),
            last: Vec::new(alloc),
            rooms,
        }
    }

    // The texts, one after the other.
    pub(crate) fn into_texts(self) -> Result<Vec<Vec<u8>>, OutOfMemory>
        ensures { IfOk result (λ texts. flat_map (λ t. t.items) texts.items ≡ so_far self) }
    {
        let mut texts = self.texts;
        texts.push(text_of(self.sheet))?;
        Ok(texts)
    }
}

// Rooms for the sheets of these entries' text: one for each answer after which a sheet is finished,
// and one more. Where memory runs out, sheets begin without a room.
pub(crate) fn rooms_for(alloc: Global, entries: &[Entry]) -> Vec<Vec<u8>> {
    let mut rooms = Vec::new(alloc);
    let _ = add_room(alloc, &mut rooms);
    for entry in entries {
        if finishes_sheet(&entry.act) {
            let _ = add_room(alloc, &mut rooms);
        }
    }
    rooms
}

fn add_room(alloc: Global, rooms: &mut Vec<Vec<u8>>) -> Result<(), OutOfMemory> {
    rooms.push(first_room(alloc)?)?;
    Ok(())
}

// Whether a sheet is finished after the rows of what an entry says.
fn finishes_sheet(act: &Act) -> bool {
    match act {
        Act::Published {
            answer: Answer::Ordered(plan),
            ..
        } => has_many_trains(plan),
        _ => false,
    }
}

// A sheet without rows, in the last of the rooms, if one is left.
fn begun(alloc: Global, rooms: &mut Vec<Vec<u8>>) -> Sheet
    ensures { result.rows ≡ [] }
{
    match rooms.pop() {
        Some(room) => Sheet::with_room(room),
        None => Sheet::new(alloc),
    }
}

// The text of the rows that were ended, which takes no more memory than it needs.
fn text_of(sheet: Sheet) -> Vec<u8>
    ensures { result.items ≡ text_of_rows sheet.rows }
{
    let mut text = sheet.into_text();
    text.shrink_to_fit();
    text
}

// The text with the rows of one entry more, which is let go of.
pub(crate) fn with_entry(
    alloc: Global,
    before: TextSoFar,
    entry: Entry,
) -> Result<TextSoFar, OutOfMemory>
    requires there { AreThere before }
    requires answer { PublishesAnswer entry.act }
    ensures { IfOk result (λ after. Grows before after (journal.act_rows entry.act)) }
{
    let mut entry = entry;
    if let Act::Published {
        section,
        at,
        answer,
    } = &mut entry.act
    {
        let answer = mem::replace(answer, Answer::Crowded { count: 0 });
        return with_answer(alloc, before, *section, *at, answer);
    }
    with_act(alloc, before, &entry.act)
}

// The text with the rows of what an entry says.
fn with_act(alloc: Global, before: TextSoFar, act: &Act) -> Result<TextSoFar, OutOfMemory>
    requires there { AreThere before }
    requires answer { PublishesAnswer act.now }
    ensures { IfOk result (λ after. Grows before after (journal.act_rows act.now)) }
{
    let mut after = before;
    act_rows(alloc, &mut after.sheet, act)?;
    Ok(after)
}

// The text with the rows of an answer that was published.
fn with_answer(
    alloc: Global,
    before: TextSoFar,
    section: Name,
    at: u64,
    answer: Answer,
) -> Result<TextSoFar, OutOfMemory>
    requires there { AreThere before }
    requires answer { IsAnswerOfSome answer }
    ensures { IfOk result (λ after. Grows before after (journal.published_rows section at answer)) }
{
    match answer {
        Answer::Ordered(plan) => with_plan(alloc, before, section, at, plan),
        answer => {
            let mut after = before;
            published_rows(alloc, &mut after.sheet, &section, at, &answer)?;
            Ok(after)
        }
    }
}

// The text with the rows of a compressed timetable that was published.
fn with_plan(
    alloc: Global,
    before: TextSoFar,
    section: Name,
    at: u64,
    plan: Plan,
) -> Result<TextSoFar, OutOfMemory>
    requires there { AreThere before }
    requires answer { IsAnswerOfSome (Answer.Ordered plan) }
    ensures { IfOk result (λ after. Grows before after
        (journal.published_rows section at (Answer.Ordered plan))) }
{
    let mut after = before;
    published_row(&mut after.sheet, &section, at)?;
    head_rows(alloc, &mut after.sheet, &section, &plan)?;
    with_trains(alloc, after, section, plan)
}

// The text with the rows of a plan's trains.
fn with_trains(
    alloc: Global,
    before: TextSoFar,
    section: Name,
    plan: Plan,
) -> Result<TextSoFar, OutOfMemory>
    requires there { AreThere before }
    requires shown { IsShown plan }
    ensures { IfOk result (λ after. Grows before after (rows.train_rows plan)) }
{
    if !has_many_trains(&plan) {
        let mut after = before;
        train_rows(&mut after.sheet, &plan)?;
        return Ok(after);
    }
    with_many_trains(alloc, before, section, plan)
}

// Whether the rows of a plan's trains are found again.
fn has_many_trains(plan: &Plan) -> bool {
    plan.placed.len() >= LEAST_TRAINS
}

// The text with the rows of a plan's trains, which are found again.
fn with_many_trains(
    alloc: Global,
    before: TextSoFar,
    section: Name,
    plan: Plan,
) -> Result<TextSoFar, OutOfMemory>
    requires there { AreThere before }
    requires shown { IsShown plan }
    ensures { IfOk result (λ after. Grows before after (rows.train_rows plan)) }
{
    let TextSoFar {
        mut texts,
        mut sheet,
        mut last,
        mut rooms,
    } = before;
    let place = place_of(&last, &section);
    let from = sheet.bytes();
    let bytes = rows_of_trains(alloc, &mut sheet, &plan, &texts, &last, place)?;
    let trains = LastTrains {
        section,
        plan,
        text: texts.len(),
        from,
        bytes,
    };
    texts.push(text_of(sheet))?;
    keep(&mut last, place, trains)?;
    let sheet = begun(alloc, &mut rooms);
    Ok(TextSoFar {
        texts,
        sheet,
        last,
        rooms,
    })
}

// Where a section's trains are kept, if they are; else how many are kept. No clause says so: trains
// that aren't the same are found out when they are compared.
fn place_of(last: &[LastTrains], section: &Name) -> usize {
    for i in 0..last.len() {
        if last[i].section == *section {
            return i;
        }
    }
    last.len()
}

// Adds the rows of a plan's trains, and gives how many bytes each has. Those of the trains that are
// kept at a place are copied where they are the same.
fn rows_of_trains(
    alloc: Global,
    sheet: &mut Sheet,
    plan: &Plan,
    texts: &[Vec<u8>],
    last: &[LastTrains],
    place: usize,
) -> Result<Vec<usize>, OutOfMemory>
    requires shown { IsShown plan.now }
    requires there { All (IsThere texts.now) last.now }
    ensures { IfOk result (λ bytes. AddsAll sheet.old sheet.new (rows.train_rows plan.now)
        × (bytes.items ≡ map bytes_of (rows.train_rows plan.now))) }
{
    let _ = sheet.reserve(room_for(plan));
    if place < last.len() {
        let trains = &last[place];
        if are_alike(plan, &trains.plan) {
            return rows_again(alloc, sheet, plan, trains, &texts[trains.text]);
        }
    }
    rows_anew(alloc, sheet, plan)
}

// Keeps trains at a place, or at the end.
fn keep(last: &mut Vec<LastTrains>, place: usize, trains: LastTrains) -> Result<(), OutOfMemory>
    ensures { (texts : List _) → IsThere texts trains → All (IsThere texts) last.old.items
        → OnOk result (All (IsThere texts) last.new.items) }
{
    if place < last.len() {
        last[place] = trains;
        return Ok(());
    }
    last.push(trains)?;
    Ok(())
}

// About how many bytes the rows of a plan's trains have, if all names are as long as the first
// train's. No clause says so: it is a hint for room. A row has two names: its train's, and that of
// the train before it.
fn room_for(plan: &Plan) -> usize {
    let trains = plan.placed.len();
    if trains == 0 {
        return 0;
    }
    let names = plan.placed.name(0).len().saturating_mul(2);
    trains.saturating_mul(BYTES_A_ROW.saturating_add(names))
}
