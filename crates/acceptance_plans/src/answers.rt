//! Answers of sections: how much of a reading they take, and which of them the checker takes for
//! the answer.
use compression::answer;
use critical_chain::is_answer;
use plan_model::{Answer, PlacedList, Plan, Reading, Rows, Tie};
use rail_model::OutOfMemory;
use small_lines::{Text, piece_at, signed_number, small_number, word};
use std::alloc::Global;

// Adds so many runs over the route R, named by their numbers, one second after the other.
pub(crate) fn put_runs(rows: &mut Text, count: u64) {
    for number in 0..count.min(2_000) {
        rows.show(b"run,t", number + 1_000);
        rows.show(b",R,100,10,", number + 100);
        rows.put_line(b",60,0,60");
    }
}

// The answer's kind, with the occupancy time or the number of trains, and how many uses were taken.
pub(crate) fn write_answer(alloc: Global, text: &mut Text, reading: &mut Reading) {
    match answer(alloc, reading) {
        Ok(answer) => put_kind(text, &answer),
        Err(_) => text.lose(),
    }
    text.show(b", taken ", reading.taken());
    text.put(b"\n");
}

// The kind of an answer, with its occupancy time or its number of trains.
pub(crate) fn put_kind(text: &mut Text, answer: &Answer) {
    match answer {
        Answer::Ordered(plan) => text.show(b"occupancy ", plan.occupancy),
        Answer::Crowded { count } => text.show(b"crowded ", *count),
        Answer::Opposite { .. } | Answer::Ring(_) => text.put(b"disorder 0"),
    }
}

// Whether the checker takes the compressed timetable for the answer where its last train enters at
// the moment of the case, with its tie: `start`, or the positions of a train and a block.
pub(crate) fn write_is_answer(alloc: Global, text: &mut Text, line: &[u8], reading: &mut Reading) {
    match answer(alloc, reading) {
        Ok(Answer::Ordered(plan)) => write_moved(alloc, text, line, reading, plan),
        Ok(_) => text.put_line(b"no plan"),
        Err(_) => text.lose(),
    }
}

// The trains of the compressed timetable, the last with the entry and the tie of the case.
pub(crate) fn write_trains(alloc: Global, text: &mut Text, line: &[u8], reading: &mut Reading) {
    match answer(alloc, reading) {
        Ok(Answer::Ordered(plan)) => {
            let tie = tie_of(word(line, 2));
            match moved_last(alloc, &plan.placed, signed_number(word(line, 1)), tie) {
                Ok(placed) => put_trains(text, &placed),
                Err(_) => text.lose(),
            }
        }
        Ok(_) => text.put_line(b"no plan"),
        Err(_) => text.lose(),
    }
}

fn put_trains(text: &mut Text, placed: &PlacedList) {
    for i in 0..placed.len() {
        text.show(b"planned ", placed.planned(i));
        text.show(b", enters ", placed.entry(i));
        match placed.tie(i) {
            Tie::Start => text.put(b" at the start"),
            Tie::After { train, block } => {
                text.show(b" after ", train);
                text.show(b" at ", block);
            }
        }
        text.put(b"\n");
    }
}

fn write_moved(alloc: Global, text: &mut Text, line: &[u8], reading: &mut Reading, plan: Plan) {
    let mut plan = plan;
    let tie = tie_of(word(line, 2));
    match moved_last(alloc, &plan.placed, signed_number(word(line, 1)), tie) {
        Ok(placed) => {
            plan.placed = placed;
            write_taken(text, reading, &Answer::Ordered(plan));
        }
        Err(_) => text.lose(),
    }
}

fn write_taken(text: &mut Text, reading: &mut Reading, answer: &Answer) {
    if is_answer(reading.whole(), answer) {
        text.put_line(b"the answer");
    } else {
        text.put_line(b"not the answer");
    }
}

// The trains, of which the last one enters at the moment, with the tie.
fn moved_last(
    alloc: Global,
    placed: &PlacedList,
    entry: i64,
    tie: Tie,
) -> Result<PlacedList, OutOfMemory> {
    let count = placed.len();
    let mut moved = PlacedList::with_capacity(alloc, count)?;
    for i in 0..count {
        let mut one = placed.get(i);
        if i + 1 == count {
            one.entry = entry;
            one.tie = tie;
        }
        moved.push(&one)?;
    }
    Ok(moved)
}

fn tie_of(word: &[u8]) -> Tie {
    if word == b"start".as_slice() {
        return Tie::Start;
    }
    Tie::After {
        train: small_number(piece_at(word, b':', 0)),
        block: small_number(piece_at(word, b':', 1)),
    }
}
