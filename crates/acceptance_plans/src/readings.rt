//! Readings of a cut, and copies of cuts and answers.
use compression::answer;
use plan_model::{Answer, Cut, CutRow, Reading, Rows};
use rail_model::{Name, Use};
use small_lines::Text;
use std::alloc::Global;

// The end of a reading's window and its connections. Its first row is taken, if it has this name,
// then the whole cut.
pub(crate) fn write_reading(text: &mut Text, reading: &mut Reading, name: &[u8]) {
    text.show(b"window until ", reading.section().to_s);
    text.show(b", connections ", reading.connections().len());
    text.put(b"\n");
    match Name::read(name) {
        Ok(name) => write_taken(text, reading, &name),
        Err(_) => text.put_line(b"no name"),
    }
}

// The number of the reading, the stamp of the first row and how many uses it gave, the count of
// taken uses, how many rows the cut has, and the count again; nothing where the first row isn't
// that of this name.
fn write_taken<R: Rows>(text: &mut Text, reading: &mut R, name: &Name) {
    if reading.count() == 0 || reading.name(0) != *name {
        return text.put_line(b"another row");
    }
    text.show(b"number ", reading.at());
    text.show(b", stamp ", reading.stamp(0));
    text.show(b", uses ", reading.take(0).len());
    text.show(b", taken ", reading.taken());
    text.show(b", rows ", reading.whole().rows.len());
    text.show(b", taken ", reading.taken());
    text.put(b"\n");
}

// Copies of a reading's cut, and of its answer.
pub(crate) fn write_copies(alloc: Global, text: &mut Text, reading: &mut Reading) {
    match reading.whole().copy(alloc) {
        Ok(copy) => {
            put_size(text, &copy);
            put_longer(alloc, text, copy);
        }
        Err(_) => text.lose(),
    }
    match answer(alloc, reading) {
        Ok(answer) => write_copy(alloc, text, &answer),
        Err(_) => text.lose(),
    }
}

fn put_size(text: &mut Text, cut: &Cut) {
    text.show(b"cut: blocks ", cut.section.blocks.len());
    text.show(b", rows ", cut.rows.len());
    text.put(b"\n");
}

// How many uses the last row has after one more is put to it, and another row that shared them.
fn put_longer(alloc: Global, text: &mut Text, cut: Cut) {
    let mut rows = cut.rows;
    let Some(row) = rows.pop() else {
        return;
    };
    let mut row = row;
    row.uses.make_shared(alloc);
    let one = Use {
        block: 0,
        start: 0,
        end: 1,
    };
    match row.copy() {
        Ok(other) => match row.uses.push(one) {
            Ok(()) => put_lengths(text, &row, &other),
            Err(_) => text.lose(),
        },
        Err(_) => text.lose(),
    }
}

fn put_lengths(text: &mut Text, row: &CutRow, other: &CutRow) {
    text.show(b"uses ", row.uses.len());
    text.show(b" beside ", other.uses.len());
    text.put(b"\n");
}

fn write_copy(alloc: Global, text: &mut Text, answer: &Answer) {
    match answer.copy(alloc) {
        Ok(copy) => put_kind(text, &copy),
        Err(_) => text.lose(),
    }
}

// What an answer speaks of, with the number of its trains or links.
fn put_kind(text: &mut Text, answer: &Answer) {
    match answer {
        Answer::Ordered(plan) => text.show(b"answer: ordered ", plan.placed.len()),
        Answer::Opposite { .. } => text.put(b"answer: opposite 2"),
        Answer::Ring(links) => text.show(b"answer: ring ", links.len()),
        Answer::Crowded { count } => text.show(b"answer: crowded ", *count),
    }
    text.put(b"\n");
}
