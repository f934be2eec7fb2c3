//! How many copies of a train follow all planned trains.
use crate::answers::put_kind;
use path_fill::{Fill, fill};
use plan_model::{Reading, Rows};
use small_lines::Text;
use std::alloc::Global;

// How many copies of the train at a position fit into a reading's section, with the occupancy time
// that they make, and that of one more.
pub(crate) fn write_fill(alloc: Global, text: &mut Text, reading: &mut Reading, train: u32) {
    if train >= reading.count() {
        return text.put_line(b"no train");
    }
    match fill(alloc, reading, train) {
        Ok(Ok(found)) => put_fill(text, &found),
        Ok(Err(answer)) => put_kind(text, &answer),
        Err(_) => text.lose(),
    }
    text.put(b"\n");
}

fn put_fill(text: &mut Text, found: &Fill) {
    match found {
        Fill::Over { occupancy } => text.show(b"no copy, occupancy ", *occupancy),
        Fill::Fits {
            copies,
            occupancy,
            next,
        } => {
            text.show(b"copies ", *copies);
            text.show(b", occupancy ", *occupancy);
            text.show(b", with one more ", *next);
        }
    }
}
