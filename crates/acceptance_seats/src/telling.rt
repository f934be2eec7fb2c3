//! What is told of an answer.
use plan_model::{Answer, Link, Placed, Plan, Reading, Tie};
use rail_model::Name;
use small_lines::Text;

// How much is told of an answer.
#[derive(Clone, Copy)]
pub(crate) enum Telling {
    // The number of the reading and the stamps of its rows, the trains' entries and their
    // occupancy, where the reading took at most so many uses.
    Brief { most: u64 },
    // All names and numbers that depend on the rows of the cut.
    Whole,
}

// Tells of the answer of a reading.
pub(crate) fn tell(text: &mut Text, reading: &Reading, answer: &Answer, telling: Telling) {
    match telling {
        Telling::Brief { most } if reading.taken() > most => text.put(b"too many uses"),
        Telling::Brief { .. } => tell_reading(text, reading, answer),
        Telling::Whole => tell_answer(text, answer),
    }
}

fn tell_reading(text: &mut Text, reading: &Reading, answer: &Answer) {
    text.show(b"", reading.at());
    for i in 0..reading.count() {
        text.show(b",", reading.stamp(i));
    }
    if let Answer::Ordered(plan) = answer {
        for i in 0..plan.placed.len() {
            tell_entry(text, &plan.placed.get(i));
        }
        text.show(b"; ", plan.occupancy);
    }
}

fn tell_entry(text: &mut Text, placed: &Placed) {
    text.put(b"; ");
    text.put(placed.train.bytes());
    text.show(b",", placed.entry);
    match placed.tie {
        Tie::Start => text.put(b",start"),
        Tie::After { .. } => text.put(b",after"),
    }
}

// Tells of an answer all names and numbers that depend on the rows of the cut.
pub(crate) fn tell_answer(text: &mut Text, answer: &Answer) {
    match answer {
        Answer::Ordered(plan) => tell_plan(text, plan),
        Answer::Opposite {
            first,
            second,
            block1,
            block2,
        } => {
            text.put(b"opposite");
            tell_names(text, first, second);
            tell_names(text, block1, block2);
        }
        Answer::Ring(links) => tell_links(text, links.slice()),
        Answer::Crowded { count } => text.show(b"crowded ", *count),
    }
}

fn tell_links(text: &mut Text, links: &[Link]) {
    text.put(b"ring");
    for link in links {
        tell_names(text, &link.train, &link.block);
    }
}

fn tell_names(text: &mut Text, first: &Name, second: &Name) {
    text.put(b" ");
    text.put(first.bytes());
    text.put(b" ");
    text.put(second.bytes())
}

fn tell_plan(text: &mut Text, plan: &Plan) {
    text.show(b"ordered ", plan.from_s);
    text.show(b" ", plan.occupancy);
    text.show(b" ", plan.busiest.unwrap_or(99));
    text.show(b" ", plan.critical.unwrap_or(99));
    for i in 0..plan.placed.len() {
        tell_placed(text, &plan.placed.get(i));
    }
}

fn tell_placed(text: &mut Text, placed: &Placed) {
    text.put(b"; ");
    text.put(placed.train.bytes());
    text.show(b" ", placed.planned);
    text.show(b" ", placed.entry);
    match placed.tie {
        Tie::Start => text.put(b" start"),
        Tie::After { train, block } => {
            text.show(b" ", train);
            text.show(b" ", block);
        }
    }
}
