//! Where the trains of a section meet in the given timetable.
use plan_model::Cut;
use rail_model::OutOfMemory;
use std::alloc::Global;

// The places of a cut that two members use at one time, in their order.
pub(crate) fn clashing_places(alloc: Global, cut: &Cut) -> Result<Vec<usize>, OutOfMemory> {
    let mut uses = uses_by_place(alloc, cut)?;
    let mut places = Vec::new(alloc);
    for place in 0..uses.len() {
        if overlap(&mut uses[place])? {
            places.push(place)?;
        }
    }
    Ok(places)
}

// The starts and ends of the uses of each place: where trains are named in the order of their times,
// each list is in order already.
fn uses_by_place(alloc: Global, cut: &Cut) -> Result<Vec<Vec<(i64, i64)>>, OutOfMemory> {
    let mut by_place: Vec<Vec<(i64, i64)>> = Vec::new(alloc);
    let blocks = cut.section.blocks.len();
    for _ in 0..blocks.saturating_add(cut.connections.len()) {
        by_place.push(Vec::new(alloc))?;
    }
    for row in cut.rows.slice() {
        for one in row.uses.slice() {
            let place = one.block as usize;
            if place < by_place.len() {
                by_place[place].push((one.start, one.end))?;
            }
        }
    }
    Ok(by_place)
}

// Whether one of these uses starts before an earlier one ends. It puts them in order.
fn overlap(uses: &mut Vec<(i64, i64)>) -> Result<bool, OutOfMemory> {
    uses.sort()?;
    let mut until = i64::MIN;
    for (start, end) in uses.iter() {
        if *start < until {
            return Ok(true);
        }
        until = until.max(*end);
    }
    Ok(false)
}
