//! The places at which the fields of rows are cut.
ghost use Rattle.std.specs.Prelude.{◌≡◌, ◌++◌, ◌∷◌, ◌<◌, ◌^◌, [], IfOk, OnOk};

use crate::fields::GREATEST_PLACE;
use rail_model::OutOfMemory;
use std::alloc::Global;

// Where fields are cut, one row after the other, and how many places there are up to the end of
// each row.
#[derive(Drop)]
pub(crate) struct Places {
    pub(crate) cuts: Vec<u32>,
    pub(crate) ends: Vec<u32>,
}

// No places, and as much room as is enough for a text where no field is empty, and where rows have
// sixteen bytes each: a row has a place more than fields. It isn't counted: that takes longer than
// to let it grow where it is too little, and what isn't written to takes no page.
pub(crate) fn places_for(alloc: Global, text: &[u8]) -> Result<Places, OutOfMemory>
    ensures cuts { IfOk result (λ places. places.cuts.items ≡ []) }
    ensures ends { IfOk result (λ places. places.ends.items ≡ []) }
{
    let rows = text.len() / 16 + 1;
    Ok(Places {
        cuts: Vec::with_capacity(alloc, text.len() / 2 + 1 + rows)?,
        ends: Vec::with_capacity(alloc, rows)?,
    })
}

// Puts a place after the others. A place that is too great finds no memory.
pub(crate) fn push_place(places: &mut Vec<u32>, place: usize) -> Result<(), OutOfMemory>
    ensures ok { OnOk result (places.new.items ≡ places.old.items ++ place ∷ []) }
    ensures small { OnOk result (place < 2 ^ 32) }
{
    if place > GREATEST_PLACE {
        return Err(OutOfMemory);
    }
    places.push(place as u32)?;
    Ok(())
}
