//! Uses at the places of some and with the times of others: those of a row of which only times
//! change.
ghost use Rattle.std.specs.Prelude.{◌≡◌, IfOk};
ghost use Rattle.section_cut.specs.Times as times_of;

use plan_model::SharedUses;
use rail_model::{OutOfMemory, Use};
use std::alloc::Global;

// The uses of these places with these times.
pub(crate) fn with_times(
    alloc: Global,
    places: &[Use],
    times: &[Use],
) -> Result<SharedUses, OutOfMemory>
    ensures { IfOk result (λ uses. uses ≡ times_of.with_times places.now times.now) }
{
    let mut uses = Vec::with_capacity(alloc, places.len())?;
    for (place, time) in places.iter().zip(times) {
        uses.push_reserved(Use {
            block: place.block,
            ..*time
        });
    }
    Ok(SharedUses::of(uses))
}
