//! Numbers that a pass draws in its turn, and the new passes that get them.
ghost use Rattle.std.specs.Prelude.{◌≡◌, ℕ, ◌+◌, ◌<◌, ◌≤◌, true, MatchResult, IfOk};
ghost use Rattle.turn_desk.specs.Entering.{Issues, HasDrawn};
ghost use Rattle.turn_desk.specs.Known.{new_passes, without_turn};
ghost use Rattle.turn_desk.specs.Seats.{IsSmall, IsPass, known};
ghost use Rattle.turn_desk.specs.Views.{with_drawn};

use crate::kept::learn_legal;
use crate::steps::{Shared, TableSeat, give_back, new_seat};
use crate::{Kept, MOST_PASSES, Pass};
use rail_model::{List, OutOfMemory};
use std::alloc::Global;

// Makes this many entries that carry `by`, one after the other.
pub(crate) fn enter_all<V: Kept>(value: &mut V, by: u32, count: u32) -> Result<(), OutOfMemory>
    requires issued { by < V.issued_by (V.entries value.old) }
    requires room { V.issued_by (V.entries value.old) + count ≤ MOST_PASSES }
    ensures { MatchResult result
        (λ _. Issues V.pass_of V.issued_by by count (V.entries value.old) (V.entries value.new))
        (λ _. (made : ℕ) × (made ≤ count)
        × Issues V.pass_of V.issued_by by made (V.entries value.old) (V.entries value.new)) }
{
    for _made in 0..count {
        value.enter(by)?;
    }
    Ok(())
}

// The passes of the numbers that were drawn in the last turn, from the first on.
pub(crate) fn make_passes<V: Kept>(
    alloc: Global,
    shared: &Shared<V>,
    seat: &mut TableSeat<V>,
    first: u32,
    count: u32,
) -> Result<List<Pass<V>>, OutOfMemory>
    requires table { (seat.old.table_id ≡ shared.now.table_id) × IsSmall shared.now.table_id }
    requires drawn { (seat.old.me.0.drawn ≡ first) × (seat.old.me.0.left ≡ count) }
    requires room { first + count ≤ MOST_PASSES }
    requires issued { first + count ≤ V.issued_by seat.old.me.0.seen }
    requires legal { V.is_legal seat.old.me.0.seen }
    ensures table { seat.new.table_id ≡ seat.old.table_id }
    ensures seat { (drawn left : ℕ)
        × (seat.new.me ≡ (with_drawn drawn left seat.old.me.0, seat.old.me.1)) }
    ensures passes { IfOk result
        (λ l. l ≡ new_passes seat.old.table_id seat.old.me.0.seen first count) }
{
    let mut passes = List::new(alloc);
    for i in 0..count {
        let seat = new_seat(shared, seat);
        passes.push(Pass {
            seat,
            number: first + i,
        })?;
    }
    Ok(passes)
}

// Makes this many entries, gives the turn back, and gives a new pass for each number that was
// issued.
pub(crate) fn draw_all<V: Kept>(
    alloc: Global,
    shared: &Shared<V>,
    seat: &mut TableSeat<V>,
    number: u32,
    value: V,
    count: u32,
) -> Result<List<Pass<V>>, OutOfMemory>
    requires table { (seat.old.table_id ≡ shared.now.table_id) × IsSmall shared.now.table_id }
    requires pass { IsPass V.issued_by V.is_legal seat.old.me number }
    requires holds { seat.old.me.0.holds ≡ true }
    requires found { seat.old.me.0.seen ≡ V.entries value }
    requires room { V.issued_by (V.entries value) + count ≤ MOST_PASSES }
    ensures pass { IsPass V.issued_by V.is_legal seat.new.me number }
    ensures given { known seat.new ≡ without_turn (known seat.old) seat.new.me.0.seen }
    ensures drawn { HasDrawn V.pass_of V.issued_by (known seat.old) (known seat.new) count result }
{
    let mut value = value;
    let first = value.issued();
    let entered = enter_all(&mut value, number, count);
    learn_legal(&value);
    give_back(shared, seat, number, value);
    entered?;
    make_passes(alloc, shared, seat, first, count)
}
