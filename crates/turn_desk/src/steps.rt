//! The steps that a pass makes on the desk's table.
ghost use Rattle.std.specs.Prelude.{◌≡◌, ℕ, ◌<◌, true, false, [], ◌∷◌, Contains, None, MatchOption};
ghost use Rattle.turn_desk.specs.Journal.{AddsOwn};
ghost use Rattle.turn_desk.specs.Known.{AgreeOn, HaveNoCommonNumber};
ghost use Rattle.turn_desk.specs.Seats.{IsSmall, known};
ghost use Rattle.turn_desk.specs.Steps.{Finds};
ghost use Rattle.turn_desk.specs.Views.{lost, given, closing, one_fewer, newcomer, joined};

use crate::Kept;
use crate::plays::{Give, Glue, NewPass, Shut, Take, Tell};
use crate::rule::{Law, View};
use std::snapshot::Snapshot;

pub(crate) type Shared<V> = atomic_table::Shared<
    Option<V>,
    View<<V as Kept>::Entry>,
    Snapshot<V>,
    Law<V>,
>;

pub(crate) type TableSeat<V> = atomic_table::Seat<Option<V>, View<<V as Kept>::Entry>>;

// One try to take the turn, with its value.
pub(crate) fn try_turn<V: Kept>(shared: &Shared<V>, seat: &mut TableSeat<V>) -> Option<V>
    requires table { (seat.old.table_id ≡ shared.now.table_id) × IsSmall shared.now.table_id }
    requires idle { (seat.old.me.0.holds ≡ false) × (seat.old.me.1 ≡ []) }
    ensures table { seat.new.table_id ≡ seat.old.table_id }
    ensures turn { MatchOption result
        ((moment : ℕ) × (seat.new.me ≡ (lost moment seat.old.me.0, [])))
        (λ v. Finds V.entries V.pass_of V.issued_by V.is_legal v seat.old.me.0 seat.new.me.0
        × (seat.new.me.1 ≡ (0, None) ∷ [])) }
{
    if shared.compare_exchange::<Take>(seat, 0, 0, 1) != 0 {
        return None;
    }
    shared.exchange(seat, 0, None)
}

// Gives the turn back with this value, and wakes one that sleeps; he tries again, and wakes one when
// he gives it back (step `give` of the model in `bench/waits`).
pub(crate) fn give_back<V: Kept>(shared: &Shared<V>, seat: &mut TableSeat<V>, number: u32, value: V)
    requires table { (seat.old.table_id ≡ shared.now.table_id) × IsSmall shared.now.table_id }
    requires holds { (seat.old.me.0.holds ≡ true) × (seat.old.me.1 ≡ (0, None) ∷ []) }
    requires number { Contains seat.old.me.0.numbers number }
    requires own { AddsOwn V.pass_of number seat.old.me.0.seen (V.entries value) }
    requires legal { V.is_legal (V.entries value) }
    ensures table { seat.new.table_id ≡ seat.old.table_id }
    ensures given { (moment : ℕ)
        × (seat.new.me ≡ (given V.issued_by moment (V.entries value) seat.old.me.0, [])) }
{
    let left = shared.exchange(seat, 0, Some(value));
    let None = left else { unreachable!() };
    shared.store::<Give>(seat, 0, 0);
    shared.wake_one(0);
}

// Keeps the turn for ever. The empty slot goes home.
pub(crate) fn shut_down<V: Kept>(shared: &Shared<V>, seat: &mut TableSeat<V>)
    requires table { (seat.old.table_id ≡ shared.now.table_id) × IsSmall shared.now.table_id }
    requires holds { (seat.old.me.0.holds ≡ true) × (seat.old.me.1 ≡ (0, None) ∷ []) }
    ensures table { seat.new.table_id ≡ seat.old.table_id }
    ensures shut { (moment : ℕ) × (seat.new.me ≡ (closing moment seat.old.me.0, [])) }
{
    shared.store::<Shut>(seat, 0, 1);
}

// A seat for the least number that was drawn and is not given to a pass yet.
pub(crate) fn new_seat<V: Kept>(shared: &Shared<V>, seat: &mut TableSeat<V>) -> TableSeat<V>
    requires table { (seat.old.table_id ≡ shared.now.table_id) × IsSmall shared.now.table_id }
    requires drawn { 0 < seat.old.me.0.left }
    ensures table { (seat.new.table_id ≡ seat.old.table_id)
        × (result.table_id ≡ seat.old.table_id) }
    ensures fewer { seat.new.me ≡ (one_fewer seat.old.me.0, seat.old.me.1) }
    ensures new { result.me ≡ (newcomer seat.old.me.0, []) }
{
    shared.split_seat::<NewPass>(seat)
}

// One seat with what both have seen, and what is thereby known of both.
pub(crate) fn join_one<V: Kept>(shared: &Shared<V>, seat: &mut TableSeat<V>, other: TableSeat<V>)
    requires table { (seat.old.table_id ≡ shared.now.table_id)
        × (other.table_id ≡ shared.now.table_id) × IsSmall shared.now.table_id }
    requires idle { (seat.old.me.0.holds ≡ false) × (other.me.0.holds ≡ false) × (other.me.1 ≡ []) }
    ensures table { seat.new.table_id ≡ seat.old.table_id }
    ensures joined { seat.new.me ≡ (joined seat.old.me.0 other.me.0, seat.old.me.1) }
    ensures agree { AgreeOn V.pass_of (known seat.old) (known other) }
    ensures apart { HaveNoCommonNumber (known seat.old) (known other) }
{
    shared.join_seat::<Glue>(seat, other);
    shared.load::<Tell>(seat, 0);
}
