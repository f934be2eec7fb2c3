//! A thread's access to a desk.
ghost use Rattle.std.specs.Prelude.{◌≡◌, ◌<◌, All, Contains};
ghost use Rattle.turn_desk.specs.Seats.{known, IsPass};

use crate::Kept;
use crate::steps::TableSeat;
use std::marker::Model;

/// A pass is a thread's access to a desk. Contracts see what it knows: its desk, its number, its
/// numbers, which are its own and those of the passes that have left into it, the prefix of the
/// desk's journal that it has seen, whether it holds the turn, and counts of its tries and its
/// steps, with the words that the last of them found and left.
pub struct Pass<V: Kept> {
    pub(crate) seat: TableSeat<V>,
    pub(crate) number: u32,
}

impl<V: Kept> Model for Pass<V> {
    ghost use Rattle.turn_desk.specs.Known.{Known};
    ghost use Rattle.turn_desk.specs.Seats.{known, IsPass};

    ghost Value = { Known V.Entry };

    ghost view = { λ p. known p.seat };

    ghost invariant = { λ p. IsPass V.issued_by V.is_legal p.seat.me p.number };
}

impl<V: Kept> Pass<V> {
    /// The pass's own number, which no call changes. It is one of its numbers, and each of them is
    /// issued in what it has seen, which is legal.
    pub fn number(&self) -> u32
        ensures number { result ≡ self.now.number }
        ensures own { Contains self.now.numbers result }
        ensures issued { All (λ n. n < V.issued_by self.now.seen) self.now.numbers }
        ensures below { result < V.issued_by self.now.seen }
        ensures legal { V.is_legal self.now.seen }
    {
        self.number
    }

    pub(crate) fn into_seat(self) -> TableSeat<V>
        ensures known { known result ≡ self }
        ensures pass { IsPass V.issued_by V.is_legal result.me self.number }
    {
        let Pass { seat, number: _ } = self;
        seat
    }
}

impl<V: Kept> Drop for Pass<V> {
    fn drop(self) {
        let Pass { seat: _, number: _ } = self;
    }
}
