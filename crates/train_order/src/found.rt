//! What is found: an order, or disorder.
ghost use Rattle.std.specs.Prelude.{◌≡◌};

use crate::members::Members;
use rail_model::List;
use std::marker::Model;

/// The trains of a cut in an order in which each comes after those that precede it at some place.
#[derive(Drop)]
pub struct Order {
    /// The positions of the cut's rows: each once.
    pub positions: List<u32>,
}

/// Which members of a cut have no order.
#[derive(Drop)]
pub enum Disordered {
    /// The positions of two members, each of which precedes the other at some place: the least such
    /// pair, the lesser first.
    Opposite(u32, u32),
    /// Members of which each precedes the next, and the last the first.
    Ring(RingMembers),
}

/// The positions of a ring's members in the direction of precedence, from the least on. Contracts
/// see the list of them.
#[derive(Drop)]
pub struct RingMembers {
    members: Members,
}

impl Model for RingMembers {
    ghost use Rattle.std.specs.Prelude.{ℕ, List};
    ghost use Rattle.std.specs.Coded.{coded_list, coded_ℕ};

    ghost Value = { List ℕ };

    ghost coded = { coded_list coded_ℕ };

    ghost view = { λ r. r.members };
}

impl RingMembers {
    // A ring of these members.
    pub(crate) fn new(members: Members) -> Self
        ensures { result ≡ members }
    {
        RingMembers { members }
    }

    /// The members as a slice.
    pub fn slice(&self) -> &[u32]
        ensures { result.now ≡ self.now }
    {
        self.members.slice()
    }
}
