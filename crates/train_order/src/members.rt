//! Lists of members that take no memory.
ghost use Rattle.std.specs.Prelude.{◌≡◌, ◌-◌, ◌<◌, ◌≤◌, ◌++◌, [], ◌∷◌, drop, take, reverse, length};

use plan_model::MEMBERS;
use std::marker::Model;

// At most `MEMBERS` positions of members, in order. Contracts see the list of them.
#[derive(Drop)]
pub(crate) struct Members {
    members: [u32; MEMBERS],
    count: usize,
}

impl Model for Members {
    ghost use Rattle.std.specs.Prelude.{ℕ, ◌≤◌, List, take};
    ghost use Rattle.std.specs.Coded.{coded_list, coded_ℕ};
    ghost use Rattle.plan_model.specs.declared.limits.TheConstants.{MEMBERS};

    ghost Value = { List ℕ };

    ghost coded = { coded_list coded_ℕ };

    ghost view = { λ l. take l.count l.members };

    ghost invariant = { λ l. l.count ≤ MEMBERS };
}

impl Members {
    // An empty list.
    pub(crate) fn new() -> Self
        ensures { result ≡ [] }
    {
        Members {
            members: [0; MEMBERS],
            count: 0,
        }
    }

    // A list with the members of a slice, of which there are at most `MEMBERS`.
    pub(crate) fn of(slice: &[u32]) -> Self
        requires { length slice.now ≤ MEMBERS }
        ensures { result ≡ slice.now }
    {
        let mut members = [0; MEMBERS];
        members[..slice.len()].copy_from_slice(slice);
        Members {
            members,
            count: slice.len(),
        }
    }

    // How many members there are.
    pub(crate) fn len(&self) -> usize
        ensures { result ≡ length self.now }
    {
        self.count
    }

    // Puts a member at the end.
    pub(crate) fn push(&mut self, member: u32)
        requires { length self.old < MEMBERS }
        ensures { self.new ≡ self.old ++ member ∷ [] }
    {
        self.members[self.count] = member;
        self.count += 1;
    }

    // Takes out the last member.
    pub(crate) fn pop(&mut self)
        requires { 0 < length self.old }
        ensures { self.new ≡ take (length self.old - 1) self.old }
    {
        self.count -= 1;
    }

    // Takes out all members.
    pub(crate) fn clear(&mut self)
        ensures { self.new ≡ [] }
    {
        self.count = 0;
    }

    // Turns the list round.
    pub(crate) fn reverse(&mut self)
        ensures { self.new ≡ reverse self.old }
    {
        self.members[..self.count].reverse();
    }

    // Moves the members that stand before a position behind all others.
    pub(crate) fn rotate_left(&mut self, place: usize)
        requires { place ≤ length self.old }
        ensures { self.new ≡ drop place self.old ++ take place self.old }
    {
        self.members[..self.count].rotate_left(place);
    }

    // The members as a slice.
    pub(crate) fn slice(&self) -> &[u32]
        ensures { result.now ≡ self.now }
    {
        &self.members[..self.count]
    }
}
