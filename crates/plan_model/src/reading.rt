//! A reading of a cut.
ghost use Rattle.std.specs.Prelude.{◌≡◌, ◌<◌, length};
ghost use Rattle.std.specs.Borrow.{sem};

use crate::{Cut, CutRow, Rows, SharedCut};
use rail_model::{List, Name, Section, Use};
use std::marker::Model;

/// A sound cut that is read, with the number of the last edit before it was read. It counts the
/// uses that are taken of it, up to 2^64 - 1. The cut is the reading's own, or one that is shared
/// with others, who can't change it meanwhile.
#[derive(Drop)]
pub struct Reading {
    held: HeldCut,
    at: u64,
    taken: u64,
}

// How a reading holds its cut.
#[derive(Drop)]
pub(crate) enum HeldCut {
    Own(Cut),
    Shared(SharedCut),
}

impl HeldCut {
    ghost use Rattle.plan_model.specs.Reading.{held_cut};

    // The cut.
    pub(crate) fn cut(&self) -> &Cut
        ensures { result.now ≡ held_cut self.now }
    {
        match self {
            HeldCut::Own(cut) => cut,
            HeldCut::Shared(cut) => cut.cut(),
        }
    }
}

impl Model for Reading {
    ghost use Rattle.plan_model.specs.Cut.{IsSoundCut};
    ghost use Rattle.plan_model.specs.Reading.{Shown, held_cut};

    ghost Value = { Shown };

    ghost view = { λ r. record { cut = held_cut r.held; at = r.at; taken = r.taken } };

    ghost invariant = { λ r. IsSoundCut (held_cut r.held) };
}

impl Reading {
    ghost use Rattle.plan_model.specs.Cut.{IsSoundCut};
    ghost use Rattle.plan_model.specs.Members.{member, member_count};
    ghost use Rattle.plan_model.specs.Reading.{Takes, uses_of, use_count};
    ghost use Rattle.plan_model.specs.contracts.reading.Reading.{the_row};

    /// A reading of this cut, of which nothing is taken.
    pub fn new(cut: Cut, at: u64) -> Reading
        requires { IsSoundCut cut }
        ensures { result ≡ record { cut = cut; at = at; taken = 0 } }
    {
        Reading {
            held: HeldCut::Own(cut),
            at,
            taken: 0,
        }
    }

    /// A reading of a cut that others share, of which nothing is taken.
    pub fn shared(cut: SharedCut, at: u64) -> Reading
        ensures { result ≡ record { cut = cut; at = at; taken = 0 } }
    {
        let _sound = cut.cut();
        Reading {
            held: HeldCut::Shared(cut),
            at,
            taken: 0,
        }
    }

    /// The cut's section.
    pub fn section(&self) -> &Section
        ensures { result.now ≡ self.now.cut.section }
    {
        &self.held.cut().section
    }

    /// The names of the cut's connections.
    pub fn connections(&self) -> &List<Name>
        ensures { result.now ≡ self.now.cut.connections }
    {
        &self.held.cut().connections
    }

    /// The number of the last edit before the cut was read.
    pub fn at(&self) -> u64
        ensures { result ≡ self.now.at }
    {
        self.at
    }

    /// How many uses were taken.
    pub fn taken(&self) -> u64
        ensures { result ≡ self.now.taken }
    {
        self.taken
    }

    /// How many rows there are.
    pub fn count(&self) -> u32
        ensures count { result ≡ member_count self.now.cut }
        ensures sound { IsSoundCut self.now.cut }
    {
        self.held.cut().rows.len() as u32
    }

    /// The name of row `i`.
    pub fn name(&self, i: u32) -> Name
        requires { i < member_count self.now.cut }
        ensures { result ≡ (member self.now.cut i).name }
    {
        self.held.cut().rows.slice()[i as usize].name
    }

    /// The stamp of row `i`.
    pub fn stamp(&self, i: u32) -> u64
        requires { i < member_count self.now.cut }
        ensures { result ≡ (member self.now.cut i).stamp }
    {
        self.held.cut().rows.slice()[i as usize].stamp
    }

    /// Takes the uses of row `i`, in their order.
    pub fn take(&mut self, i: u32) -> &[Use]
        requires { i < member_count self.old.cut }
        ensures* takes { sem 𝓛 (Takes the_row self.entry (λ r. r) self.old
            (length (uses_of self.old i))) }
        ensures uses { result.now ≡ uses_of self.old i }
    {
        self.row(i).uses.slice()
    }

    /// Takes row `i`, with its uses.
    pub fn row(&mut self, i: u32) -> &CutRow
        requires { i < member_count self.old.cut }
        ensures* takes { sem 𝓛 (Takes the_row self.entry (λ r. r) self.old
            (length (uses_of self.old i))) }
        ensures row { result.now ≡ member self.old.cut i }
    {
        let row = &self.held.cut().rows.slice()[i as usize];
        self.taken = self.taken.saturating_add(row.uses.len() as u64);
        row
    }

    /// Takes the whole cut, with the uses of all rows.
    pub fn whole(&mut self) -> &Cut
        ensures* takes { sem 𝓛 (Takes the_row self.entry (λ r. r) self.old (use_count self.old)) }
        ensures cut { result.now ≡ self.old.cut }
        ensures sound { IsSoundCut self.old.cut }
    {
        self.taken = raised_by_all(self.taken, self.held.cut().rows.slice());
        self.held.cut()
    }
}

impl Rows for Reading {
    ghost shown = { λ r. r };

    fn section(&self) -> &Section {
        self.section()
    }

    fn connections(&self) -> &List<Name> {
        self.connections()
    }

    fn at(&self) -> u64 {
        self.at()
    }

    fn taken(&self) -> u64 {
        self.taken()
    }

    fn count(&self) -> u32 {
        self.count()
    }

    fn name(&self, i: u32) -> Name {
        self.name(i)
    }

    fn stamp(&self, i: u32) -> u64 {
        self.stamp(i)
    }

    fn take(&mut self, i: u32) -> &[Use] {
        self.take(i)
    }

    fn row(&mut self, i: u32) -> &CutRow {
        self.row(i)
    }

    fn whole(&mut self) -> &Cut {
        self.whole()
    }
}

ghost use Rattle.std.specs.Prelude.{◌+◌, ◌-◌, ◌^◌, min, sum_by};

// The count of taken uses after those of all these rows, up to 2^64 - 1.
fn raised_by_all(taken: u64, rows: &[CutRow]) -> u64
    ensures { result ≡ min (taken + sum_by (λ r. length r.uses) rows.now) (2 ^ 64 - 1) }
{
    let mut count = taken;
    for row in rows {
        count = count.saturating_add(row.uses.len() as u64);
    }
    count
}
