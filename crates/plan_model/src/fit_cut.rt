//! A cut that carries its facts.
ghost use Rattle.std.specs.Prelude.{◌≡◌, ◌<◌, ◌≤◌, ◌==◌, ◌↔◌, IfOk, IfSome, All, IsTrue, find, ◌-ℤ◌, ◌+ℤ◌};
ghost use Rattle.plan_model.specs.declared.limits.TheConstants.{MEMBERS};
ghost use Rattle.rail_model.specs.declared.limits.TheConstants.{RUNS, PATH_HOPS};
ghost use Rattle.plan_model.specs.Cut.{IsSoundCut, IsSoundUse, IsMoment, IsBounded, IsUsable, AreOfOtherPlaces, AreBlocksFirst};
ghost use Rattle.plan_model.specs.Members as members;
ghost use Rattle.plan_model.specs.Schedule as schedule;

use crate::{Cut, CutRow};
use rail_model::{Name, Names, OutOfMemory, Use};
use std::alloc::Global;
use std::marker::Model;

/// A cut that is known to be sound: its names differ, its rows stand in the order of their names,
/// each use is of a place of the cut, and all moments are within the limit. What is known goes with
/// the type, so a call that takes one asks for no more.
#[derive(Drop)]
pub struct SoundCut<'a> {
    cut: &'a Cut,
}

impl<'a> Model for SoundCut<'a> {
    ghost use Rattle.plan_model.specs.declared.cut.Cut.{Cut};

    ghost Value = { Cut };

    ghost use Rattle.plan_model.specs.Cut.{IsSoundCut};

    ghost view = { λ s. s.cut.now };

    ghost invariant = { λ s. IsSoundCut s.cut.now };
}

impl<'a> SoundCut<'a> {
    /// This cut.
    pub fn of(cut: &'a Cut) -> SoundCut<'a>
        requires { IsSoundCut cut.now }
        ensures { result ≡ cut.now }
    {
        SoundCut { cut }
    }

    /// The cut itself.
    pub fn cut(&self) -> &'a Cut
        ensures cut { result.now ≡ self.now }
        ensures sound { IsSoundCut self.now }
    {
        self.cut
    }

    /// How many members there are.
    pub fn member_count(&self) -> u32
        ensures count { result ≡ members.member_count self.now }
        ensures most { result ≤ RUNS }
        ensures sound { IsSoundCut self.now }
    {
        self.cut.rows.len() as u32
    }

    /// How many places are blocks: the first ones.
    pub fn block_count(&self) -> u32
        ensures count { result ≡ members.block_count self.now }
        ensures most { result ≤ PATH_HOPS }
    {
        self.cut.section.blocks.len() as u32
    }

    /// How many places there are.
    pub fn place_count(&self) -> u32
        ensures { result ≡ members.place_count self.now }
    {
        (self.cut.section.blocks.len() + self.cut.connections.len()) as u32
    }

    /// The window's start: seconds from the timetable's origin.
    pub fn window_start(&self) -> i64
        ensures start { result ≡ schedule.window_start self.now }
        ensures moment { IsMoment result }
    {
        i64::from(self.cut.section.from_s)
    }

    /// The rows, in the order of their names.
    pub fn rows(&self) -> &'a [CutRow]
        ensures rows { result.now ≡ self.now.rows }
        ensures sound { IsSoundCut self.now }
        ensures usable { All (IsUsable (members.place_count self.now)) result.now }
    {
        self.cut.rows.slice()
    }

    /// The row at a position.
    pub fn row(&self, i: u32) -> &'a CutRow
        requires { i < members.member_count self.now }
        ensures row { result.now ≡ members.member self.now i }
        ensures sound { IsSoundCut self.now }
        ensures usable { IsUsable (members.place_count self.now) result.now }
    {
        &self.rows()[i as usize]
    }

    /// The name of a place: of a block or of a connection.
    pub fn place_name(&self, place: u32) -> &'a Name
        requires { place < members.place_count self.now }
        ensures { result.now ≡ members.place_name self.now place }
    {
        let blocks = self.cut.section.blocks.slice();
        let place = place as usize;
        if place < blocks.len() {
            &blocks[place]
        } else {
            &self.cut.connections.slice()[place - blocks.len()]
        }
    }

    /// The names of all places.
    pub fn place_names(&self, alloc: Global) -> Result<Names, OutOfMemory>
        ensures { IfOk result (λ names. names ≡ members.place_names self.now) }
    {
        let count = self.place_count();
        let mut names = Names::with_capacity(alloc, count as usize)?;
        for place in 0..count {
            names.push(self.place_name(place))?;
        }
        names.shrink_to_fit();
        Ok(names)
    }

    /// Whether these are the names of all places, in their order.
    pub fn are_places(&self, names: &Names) -> bool
        ensures { IsTrue result ↔ (names.now ≡ members.place_names self.now) }
    {
        if names.len() != self.place_count() as usize {
            return false;
        }
        for place in 0..self.place_count() {
            if names.bytes(place as usize) != self.place_name(place).bytes() {
                return false;
            }
        }
        true
    }

    /// The use of a place by the member at a position, if it uses it.
    pub fn use_at(&self, i: u32, place: u32) -> Option<Use>
        requires { i < members.member_count self.now }
        ensures is { result ≡ members.use_of (members.member self.now i) place }
        ensures sound { IfSome result (IsSoundUse self.now) }
    {
        use_in(self.row(i), self.block_count(), place)
    }

    /// When a member that enters at a moment starts its use of a place.
    pub fn start_at(&self, i: u32, entry: i64, place: u32) -> i64
        requires there { i < members.member_count self.now }
        requires bounded { IsBounded entry }
        requires uses { IsTrue (members.uses_place (members.member self.now i) place) }
        ensures { result ≡ schedule.start_at (members.member self.now i) entry place }
    {
        shift(self.used(i, place).start, self.row(i).entry, entry)
    }

    /// When a member that enters at a moment ends its use of a place.
    pub fn end_at(&self, i: u32, entry: i64, place: u32) -> i64
        requires there { i < members.member_count self.now }
        requires bounded { IsBounded entry }
        requires uses { IsTrue (members.uses_place (members.member self.now i) place) }
        ensures { result ≡ schedule.end_at (members.member self.now i) entry place }
    {
        shift(self.used(i, place).end, self.row(i).entry, entry)
    }

    /// The use of a place by a member that uses it.
    pub fn used(&self, i: u32, place: u32) -> Use
        requires there { i < members.member_count self.now }
        requires uses { IsTrue (members.uses_place (members.member self.now i) place) }
        ensures is { result ≡ members.use_at (members.member self.now i) place }
        ensures sound { IsSoundUse self.now result }
    {
        self.use_at(i, place).unwrap()
    }

    /// Whether one member precedes another at a place.
    pub fn precedes(&self, i: u32, j: u32, place: u32) -> bool
        requires one { i < members.member_count self.now }
        requires other { j < members.member_count self.now }
        ensures { result
            ≡ members.precedes (members.member self.now i) (members.member self.now j) place }
    {
        match (self.use_at(i, place), self.use_at(j, place)) {
            (Some(one), Some(other)) => {
                let (first, second) = (&self.row(i).name, &self.row(j).name);
                comes_before(one.start, first, other.start, second)
            }
            _ => false,
        }
    }

    /// Whether a member and one of its places come before another pair of them, by name.
    pub fn comes_first(&self, a: (u32, u32), b: (u32, u32)) -> bool
        requires first { a.1 < members.place_count self.now }
        requires second { b.1 < members.place_count self.now }
        ensures { result ≡ members.comes_first self.now a b }
    {
        a.0 < b.0 || a.0 == b.0 && self.place_name(a.1) < self.place_name(b.1)
    }

    /// Whether the name of a place comes before that of the best so far, or there is none so far.
    pub fn leads(&self, best: Option<u32>, place: u32) -> bool
        requires there { place < members.place_count self.now }
        requires best { IfSome best (λ b. b < members.place_count self.now) }
        ensures { result ≡ members.leads self.now best place }
    {
        match best {
            Some(best) => self.place_name(place) < self.place_name(best),
            None => true,
        }
    }

    /// The first by name of the best so far and of one place more.
    pub fn first_with(&self, best: Option<u32>, place: u32) -> Option<u32>
        requires there { place < members.place_count self.now }
        requires best { IfSome best (λ b. b < members.place_count self.now) }
        ensures first { result ≡ members.first_with self.now best place }
        ensures there { IfSome result (λ b. b < members.place_count self.now) }
    {
        if self.leads(best, place) {
            Some(place)
        } else {
            best
        }
    }
}

/// A sound cut with no more members than are compressed: at most `MEMBERS`.
#[derive(Drop)]
pub struct FitCut<'a> {
    sound: SoundCut<'a>,
}

impl<'a> Model for FitCut<'a> {
    ghost use Rattle.std.specs.Prelude.{◌≤◌};
    ghost use Rattle.plan_model.specs.declared.cut.Cut.{Cut};

    ghost Value = { Cut };

    ghost use Rattle.plan_model.specs.declared.limits.TheConstants.{MEMBERS};
    ghost use Rattle.plan_model.specs.Members.{member_count};
    ghost use Rattle.plan_model.specs.Cut.{IsSoundCut};

    ghost view = { λ f. f.sound };

    ghost invariant = { λ f. IsSoundCut f.sound × (member_count f.sound ≤ MEMBERS) };
}

impl<'a> FitCut<'a> {
    /// This cut.
    pub fn of(cut: &'a Cut) -> FitCut<'a>
        requires sound { IsSoundCut cut.now }
        requires few { members.member_count cut.now ≤ MEMBERS }
        ensures { result ≡ cut.now }
    {
        FitCut {
            sound: SoundCut::of(cut),
        }
    }

    /// The cut without the bound on its members, for calls that take any sound cut.
    pub fn sound(&self) -> &SoundCut<'a>
        ensures cut { result.now ≡ self.now }
        ensures few { members.member_count self.now ≤ MEMBERS }
        ensures sound { IsSoundCut self.now }
    {
        &self.sound
    }

    /// How many members there are.
    pub fn member_count(&self) -> u32
        ensures count { result ≡ members.member_count self.now }
        ensures few { result ≤ MEMBERS }
    {
        self.sound.member_count()
    }
}

/// A moment of a train, moved with its entry: the train was planned to enter at `planned`, and
/// enters at `entry`. Seconds from the timetable's origin.
pub fn shift(time: i64, planned: i64, entry: i64) -> i64
    requires time { IsMoment time }
    requires planned { IsMoment planned }
    requires entry { IsBounded entry }
    ensures { result ≡ time -ℤ planned +ℤ entry }
{
    time - planned + entry
}

/// Whether the first of two moments, each with the name of a run, comes before the other: it is the
/// earlier or, at one moment, has the lesser name. Seconds from the timetable's origin.
pub fn comes_before(start: i64, name: &Name, other: i64, next: &Name) -> bool
    ensures { result ≡ members.comes_before start name.now other next.now }
{
    start < other || start == other && name < next
}

/// A row's use of a place, if it uses it: looked for from the front.
pub fn use_of(row: &CutRow, place: u32) -> Option<Use>
    ensures { result ≡ members.use_of row.now place }
{
    row.uses
        .slice()
        .iter()
        .copied()
        .find(|one| one.block == place)
}

// A row's use of a place, if it uses it, where its uses of the first so many places, which are
// blocks, stand before the others.
fn use_in(row: &CutRow, blocks: u32, place: u32) -> Option<Use>
    requires differ { AreOfOtherPlaces row.now.uses }
    requires first { AreBlocksFirst blocks row.now.uses }
    ensures { result ≡ members.use_of row.now place }
{
    if place < blocks {
        use_of(row, place)
    } else {
        use_of_connection(row.uses.slice(), blocks, place)
    }
}

// A row's use of a connection, if it uses it: looked for from the back, where uses of connections
// stand.
fn use_of_connection(uses: &[Use], blocks: u32, place: u32) -> Option<Use>
    requires differ { AreOfOtherPlaces uses.now }
    requires first { AreBlocksFirst blocks uses.now }
    requires behind { blocks ≤ place }
    ensures { result ≡ find (λ u. u.block == place) uses.now }
{
    let mut left = uses.len();
    while left > 0 {
        left -= 1;
        let one = uses[left];
        if one.block == place {
            return Some(one);
        }
        if one.block < blocks {
            return None;
        }
    }
    None
}
