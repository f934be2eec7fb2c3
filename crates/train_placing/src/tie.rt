//! Why a train enters no earlier: the first of the trains and places that it touches.
ghost use Rattle.std.specs.Prelude.{◌≡◌, ◌<◌, length, IfSome};
ghost use Rattle.plan_model.specs.Cut.{IsMoment, IsBounded, IsUsable};
ghost use Rattle.plan_model.specs.Members.{place_count};
ghost use Rattle.train_placing.specs.Touch as touches;

use crate::last::Last;
use plan_model::{CutRow, SoundCut, Tie, shift};
use rail_model::Use;

// A train that another touches, and the place at which it does.
#[derive(Clone, Copy)]
pub(crate) struct Touch {
    pub(crate) train: u32,
    pub(crate) place: u32,
}

// The tie of a train that enters at a moment: its floor where it enters then, else the first
// train, by name, whose last use of a place ends as this one starts there, with the first such
// place by name.
pub(crate) fn tie(
    cut: &SoundCut,
    row: &CutRow,
    floor: i64,
    entry: i64,
    last: &[Option<Last>],
) -> Tie
    requires entry { IsBounded entry }
    requires row { IsUsable (length last.now) row.now }
    requires count { length last.now ≡ place_count cut.now }
    ensures { result ≡ touches.tie cut.now row.now floor entry last.now }
{
    if entry == floor {
        return Tie::Start;
    }
    match first_touch(cut, row, entry, last) {
        Some(touch) => Tie::After {
            train: touch.train,
            block: touch.place,
        },
        None => Tie::Start,
    }
}

fn first_touch(cut: &SoundCut, row: &CutRow, entry: i64, last: &[Option<Last>]) -> Option<Touch>
    requires entry { IsBounded entry }
    requires row { IsUsable (length last.now) row.now }
    requires count { length last.now ≡ place_count cut.now }
    ensures { result ≡ touches.first_touch cut.now row.now entry last.now }
{
    let mut best = None;
    for one in row.uses.slice() {
        best = better_with(cut, best, one, row.entry, entry, last[one.block as usize]);
    }
    best
}

// The first of a touch and of the one at a use, if there are any.
fn better_with(
    cut: &SoundCut,
    best: Option<Touch>,
    one: &Use,
    planned: i64,
    entry: i64,
    last: Option<Last>,
) -> Option<Touch>
    requires planned { IsMoment planned }
    requires entry { IsBounded entry }
    requires start { IsMoment one.now.start }
    requires there { one.now.block < place_count cut.now }
    requires best { IfSome best (λ t. t.place < place_count cut.now) }
    ensures same { result ≡ touches.better_with cut.now planned entry last best one.now }
    ensures place { IfSome result (λ t. t.place < place_count cut.now) }
{
    better(cut, best, touch_of(one, planned, entry, last))
}

// The touch at a use: the place's last use ends as this one starts.
fn touch_of(one: &Use, planned: i64, entry: i64, last: Option<Last>) -> Option<Touch>
    requires planned { IsMoment planned }
    requires entry { IsBounded entry }
    requires start { IsMoment one.now.start }
    ensures same { result ≡ touches.touch_of planned entry last one.now }
    ensures place { IfSome result (λ t. t.place ≡ one.now.block) }
{
    let start = shift(one.start, planned, entry);
    match last {
        Some(last) => {
            if last.until == start {
                Some(Touch {
                    train: last.train,
                    place: one.block,
                })
            } else {
                None
            }
        }
        None => None,
    }
}

// The first of two touches, if there are any.
fn better(cut: &SoundCut, best: Option<Touch>, other: Option<Touch>) -> Option<Touch>
    requires best { IfSome best (λ t. t.place < place_count cut.now) }
    requires other { IfSome other (λ t. t.place < place_count cut.now) }
    ensures same { result ≡ touches.better cut.now best other }
    ensures place { IfSome result (λ t. t.place < place_count cut.now) }
{
    match best {
        Some(one) => match other {
            Some(two) => {
                if comes_first(cut, two, one) {
                    other
                } else {
                    best
                }
            }
            None => best,
        },
        None => other,
    }
}

fn comes_first(cut: &SoundCut, a: Touch, b: Touch) -> bool
    requires a { a.place < place_count cut.now }
    requires b { b.place < place_count cut.now }
    ensures { result ≡ touches.comes_first cut.now a b }
{
    cut.comes_first((a.train, a.place), (b.train, b.place))
}
