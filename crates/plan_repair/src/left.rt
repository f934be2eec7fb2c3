//! The kept rows that are left while the rows of a cut are looked for among them, in the order of
//! names.
ghost use Rattle.std.specs.Prelude.{◌≡◌, ℕ, false, ◌∷◌, drop, find, IfSome};
ghost use Rattle.rail_model.specs.Name.{NamesRise, is_before};
ghost use Rattle.plan_repair.specs.Kept.{has};
ghost use Rattle.plan_repair.specs.Left.{first_is, EndsWith, IsLeft};

use plan_model::CutRow;
use rail_model::Name;
use std::collections::VecDeque;

// Takes out the row of a name and a stamp, if it is there. Rows whose names come before that name
// are dropped.
pub(crate) fn next_kept(left: &mut VecDeque<CutRow>, name: &Name, stamp: u64) -> Option<CutRow>
    requires { NamesRise (λ r. r.name) left.old.items }
    ensures found { result ≡ find (has name.now stamp) left.old.items }
    ensures left { IsLeft name.now left.old.items left.new.items }
    ensures behind { IfSome result (λ row. EndsWith left.old.items (row ∷ left.new.items)) }
{
    // Mostly the first row is the one, and its name need not be compared twice.
    if stands_first(left, name, stamp) {
        return left.pop_front();
    }
    look_on(left, name, stamp)
}

// As `next_kept`, where it isn't known whether the first row is the one.
fn look_on(left: &mut VecDeque<CutRow>, name: &Name, stamp: u64) -> Option<CutRow>
    requires { NamesRise (λ r. r.name) left.old.items }
    ensures found { result ≡ find (has name.now stamp) left.old.items }
    ensures left { IsLeft name.now left.old.items left.new.items }
    ensures behind { IfSome result (λ row. EndsWith left.old.items (row ∷ left.new.items)) }
{
    pass_over(left, name);
    if !stands_first(left, name, stamp) {
        return None;
    }
    left.pop_front()
}

// Drops the rows whose names come before a name.
fn pass_over(left: &mut VecDeque<CutRow>, name: &Name)
    requires { NamesRise (λ r. r.name) left.old.items }
    ensures left { IsLeft name.now left.old.items left.new.items }
    ensures same { (stamp : ℕ) → find (has name.now stamp) left.new.items
        ≡ find (has name.now stamp) left.old.items }
    ensures reached { first_is (λ r. is_before r.name name.now) left.new.items ≡ false }
{
    while comes_before(left, name) {
        drop_first(left);
    }
}

// Lets go of the first row, if there is one. In a function of its own, so that the loop that calls
// it has one way on, however the row's uses are held.
fn drop_first(left: &mut VecDeque<CutRow>)
    ensures { left.new.items ≡ drop 1 left.old.items }
{
    left.pop_front();
}

// Whether the first row comes before a name.
fn comes_before(left: &VecDeque<CutRow>, name: &Name) -> bool
    ensures { result ≡ first_is (λ r. is_before r.name name.now) left.now.items }
{
    match left.front() {
        Some(row) => row.name < *name,
        None => false,
    }
}

// Whether the first row is that of a name and a stamp.
fn stands_first(left: &VecDeque<CutRow>, name: &Name, stamp: u64) -> bool
    ensures { result ≡ first_is (has name.now stamp) left.now.items }
{
    match left.front() {
        Some(row) => row.name == *name && row.stamp == stamp,
        None => false,
    }
}
