//! A section's cut as a book keeps it.
ghost use Rattle.std.specs.Prelude.{◌≡◌, ◌≤◌, ◌<◌, length, insert, nat_lt, vec_len, vec_capacity, IfOk, IfSome, OnOk, Some, option_map};
ghost use Rattle.std.specs.Option.{option_copied};
ghost use Rattle.plan_model.specs.Cut.{IsSoundCut};
ghost use Rattle.section_cut.specs.Change.{HasPlace, with_row, with_inserted, with_removed};
ghost use Rattle.plan_book.specs.declared.stored.Stored.TheVariants as stored;
ghost use Rattle.plan_book.specs.Stored.{cut_in, in_own, IsOwn, IsOwnAnd, IsSpareFor, TakesRow};

use plan_model::{Cut, CutRow, MEMBERS, SharedCut};
use rail_model::{List, OutOfMemory};
use std::alloc::Global;
use std::mem;

// A sound cut that readings may share, or one that nobody else holds, so that it can be changed.
#[derive(Drop)]
pub(crate) enum Stored {
    Shared(SharedCut),
    Own(Cut),
}

impl Stored {
    // A cut that readings may share. Workers may share its rows, unless it is crowded or memory runs
    // out.
    pub(crate) fn of(alloc: Global, cut: Cut) -> Result<Stored, OutOfMemory>
        requires { IsSoundCut cut }
        ensures { IfOk result (λ made. made ≡ stored.Shared cut) }
    {
        let mut cut = cut;
        share_uses(alloc, &mut cut);
        Ok(Stored::Shared(SharedCut::of(alloc, cut)?))
    }

    // The cut.
    pub(crate) fn cut(&self) -> &Cut
        ensures { result.now ≡ cut_in self.now }
    {
        match self {
            Stored::Shared(cut) => cut.cut(),
            Stored::Own(cut) => cut,
        }
    }

    // The cut, shared with one holder more. One that isn't shared yet is copied.
    pub(crate) fn share(&self, alloc: Global) -> Result<SharedCut, OutOfMemory>
        requires { IsSoundCut (cut_in self.now) }
        ensures { IfOk result (λ shared. shared ≡ cut_in self.now) }
    {
        match self {
            Stored::Shared(cut) => Ok(cut.share()?),
            Stored::Own(cut) => Ok(SharedCut::of(alloc, cut.copy(alloc)?)?),
        }
    }
}

// Lets workers share the uses of a cut's rows, where there is memory for it. No worker keeps the
// rows of a crowded cut: its uses stay as they are. The cut stays the same.
fn share_uses(alloc: Global, cut: &mut Cut)
    ensures { cut.new ≡ cut.old }
{
    if is_crowded(cut) {
        return;
    }
    for place in 0..cut.rows.len() {
        cut.rows.get_mut(place).uses.make_shared(alloc);
    }
}

// Makes the book the only holder of a cut, so that it can be changed. It is copied only where
// others hold it. The cut stays the same, also without memory.
pub(crate) fn make_own(alloc: Global, stored: &mut Option<Stored>) -> Result<(), OutOfMemory>
    ensures same { option_map cut_in stored.new ≡ option_map cut_in stored.old }
    ensures own { OnOk result (IfSome stored.new IsOwn) }
{
    match stored.take() {
        Some(Stored::Shared(shared)) => own_of(alloc, stored, shared),
        own => {
            *stored = own;
            Ok(())
        }
    }
}

// Puts in a shared cut as one that nobody else holds; without memory, as the shared one.
fn own_of(alloc: Global, stored: &mut Option<Stored>, shared: SharedCut) -> Result<(), OutOfMemory>
    ensures same { option_map cut_in stored.new ≡ Some shared }
    ensures own { OnOk result (IfSome stored.new IsOwn) }
{
    match shared.into_own() {
        Ok(own) => {
            *stored = Some(Stored::Own(own));
            Ok(())
        }
        Err(shared) => match shared.cut().copy(alloc) {
            Ok(own) => {
                *stored = Some(Stored::Own(own));
                Ok(())
            }
            Err(refused) => {
                *stored = Some(Stored::Shared(shared));
                Err(refused)
            }
        },
    }
}

// Makes a cut one that readings can share, where there is memory for it. The cut stays the same.
pub(crate) fn make_shared(alloc: Global, stored: &mut Option<Stored>)
    requires { IfSome (option_map cut_in stored.old) IsSoundCut }
    ensures { option_map cut_in stored.new ≡ option_map cut_in stored.old }
{
    *stored = match stored.take() {
        Some(Stored::Own(own)) => Some(shared_of(alloc, own)),
        shared => shared,
    };
}

// A cut that readings can share or, without memory for that, one that nobody else holds.
fn shared_of(alloc: Global, own: Cut) -> Stored
    requires { IsSoundCut own }
    ensures { cut_in result ≡ own }
{
    match SharedCut::or_own(alloc, own) {
        Ok(shared) => Stored::Shared(shared),
        Err(own) => Stored::Own(own),
    }
}

// Whether a cut is crowded. No worker keeps the rows of one.
fn is_crowded(cut: &Cut) -> bool
    ensures { result ≡ nat_lt MEMBERS (length cut.now.rows) }
{
    cut.rows.len() > MEMBERS
}

// A row for a cut. Workers may share its uses, unless the cut is crowded or memory runs out.
fn row_for(alloc: Global, cut: &Cut, row: CutRow) -> CutRow
    ensures { result ≡ row }
{
    let mut row = row;
    if !is_crowded(cut) {
        row.uses.make_shared(alloc);
    }
    row
}

// Puts a row at a place of a cut that nobody else holds.
pub(crate) fn put_row(alloc: Global, stored: &mut Option<Stored>, place: usize, row: CutRow)
    requires { IfSome stored.old (IsOwnAnd (HasPlace place)) }
    ensures { stored.new ≡ option_map (in_own (with_row place row)) stored.old }
{
    if let Some(Stored::Own(cut)) = stored {
        let row = row_for(alloc, cut, row);
        *cut.rows.get_mut(place) = row;
    }
}

// Takes out the row at a place of a cut that nobody else holds. Where the cut was crowded until now,
// workers may share the uses of its other rows from now on.
pub(crate) fn remove_row(alloc: Global, stored: &mut Option<Stored>, place: usize)
    requires { IfSome stored.old (IsOwnAnd (HasPlace place)) }
    ensures { stored.new ≡ option_map (in_own (with_removed place)) stored.old }
{
    if let Some(Stored::Own(cut)) = stored {
        let was_crowded = is_crowded(cut);
        let _gone = cut.rows.remove(place);
        if was_crowded {
            share_uses(alloc, cut);
        }
    }
}

// Memory for a cut's rows, one more, and an eighth beside, so that rows seldom move. No clause says
// that there is more than for one.
pub(crate) fn spare_for(alloc: Global, cut: Option<&Cut>) -> Result<Vec<CutRow>, OutOfMemory>
    ensures { IfOk result (λ spare. IfSome (option_copied cut.entry)
        (λ c. IsSpareFor (length c.rows) spare)) }
{
    let Some(cut) = cut else {
        return Ok(Vec::new(alloc));
    };
    let rows = cut.rows.len();
    Ok(Vec::with_capacity(alloc, rows + 1 + rows / 8)?)
}

// Puts a row in at a place of a cut that nobody else holds. The rows move to the spare memory only
// where their own has no room for one more.
pub(crate) fn insert_row(
    alloc: Global,
    stored: &mut Option<Stored>,
    place: usize,
    row: CutRow,
    spare: Vec<CutRow>,
)
    requires { IfSome stored.old (IsOwnAnd (TakesRow place spare)) }
    ensures { stored.new ≡ option_map (in_own (with_inserted place row)) stored.old }
{
    if let Some(Stored::Own(cut)) = stored {
        let row = row_for(alloc, cut, row);
        let rows = mem::replace(&mut cut.rows, List::new(alloc)).into_vec();
        cut.rows = inserted(rows, place, row, spare);
    }
}

// Rows with one more at a place.
fn inserted(rows: Vec<CutRow>, place: usize, row: CutRow, spare: Vec<CutRow>) -> List<CutRow>
    requires place { place ≤ length rows.items }
    requires spare { IsSpareFor (length rows.items) spare }
    ensures { result ≡ insert rows.items place row }
{
    let mut rows = with_room(rows, spare);
    if rows.insert(place, row).is_err() {
        unreachable!();
    }
    List::from_vec(rows)
}

// Rows with room for one more: where they stand or, if there is none, in the spare memory.
fn with_room(rows: Vec<CutRow>, spare: Vec<CutRow>) -> Vec<CutRow>
    requires { IsSpareFor (length rows.items) spare }
    ensures same { result.items ≡ rows.items }
    ensures room { vec_len result < vec_capacity result }
{
    if rows.len() < rows.capacity() {
        return rows;
    }
    let mut rows = rows;
    let mut all = spare;
    if all.append(&mut rows).is_err() {
        unreachable!();
    }
    all
}
