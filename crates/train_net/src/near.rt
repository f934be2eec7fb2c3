//! Who stands nearest before a position of an order at each place.
ghost use Rattle.std.specs.Prelude.{◌≡◌, ℕ, ◌<◌, ◌≤◌, length, All, IsSome, slice_index, slice_index_or, find, ◌==◌, None, replicate, IfOk, map};
ghost use Rattle.plan_model.specs.Members.{member, member_count, place_count};
ghost use Rattle.plan_model.specs.Cut.{AreOfOtherPlaces, AreBlocksFirst};
ghost use Rattle.train_net.specs.Near.{filled, near_by, IsNear, AreNear, AreNearFrom, AreNearAt, IsConnectionOf};

use plan_model::SoundCut;
use rail_model::{OutOfMemory, Use};
use std::alloc::Global;

// The member that stands nearest at a place, with its use of the place.
#[derive(Clone, Copy)]
pub(crate) struct Near {
    // Its position among the cut's members.
    pub(crate) train: u32,
    pub(crate) one: Use,
}

// By the places' positions, who stands nearest before a position of an order, at each wanted place.
// It is looked for from the position back, until all are found.
pub(crate) fn nearest_before(
    alloc: Global,
    cut: &SoundCut,
    order: &[u32],
    at: usize,
    wanted: &[u32],
) -> Result<Vec<Option<Near>>, OutOfMemory>
    requires there { All (λ i. i < member_count cut.now) order.now }
    requires within { at ≤ length order.now }
    requires wanted { All (λ p. p < place_count cut.now) wanted.now }
    ensures places { IfOk result (λ near. length near.items ≡ place_count cut.now) }
    ensures near { IfOk result (λ near. AreNear cut.now order.now at wanted.now near.items) }
{
    let mut near = vec![in alloc; None; cut.place_count() as usize]?;
    find_near(&mut near, cut, order, at, wanted);
    Ok(near)
}

// Fills the table, which is empty. All uses are put in until somebody is found at each wanted place
// but the connections at the end of the list; further back only uses of connections are.
fn find_near(near: &mut [Option<Near>], cut: &SoundCut, order: &[u32], at: usize, wanted: &[u32])
    requires there { All (λ i. i < member_count cut.now) order.now }
    requires within { at ≤ length order.now }
    requires wanted { All (λ p. p < place_count cut.now) wanted.now }
    requires none { near.old ≡ replicate (place_count cut.now) None }
    ensures { AreNear cut.now order.now at wanted.now near.new }
{
    let count = blocks_end(wanted, cut.block_count());
    let from = look_back(near, cut, order, at, &wanted[..count]);
    look_further(near, cut, order, from, at, &wanted[count..]);
}

// A number from which on all these places are of connections.
fn blocks_end(places: &[u32], blocks: u32) -> usize
    ensures within { result ≤ length places.now }
    ensures connections { (k : ℕ) → result ≤ k → k < length places.now
        → blocks ≤ slice_index places.now k }
{
    let mut end = places.len();
    while end > 0 && places[end - 1] >= blocks {
        end -= 1;
    }
    end
}

// Who stands nearest before a position of an order, at each place of the member that stands there.
pub(crate) fn near_at(
    alloc: Global,
    cut: &SoundCut,
    order: &[u32],
    at: usize,
) -> Result<Vec<Option<Near>>, OutOfMemory>
    requires there { All (λ i. i < member_count cut.now) order.now }
    requires within { at < length order.now }
    ensures places { IfOk result (λ near. length near.items ≡ place_count cut.now) }
    ensures near { IfOk result (λ near. AreNearAt cut.now order.now at near.items) }
{
    let places = places_of(alloc, cut.row(order[at]).uses.slice())?;
    nearest_before(alloc, cut, order, at, &places)
}

// The places of some uses.
fn places_of(alloc: Global, uses: &[Use]) -> Result<Vec<u32>, OutOfMemory>
    ensures { IfOk result (λ places. places.items ≡ map (λ u. u.block) uses.now) }
{
    let places = uses.iter().map(|one| one.block).collect(alloc)?;
    Ok(places)
}

// Fills the table, which is empty, from the position back, until somebody is found at each wanted
// place. Gives the position up to which it was filled.
fn look_back(
    near: &mut [Option<Near>],
    cut: &SoundCut,
    order: &[u32],
    at: usize,
    wanted: &[u32],
) -> usize
    requires there { All (λ i. i < member_count cut.now) order.now }
    requires within { at ≤ length order.now }
    requires wanted { All (λ p. p < place_count cut.now) wanted.now }
    requires none { near.old ≡ replicate (place_count cut.now) None }
    ensures within { result ≤ at }
    ensures count { length near.new ≡ place_count cut.now }
    ensures all { AreNearFrom cut.now order.now result at near.new }
    ensures near { AreNear cut.now order.now at wanted.now near.new }
{
    let mut from = at;
    // Who is found stays, so each place is asked about once it is found, and no more.
    let mut found = 0;
    while from > 0 && found < wanted.len() {
        from -= 1;
        let train = order[from];
        fill(near, train, cut.row(train).uses.slice());
        found = found_from(near, wanted, found);
    }
    from
}

// Fills the table further back, from a position up to which it is filled, with uses of connections
// alone. Only two trains use a connection, so its nearest user may stand far back, or nowhere.
fn look_further(
    near: &mut [Option<Near>],
    cut: &SoundCut,
    order: &[u32],
    before: usize,
    at: usize,
    wanted: &[u32],
)
    requires there { All (λ i. i < member_count cut.now) order.now }
    requires within { (before ≤ at) × (at ≤ length order.now) }
    requires count { length near.old ≡ place_count cut.now }
    requires wanted { All (IsConnectionOf cut.now) wanted.now }
    requires all { AreNearFrom cut.now order.now before at near.old }
    ensures count { length near.new ≡ place_count cut.now }
    ensures kept { (p : ℕ) → p < place_count cut.now
        → IsNear cut.now order.now at p (slice_index_or near.old p None)
        → IsNear cut.now order.now at p (slice_index_or near.new p None) }
    ensures near { AreNear cut.now order.now at wanted.now near.new }
{
    let mut from = before;
    let mut found = 0;
    while from > 0 && found < wanted.len() {
        from -= 1;
        let train = order[from];
        let uses = cut.row(train).uses.slice();
        fill(near, train, uses_of_connections(uses, cut.block_count()));
        found = found_from(near, wanted, found);
    }
}

// Of uses those of connections, which stand behind those of so many blocks.
fn uses_of_connections(uses: &[Use], blocks: u32) -> &[Use]
    requires { AreBlocksFirst blocks uses.now }
    ensures part { (n : ℕ) → All (λ u. u.block < n) uses.now → All (λ u. u.block < n) result.now }
    ensures connections { (p : ℕ) → blocks ≤ p
        → find (λ u. u.block == p) result.now ≡ find (λ u. u.block == p) uses.now }
    ensures blocks { (p : ℕ) → p < blocks → find (λ u. u.block == p) result.now ≡ None }
{
    let mut from = uses.len();
    while from > 0 && uses[from - 1].block >= blocks {
        from -= 1;
    }
    &uses[from..]
}

// The end of the places, from a position on, at each of which somebody is found.
fn found_from(near: &[Option<Near>], wanted: &[u32], from: usize) -> usize
    requires wanted { All (λ p. p < length near.now) wanted.now }
    requires within { from ≤ length wanted.now }
    ensures within { result ≤ length wanted.now }
    ensures found { (k : ℕ) → from ≤ k → k < result
        → IsSome (slice_index_or near.now (slice_index wanted.now k) None) }
{
    let mut at = from;
    while at < wanted.len() && near[wanted[at] as usize].is_some() {
        at += 1;
    }
    at
}

// Puts a train's uses into the table, so that it stands nearest at its places from then on.
pub(crate) fn pass(near: &mut [Option<Near>], train: u32, uses: &[Use])
    requires there { All (λ u. u.block < length near.old) uses.now }
    requires differ { AreOfOtherPlaces uses.now }
    ensures count { length near.new ≡ length near.old }
    ensures all { (place : ℕ) → place < length near.old → slice_index_or near.new place None
        ≡ near_by train (find (λ u. u.block == place) uses.now) (slice_index_or near.old place None) }
{
    for one in uses {
        near[one.block as usize] = Some(Near { train, one: *one });
    }
}

// Puts a train's uses into the table at those places where nobody is found yet.
fn fill(near: &mut [Option<Near>], train: u32, uses: &[Use])
    requires { All (λ u. u.block < length near.old) uses.now }
    ensures count { length near.new ≡ length near.old }
    ensures all { (place : ℕ) → place < length near.old → slice_index_or near.new place None
        ≡ filled (slice_index_or near.old place None)
        (near_by train (find (λ u. u.block == place) uses.now) None) }
{
    for one in uses {
        let place = one.block as usize;
        near[place] = first_found(near[place], Near { train, one: *one });
    }
}

// The one that was found first at a place.
fn first_found(near: Option<Near>, next: Near) -> Option<Near>
    ensures { result ≡ filled near (Some next) }
{
    match near {
        Some(first) => Some(first),
        None => Some(next),
    }
}
