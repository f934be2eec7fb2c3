//! The paths of all runs of a line.
//!
//! What a signal and its block say of a hop is the same for every run that passes the signal, so it
//! is made once for each signal, and a path adds the times of its run's legs.
ghost use Rattle.std.specs.Prelude.{◌≡◌, ℕ, ◌+◌, ◌<◌, ◌≤◌, OnOk, IfOk, length, All, slice_index_or};
ghost use Rattle.rail_model.specs.Blocking.{no_hop, Fits};
ghost use Rattle.line_tables.specs.Table.{AreNumbered, AreAtKeys};
ghost use Rattle.line_tables.specs.Links.{IsLinked};
ghost use Rattle.line_tables.specs.Inside.{names_of_signal};
ghost use Rattle.line_tables.specs.Hops as hops_in;
ghost use Rattle.line_tables.specs.Paths.{paths_of, path_at};

use crate::LineTables;
use crate::kept_route::KeptRoute;
use crate::linked::Linked;
use crate::named_table::NamedTable;
use crate::path::{numbers_by_key, path_with, untimed_hop};
use rail_model::{BLOCKS, Block, Hop, Leg, List, OutOfMemory, Path, Run, Signal};
use std::alloc::Global;
use std::marker::Model;

/// The paths of a line's runs, which the line lends. Contracts see the list of the paths, in the
/// order of the runs' names.
#[derive(Drop)]
pub struct Paths<'a> {
    alloc: Global,
    runs: &'a NamedTable<Linked<Run>>,
    routes: &'a NamedTable<Linked<KeptRoute>>,
    // At the key of each signal the hop beyond it, before any run has timed it.
    hops: Vec<Hop>,
}

impl<'a> Model for Paths<'a> {
    ghost use Rattle.std.specs.Prelude.{List};
    ghost use Rattle.rail_model.specs.declared.path.Path.{Path};
    ghost use Rattle.line_tables.specs.Hops.{paths_by_keys, ArePaths};

    ghost Value = { List Path };

    ghost view = { λ p. paths_by_keys p.runs.now p.routes.now p.hops.items };

    ghost invariant = { λ p. ArePaths p.runs.now p.routes.now p.hops.items };
}

impl LineTables {
    /// The paths of all runs.
    pub fn paths(&self) -> Result<Paths<'_>, OutOfMemory>
        ensures same { IfOk result (λ paths. paths ≡ paths_of self.now) }
        ensures numbered { IfOk result (λ paths. All
            (λ path. All (λ h. h.block < length self.now.blocks) path.hops) paths) }
    {
        self.signals.learn_order();
        self.routes.learn_order();
        let numbers = numbers_by_key(self.alloc, &self.blocks)?;
        let hops = hops_by_key(self.alloc, &self.blocks, &numbers, &self.signals)?;
        Ok(Paths {
            alloc: self.alloc,
            runs: &self.runs,
            routes: &self.routes,
            hops,
        })
    }
}

impl<'a> Paths<'a> {
    /// The path of the run of a number: one hop for each signal of its route, in the route's order.
    pub fn path(&self, run: u32) -> Result<Path, OutOfMemory>
        requires { run < length self.now }
        ensures same { IfOk result (λ path. path ≡ path_at self.now run) }
        ensures fits { IfOk result Fits }
    {
        let entry = self.runs.nth(run as usize);
        let route = self.routes.get(entry.refs.slice()[0]);
        let legs = entry.item.legs.slice();
        let hops = timed_hops(self.alloc, &self.hops, route.refs.slice(), legs)?;
        Ok(path_with(&entry.item, hops))
    }

    /// At least the time that forming and watching take at any hop of these paths: seconds. A
    /// greater number costs time alone.
    pub fn most_lead(&self) -> u64
        ensures { All (λ path. All (λ h. h.watch_s + h.form_s ≤ result) path.hops) self.now }
    {
        lead_of(&self.hops)
    }
}

// The hop beyond each signal, before any run has timed it, at the signal's key: a list that reaches
// up to the greatest key.
fn hops_by_key(
    alloc: Global,
    blocks: &NamedTable<Block>,
    numbers: &[usize],
    signals: &NamedTable<Linked<Signal>>,
) -> Result<Vec<Hop>, OutOfMemory>
    requires linked { IsLinked names_of_signal (λ b. b.name) signals.now blocks.now }
    requires few { length blocks.now ≤ BLOCKS }
    requires numbered { AreNumbered (length blocks.now) blocks.now numbers.now }
    ensures { IfOk result (λ hops. AreAtKeys (λ i k. hops_in.hop_of blocks.now signals.now k)
        (length signals.now) signals.now hops.items) }
{
    let mut hops = Vec::with_capacity(alloc, signals.len())?;
    for number in 0..signals.len() {
        let key = signals.key_at(number);
        grow(&mut hops, key)?;
        hops[key] = untimed_hop(blocks, numbers, signals, key);
    }
    Ok(hops)
}

// Adds hops that say nothing until the key has one.
fn grow(hops: &mut Vec<Hop>, key: usize) -> Result<(), OutOfMemory>
    ensures same { (k : ℕ)
        → slice_index_or hops.new.items k no_hop ≡ slice_index_or hops.old.items k no_hop }
    ensures longer { length hops.old.items ≤ length hops.new.items }
    ensures within { OnOk result (key < length hops.new.items) }
{
    while hops.len() <= key {
        hops.push(no_hop())?;
    }
    Ok(())
}

fn no_hop() -> Hop
    ensures { result ≡ no_hop }
{
    Hop {
        block: 0,
        block_m: 0,
        approach_m: 0,
        watch_s: 0,
        form_s: 0,
        overlap_m: 0,
        release_s: 0,
        running_s: 0,
        dwell_s: 0,
    }
}

// The hops at these keys with the times of these legs, in their order.
fn timed_hops(
    alloc: Global,
    hops: &[Hop],
    keys: &[usize],
    legs: &[Leg],
) -> Result<List<Hop>, OutOfMemory>
    requires { All (λ k. k < length hops.now) keys.now }
    ensures { IfOk result
        (λ timed. timed ≡ hops_in.with_legs (hops_in.hops_at hops.now keys.now) legs.now) }
{
    let mut timed = Vec::with_capacity(alloc, keys.len())?;
    for (key, leg) in keys.iter().zip(legs) {
        let hop = &hops[*key];
        timed.push_reserved(Hop {
            running_s: leg.running_s,
            dwell_s: leg.dwell_s,
            ..*hop
        });
    }
    Ok(List::from_vec(timed))
}

// At least the time that forming and watching take at any of these hops: seconds.
fn lead_of(hops: &[Hop]) -> u64
    ensures { All (λ h. h.watch_s + h.form_s ≤ result) hops.now }
{
    let mut lead = 0;
    for hop in hops {
        lead = lead.max(u64::from(hop.watch_s) + u64::from(hop.form_s));
    }
    lead
}
