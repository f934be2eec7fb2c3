//! The path of a run: its route's signals and their blocks, by the keys that were found once.
ghost use Rattle.std.specs.Prelude.{◌≡◌, ◌≤◌, ◌<◌, IfOk, length, map, All};
ghost use Rattle.rail_model.specs.Blocking.{Fits};
ghost use Rattle.rail_model.specs.Tables.{path_in, run_at};
ghost use Rattle.line_tables.specs.Table.{AreNumbered};
ghost use Rattle.line_tables.specs.Links.{IsKey, IsLinked};
ghost use Rattle.line_tables.specs.Inside.{names_of_signal};
ghost use Rattle.line_tables.specs.Hops as hops_in;

use crate::LineTables;
use crate::key_counts::grow;
use crate::linked::Linked;
use crate::named_table::NamedTable;
use rail_model::{BLOCKS, Block, Hop, Leg, List, OutOfMemory, Path, Run, Signal};
use std::alloc::Global;

// The number of each block, at its key: a list that reaches up to the greatest key.
pub(crate) fn numbers_by_key(
    alloc: Global,
    blocks: &NamedTable<Block>,
) -> Result<Vec<usize>, OutOfMemory>
    ensures { IfOk result (λ numbers. AreNumbered (length blocks.now) blocks.now numbers.items) }
{
    blocks.learn_order();
    // The keys are copied in one piece, which is quicker than to ask for each.
    let keys = blocks.keys(alloc)?;
    let mut numbers = Vec::with_capacity(alloc, keys.len())?;
    for (number, key) in keys.iter().enumerate() {
        grow(&mut numbers, *key)?;
        numbers[*key] = number;
    }
    Ok(numbers)
}

// The hop beyond the signal under a key, before any run has timed it.
pub(crate) fn untimed_hop(
    blocks: &NamedTable<Block>,
    numbers: &[usize],
    signals: &NamedTable<Linked<Signal>>,
    key: usize,
) -> Hop
    requires there { IsKey signals.now key }
    requires linked { IsLinked names_of_signal (λ b. b.name) signals.now blocks.now }
    requires few { length blocks.now ≤ BLOCKS }
    requires numbered { AreNumbered (length blocks.now) blocks.now numbers.now }
    ensures { result ≡ hops_in.hop_of blocks.now signals.now key }
{
    blocks.learn_order();
    let entry = signals.get(key);
    let signal = &entry.item;
    let block_key = entry.refs.slice()[0];
    let block = blocks.get(block_key);
    let number = numbers[block_key];
    Hop {
        block: number as u32,
        block_m: block.length_m,
        approach_m: signal.approach_m,
        watch_s: signal.watch_s,
        form_s: signal.form_s,
        overlap_m: signal.overlap_m,
        release_s: signal.release_s,
        running_s: 0,
        dwell_s: 0,
    }
}

// The hops beyond the signals under these keys, in their order.
fn untimed_hops(
    alloc: Global,
    blocks: &NamedTable<Block>,
    numbers: &[usize],
    signals: &NamedTable<Linked<Signal>>,
    keys: &[usize],
) -> Result<List<Hop>, OutOfMemory>
    requires there { All (IsKey signals.now) keys.now }
    requires linked { IsLinked names_of_signal (λ b. b.name) signals.now blocks.now }
    requires few { length blocks.now ≤ BLOCKS }
    requires numbered { AreNumbered (length blocks.now) blocks.now numbers.now }
    ensures { IfOk result (λ hops. hops ≡ map (hops_in.hop_of blocks.now signals.now) keys.now) }
{
    let mut hops = Vec::with_capacity(alloc, keys.len())?;
    for key in keys {
        hops.push_reserved(untimed_hop(blocks, numbers, signals, *key));
    }
    Ok(List::from_vec(hops))
}

// The hops with the times of these legs, in their order.
fn timed_hops(alloc: Global, hops: &[Hop], legs: &[Leg]) -> Result<List<Hop>, OutOfMemory>
    ensures { IfOk result (λ timed. timed ≡ hops_in.with_legs hops.now legs.now) }
{
    let mut timed = List::from_vec(Vec::with_capacity(alloc, hops.len())?);
    for (hop, leg) in hops.iter().zip(legs) {
        let hop_with_leg = Hop {
            running_s: leg.running_s,
            dwell_s: leg.dwell_s,
            ..*hop
        };
        timed.push(hop_with_leg)?;
    }
    Ok(timed)
}

// The path of a run over the hops of its route.
fn path_over(alloc: Global, run: &Run, hops: &[Hop]) -> Result<Path, OutOfMemory>
    ensures { IfOk result (λ path. path ≡ hops_in.path_over run.now hops.now) }
{
    let timed = timed_hops(alloc, hops, run.legs.slice())?;
    Ok(path_with(run, timed))
}

// The path of a run with these hops.
pub(crate) fn path_with(run: &Run, hops: List<Hop>) -> Path
    ensures { result ≡ hops_in.path_with run.now hops }
{
    Path {
        run: run.name,
        length_m: run.length_m,
        tail_s: run.tail_s,
        start_s: run.start_s,
        hops,
    }
}

impl LineTables {
    /// The path of the run of a number: one hop for each signal of its route, in the route's order.
    pub fn path(&self, run: u32) -> Result<Path, OutOfMemory>
        requires { run < length self.now.runs }
        ensures same { IfOk result (λ path. path ≡ path_in self.now (run_at self.now run)) }
        ensures fits { IfOk result Fits }
        ensures numbered { IfOk result
            (λ path. All (λ h. h.block < length self.now.blocks) path.hops) }
    {
        self.signals.learn_order();
        self.routes.learn_order();
        let entry = self.runs.nth(run as usize);
        let route = self.routes.get(entry.refs.slice()[0]);
        let numbers = numbers_by_key(self.alloc, &self.blocks)?;
        let keys = route.refs.slice();
        let hops = untimed_hops(self.alloc, &self.blocks, &numbers, &self.signals, keys)?;
        path_over(self.alloc, &entry.item, hops.slice())
    }
}
