//! Items with the keys of what they refer to, found once when an item is put or changed.
ghost use Rattle.std.specs.Prelude.{◌≡◌, ◌≤◌, ◌+◌, ℕ, true, false, [], ◌∷◌, map, length, All};
ghost use Rattle.std.specs.Prelude.{Some, None, is_some, IfSome, IfOk, OnOk, OnErr};
ghost use Rattle.std.specs.Option.{option_map};
ghost use Rattle.std.specs.List.{list_all};
ghost use Rattle.rail_model.specs.Rules.{is_named, with_item, without};
ghost use Rattle.line_tables.specs.Table as tables;
ghost use Rattle.line_tables.specs.Links.{IsKey, block_of};
ghost use Rattle.line_tables.specs.KeyCounts.{count_of, times, SameCounts, HasRoom};
ghost use Rattle.line_tables.specs.declared.linked.Linked.{Linked};

use crate::kept_route::KeptRoute;
use crate::key_counts::KeyCounts;
use crate::named_table::{NamedTable, TableItem};
use rail_model::{Block, Connection, List, Name, Named, OutOfMemory, Run, Section, Signal};
use std::alloc::Global;

// An item, and the keys of the items that it names, in its order.
#[derive(Clone, Drop)]
pub(crate) struct Linked<T> {
    pub(crate) item: T,
    pub(crate) refs: List<usize>,
}

impl<T: Named> Named for Linked<T> {
    ghost label = { λ e. T.label e.item };

    fn name(&self) -> &Name {
        self.item.name()
    }
}

impl TableItem for Block {
    ghost copies = { λ a b h. h };
}

impl TableItem for Signal {
    ghost copies = { λ a b h. h };
}

impl TableItem for KeptRoute {
    ghost copies = { λ a b h. h };
}

impl TableItem for Run {
    ghost copies = { λ a b h. λ j. record {
      name = h.0 j;
      route = h.1.0 j;
      length_m = h.1.1.0 j;
      tail_s = h.1.1.1.0 j;
      start_s = h.1.1.1.1.0 j;
      legs = h.1.1.1.1.1 j;
    } };
}

impl TableItem for Section {
    ghost copies = { λ a b h. λ j. record {
      name = h.0 j;
      from_s = h.1.0 j;
      to_s = h.1.1.0 j;
      add_percent = h.1.1.1.0 j;
      blocks = h.1.1.1.1 j;
    } };
}

impl TableItem for Connection {
    ghost copies = { λ a b h. h };
}

impl<T: TableItem> TableItem for Linked<T> {
    ghost copies = { λ a b h. λ j. record { item = T.copies a.item b.item h.0 j; refs = h.1 j } };
}

// The keys of the items of these names, in their order.
pub(crate) fn keys_of<T: TableItem>(
    alloc: Global,
    table: &NamedTable<T>,
    names: &[Name],
) -> Result<List<usize>, OutOfMemory>
    requires { list_all (is_named (tables.named T.label) table.now) names.now ≡ true }
    ensures keys { IfOk result
        (λ keys. map (tables.key_of T.label table.now) names.now ≡ map Some keys) }
    ensures table { tables.IsTable T.label table.now }
{
    let keys = known_keys(alloc, table, names)?;
    Ok(keys.unwrap())
}

// The keys of the items of these names, in their order, if all are there.
pub(crate) fn known_keys<T: TableItem>(
    alloc: Global,
    table: &NamedTable<T>,
    names: &[Name],
) -> Result<Option<List<usize>>, OutOfMemory>
    ensures known { IfOk result
        (λ found. is_some found ≡ list_all (is_named (tables.named T.label) table.now) names.now) }
    ensures keys { IfOk result
        (λ found. IfSome found (λ keys. map (tables.key_of T.label table.now) names.now ≡ map Some keys)) }
    ensures table { tables.IsTable T.label table.now }
{
    table.learn_order();
    let mut keys = Vec::with_capacity(alloc, names.len())?;
    let mut near = 0;
    for name in names {
        let Some(key) = table.key_near(name, &mut near) else {
            return Ok(None);
        };
        keys.push_reserved(key);
    }
    Ok(Some(List::from_vec(keys)))
}

// A list of one key.
pub(crate) fn one_key(alloc: Global, key: usize) -> Result<List<usize>, OutOfMemory>
    ensures { IfOk result (λ keys. keys ≡ key ∷ []) }
{
    Ok(List::from_vec(Vec::from_slice(alloc, &[key])?))
}

// The key of the block beyond the signal under a key.
pub(crate) fn block_of(signals: &NamedTable<Linked<Signal>>, key: usize) -> usize
    requires there { IsKey signals.now key }
    requires one { All (λ e. length e.1.refs ≡ 1) signals.now }
    ensures { result ≡ block_of signals.now key }
{
    signals.get(key).refs.slice()[0]
}

// The keys of the blocks beyond the signals under keys, in their order.
pub(crate) fn blocks_of(
    alloc: Global,
    signals: &NamedTable<Linked<Signal>>,
    keys: &[usize],
) -> Result<List<usize>, OutOfMemory>
    requires there { All (IsKey signals.now) keys.now }
    requires one { All (λ e. length e.1.refs ≡ 1) signals.now }
    ensures { IfOk result (λ blocks. blocks ≡ map (block_of signals.now) keys.now) }
{
    let mut blocks = Vec::with_capacity(alloc, keys.len())?;
    for key in keys {
        blocks.push_reserved(block_of(signals, *key));
    }
    Ok(List::from_vec(blocks))
}

// Puts an item of a new name in, and counts the keys that it refers to. Without memory all stays.
pub(crate) fn put_linked<T: TableItem>(
    table: &mut NamedTable<Linked<T>>,
    uses: &mut KeyCounts,
    item: T,
    refs: List<usize>,
) -> Result<usize, OutOfMemory>
    requires { is_named (λ e. T.label e.1.item) table.old (T.label item) ≡ false }
    ensures put { IfOk result (λ key. table.new
        ≡ with_item (λ e. T.label e.1.item) table.old (key, record { item = item; refs = refs })) }
    ensures fresh { IfOk result (λ key. tables.under table.old key ≡ None) }
    ensures there { IfOk result (λ key. tables.under table.new key
        ≡ Some (record { item = item; refs = refs })) }
    ensures counted { OnOk result
        ((k : ℕ) → count_of uses.new k ≡ count_of uses.old k + times k refs) }
    ensures kept { OnErr result (table.new ≡ table.old) }
    ensures kept_counts { OnErr result (SameCounts uses.old uses.new) }
    ensures table { OnOk result (tables.IsTable (λ e. T.label e.item) table.old) }
{
    uses.make_room(refs.slice())?;
    let key = table.put(Linked { item, refs })?;
    uses.add(table.get(key).refs.slice());
    Ok(key)
}

// Puts an item in the place of the one under a key, and counts what it refers to in place of what
// that one does. Without memory all stays.
pub(crate) fn change_linked<T: TableItem>(
    table: &mut NamedTable<Linked<T>>,
    uses: &mut KeyCounts,
    key: usize,
    item: T,
    refs: List<usize>,
) -> Result<(), OutOfMemory>
    requires same_name { option_map (λ e. T.label e.item) (tables.under table.old key)
        ≡ Some (T.label item) }
    requires counted_before { (e : Linked T) (k : ℕ) → tables.under table.old key ≡ Some e
        → times k e.refs ≤ count_of uses.old k }
    ensures changed { OnOk result
        (table.new ≡ tables.with_change table.old key (record { item = item; refs = refs })) }
    ensures counted { OnOk result ((e : Linked T) (k : ℕ) → tables.under table.old key ≡ Some e
        → count_of uses.new k + times k e.refs ≡ count_of uses.old k + times k refs) }
    ensures kept { OnErr result (table.new ≡ table.old) }
    ensures kept_counts { OnErr result (SameCounts uses.old uses.new) }
    ensures table { OnOk result (tables.IsTable (λ e. T.label e.item) table.old) }
{
    uses.make_room(refs.slice())?;
    swap_linked(table, uses, key, item, refs);
    Ok(())
}

// Puts an item in the place of the one under a key, as `change_linked` does, where there is room
// for the counts.
pub(crate) fn swap_linked<T: TableItem>(
    table: &mut NamedTable<Linked<T>>,
    uses: &mut KeyCounts,
    key: usize,
    item: T,
    refs: List<usize>,
)
    requires same_name { option_map (λ e. T.label e.item) (tables.under table.old key)
        ≡ Some (T.label item) }
    requires counted_before { (e : Linked T) (k : ℕ) → tables.under table.old key ≡ Some e
        → times k e.refs ≤ count_of uses.old k }
    requires room { HasRoom uses.old refs }
    ensures changed { table.new ≡ tables.with_change table.old key (record { item = item; refs = refs }) }
    ensures counted { (e : Linked T) (k : ℕ) → tables.under table.old key ≡ Some e
        → count_of uses.new k + times k e.refs ≡ count_of uses.old k + times k refs }
    ensures table { tables.IsTable (λ e. T.label e.item) table.old }
{
    uses.add(refs.slice());
    let old = table.change(key, Linked { item, refs });
    uses.remove(old.refs.slice());
}

// Takes the item of a name out, and what it refers to out of the counts.
pub(crate) fn take_linked<T: TableItem>(
    table: &mut NamedTable<Linked<T>>,
    uses: &mut KeyCounts,
    name: &Name,
)
    requires there { is_named (λ e. T.label e.1.item) table.old name.now ≡ true }
    requires counted_before { (e : Linked T) (k : ℕ)
        → tables.item_of (λ e. T.label e.item) table.old name.now ≡ Some e
        → times k e.refs ≤ count_of uses.old k }
    ensures rest { table.new ≡ without (λ e. T.label e.1.item) table.old name.now }
    ensures counted { (e : Linked T) (k : ℕ)
        → tables.item_of (λ e. T.label e.item) table.old name.now ≡ Some e
        → count_of uses.new k + times k e.refs ≡ count_of uses.old k }
    ensures table { tables.IsTable (λ e. T.label e.item) table.old }
{
    let old = table.take(name);
    uses.remove(old.refs.slice());
}
