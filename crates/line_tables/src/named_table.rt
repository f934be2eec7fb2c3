//! A table of named items. An item stands under a key that stays its own until it is taken out, so
//! what refers to it by its key needs no change while others come and go.
ghost use Rattle.std.specs.Prelude.{◌≡◌, ◌<◌, false, true, length, map, take, drop, All, slice_get, is_some, IfSome, IsSome, IfOk, OnOk, OnErr, Some, None, MatchResult, [], nat_eq};
ghost use Rattle.std.specs.Option.{option_map};
ghost use Rattle.std.specs.Cmp.Lexicographic.{pointwise};
ghost use Rattle.indexmap.specs.IndexMap.{get};
ghost use Rattle.slab.specs.Slab.{get as slot};
ghost use Rattle.rail_model.specs.Name.{NamesRise};
ghost use Rattle.rail_model.specs.Rules.{is_named, with_item, without};
ghost use Rattle.rail_model.specs.Tables.{number_of};
ghost use Rattle.line_tables.specs.Table as tables;
ghost use Rattle.line_tables.specs.Table.{IsPositionOf, IsPositionFor};

use indexmap::IndexMap;
use rail_model::{Name, Named, OutOfMemory};
use slab::Slab;
use std::alloc::Global;
use std::collections::VecDeque;
use std::marker::Model;
use std::mem;

// What a table holds: a copy of it equals it.
pub(crate) trait TableItem: Named + Clone {
    ghost copies: { (a b : Self) → Self.is_clone a b → b ≡ a };
}

// Items of one kind, seen as the list of (key, item) in the order of names.
pub(crate) struct NamedTable<T: TableItem> {
    // The key of each name.
    by_name: IndexMap<Name, usize>,
    // The item under each key.
    slots: Slab<T>,
    // The keys in the order of their items' names. A key that is put in moves those on the shorter
    // side of it.
    order: VecDeque<usize>,
}

impl<T: TableItem> Drop for NamedTable<T> {
    fn drop(self) {
        let NamedTable {
            by_name: _,
            slots: _,
            order: _,
        } = self;
    }
}

impl<T: TableItem> Model for NamedTable<T> {
    ghost use Rattle.std.specs.Prelude.{ℕ, List, nat_eq};
    ghost use Rattle.std.specs.Coded.{coded_list, coded×, coded_ℕ};
    ghost use Rattle.std.specs.Cmp.Lexicographic.{pointwise};
    ghost use Rattle.slab.specs.Slab.{get as slot};
    ghost use Rattle.indexmap.specs.IndexMap.{get};
    ghost use Rattle.line_tables.specs.Table.{filed, IsKept};

    ghost Value = { List (ℕ × T) };

    ghost coded = { coded_list (coded× coded_ℕ T.code) };

    ghost view = { λ t. filed (slot t.slots) t.order.items };

    ghost invariant = { λ t. IsKept T.label (slot t.slots) t.order.items (get (pointwise nat_eq) t.by_name) };
}

impl<T: TableItem> NamedTable<T> {
    // A table without items, which asks for no memory.
    pub(crate) fn new(alloc: Global) -> Self
        ensures { result ≡ [] }
    {
        NamedTable {
            by_name: IndexMap::new(alloc),
            slots: Slab::new(alloc),
            order: VecDeque::new(alloc),
        }
    }

    // Learns that names rise, and that one item stands under each key.
    pub(crate) fn learn_order(&self)
        ensures { tables.IsTable T.label self.now }
    {
        let _order = &self.order;
    }

    // How many items there are.
    pub(crate) fn len(&self) -> usize
        ensures { result ≡ length self.now }
    {
        self.order.len()
    }

    // The key of the item of a name, if there is one.
    pub(crate) fn key_of(&self, name: &Name) -> Option<usize>
        ensures key { result ≡ tables.key_of T.label self.now name.now }
        ensures there { is_some result ≡ is_named (tables.named T.label) self.now name.now }
        ensures table { tables.IsTable T.label self.now }
    {
        self.by_name.get(name).copied()
    }

    // What `key_of` gives, in a list of names. Each list starts with `near` at 0, and names that
    // follow each other in it as they were put in are found without being hashed.
    pub(crate) fn key_near(&self, name: &Name, near: &mut usize) -> Option<usize>
        ensures key { result ≡ tables.key_of T.label self.now name.now }
        ensures there { is_some result ≡ is_named (tables.named T.label) self.now name.now }
    {
        let (position, key) = entry_near(&self.by_name, name, *near)?;
        *near = position.wrapping_add(1);
        Some(key)
    }

    // The item under a key.
    pub(crate) fn get(&self, key: usize) -> &T
        requires { IsSome (tables.under self.now key) }
        ensures item { tables.under self.now key ≡ Some result.now }
        ensures table { tables.IsTable T.label self.now }
    {
        &self.slots[key]
    }

    // The number of the item of a name, if there is one.
    pub(crate) fn number_of(&self, name: &Name) -> Option<usize>
        ensures there { is_some result ≡ is_named (tables.named T.label) self.now name.now }
        ensures number { IfSome result (λ i. i ≡ number_of (tables.named T.label) self.now name.now) }
        ensures in_range { IfSome result (λ i. i < length self.now) }
    {
        position_of(&self.order, &self.slots, name).ok()
    }

    // The item of a number.
    pub(crate) fn nth(&self, number: usize) -> &T
        requires { number < length self.now }
        ensures item { option_map (λ e. e.1) (slice_get self.now number) ≡ Some result.now }
        ensures table { tables.IsTable T.label self.now }
    {
        &self.slots[self.order[number]]
    }

    // The key of the item of a number.
    pub(crate) fn key_at(&self, number: usize) -> usize
        requires { number < length self.now }
        ensures key { option_map (λ e. e.0) (slice_get self.now number) ≡ Some result }
        ensures table { tables.IsTable T.label self.now }
    {
        self.order[number]
    }

    // The keys of the items, in their order.
    pub(crate) fn keys(&self, alloc: Global) -> Result<Vec<usize>, OutOfMemory>
        ensures { IfOk result (λ keys. keys.items ≡ map (λ e. e.0) self.now) }
    {
        let (first, others) = self.order.as_slices();
        let mut keys = Vec::with_capacity(alloc, self.order.len())?;
        keys.extend_from_slice(first)?;
        keys.extend_from_slice(others)?;
        Ok(keys)
    }

    // Puts an item of a new name in, and gives its key. Without memory the table stays as it was.
    pub(crate) fn put(&mut self, item: T) -> Result<usize, OutOfMemory>
        requires { is_named (tables.named T.label) self.old (T.label item) ≡ false }
        ensures put { IfOk result
            (λ key. self.new ≡ with_item (tables.named T.label) self.old (key, item)) }
        ensures fresh { IfOk result (λ key. tables.under self.old key ≡ None) }
        ensures there { IfOk result (λ key. tables.under self.new key ≡ Some item) }
        ensures table { OnOk result (tables.IsTable T.label self.old) }
        ensures kept { OnErr result (self.new ≡ self.old) }
    {
        let position = position_for(&self.order, &self.slots, item.name());
        self.slots.reserve(1)?;
        self.order.reserve(1)?;
        let key = self.slots.vacant_key();
        self.by_name.insert(*item.name(), key)?;
        self.slots.insert_reserved(item);
        self.order.insert(position, key).unwrap();
        Ok(key)
    }

    // Takes the item of a name out.
    pub(crate) fn take(&mut self, name: &Name) -> T
        requires { is_named (tables.named T.label) self.old name.now ≡ true }
        ensures item { tables.item_of T.label self.old name.now ≡ Some result }
        ensures rest { self.new ≡ without (tables.named T.label) self.old name.now }
        ensures table { tables.IsTable T.label self.old }
    {
        let position = position_at(&self.order, &self.slots, name);
        self.by_name.swap_remove(name);
        let key = self.order.remove(position).unwrap();
        self.slots.remove(key)
    }

    // Puts an item in the place of the one under a key, which has the same name, and gives that
    // one.
    pub(crate) fn change(&mut self, key: usize, item: T) -> T
        requires { option_map T.label (tables.under self.old key) ≡ Some (T.label item) }
        ensures old { tables.under self.old key ≡ Some result }
        ensures changed { self.new ≡ tables.with_change self.old key item }
        ensures table { tables.IsTable T.label self.old }
    {
        mem::replace(&mut self.slots[key], item)
    }

    // A table of the same items under the same keys.
    pub(crate) fn copy(&self) -> Result<Self, OutOfMemory>
        ensures { IfOk result (λ other. other ≡ self.now) }
    {
        Ok(NamedTable {
            order: self.order.clone()?,
            slots: self.slots.clone()?,
            by_name: self.by_name.clone()?,
        })
    }
}

// The position of the entry of a name among the entries, and its key. The entry at `near` is tried
// before all.
#[inline]
fn entry_near(by_name: &IndexMap<Name, usize>, name: &Name, near: usize) -> Option<(usize, usize)>
    ensures { option_map (λ e. e.1) result ≡ get (pointwise nat_eq) by_name.now name.now }
{
    if let Some((other, key)) = by_name.get_index(near) {
        if other == name {
            return Some((near, *key));
        }
    }
    entry_sought(by_name, name)
}

// The entry of a name by the name's hash. It stands apart, so that the try at `near` alone is
// inlined.
#[inline(never)]
fn entry_sought(by_name: &IndexMap<Name, usize>, name: &Name) -> Option<(usize, usize)>
    ensures { option_map (λ e. e.1) result ≡ get (pointwise nat_eq) by_name.now name.now }
{
    let (position, _, key) = by_name.get_full(name)?;
    Some((position, *key))
}

// The bytes of the name of the item under a key: none where there is no item.
fn name_at<T: TableItem>(slots: &Slab<T>, key: usize) -> &[u8]
    ensures { result.now ≡ tables.name_at T.label (slot slots.now) key }
{
    match slots.get(key) {
        Some(item) => item.name().bytes(),
        None => &[],
    }
}

// The position of the key of the item of a name in the order, or the position at which such a key
// is to be put in.
fn position_of<T: TableItem>(
    order: &VecDeque<usize>,
    slots: &Slab<T>,
    name: &Name,
) -> Result<usize, usize>
    requires stored { All (λ k. IsSome (slot slots.now k)) order.now.items }
    requires rise { NamesRise (tables.named T.label) (tables.filed (slot slots.now) order.now.items) }
    ensures { MatchResult result
        (IsPositionOf T.label (slot slots.now) order.now.items name.now)
        (IsPositionFor T.label (slot slots.now) order.now.items name.now) }
{
    order.binary_search_by(|key| name_at(slots, *key).cmp(name.bytes()))
}

fn position_at<T: TableItem>(order: &VecDeque<usize>, slots: &Slab<T>, name: &Name) -> usize
    requires stored { All (λ k. IsSome (slot slots.now k)) order.now.items }
    requires rise { NamesRise (tables.named T.label) (tables.filed (slot slots.now) order.now.items) }
    requires there { is_named (tables.named T.label) (tables.filed (slot slots.now) order.now.items) name.now ≡ true }
    ensures { IsPositionOf T.label (slot slots.now) order.now.items name.now result }
{
    position_of(order, slots, name).unwrap()
}

fn position_for<T: TableItem>(order: &VecDeque<usize>, slots: &Slab<T>, name: &Name) -> usize
    requires stored { All (λ k. IsSome (slot slots.now k)) order.now.items }
    requires rise { NamesRise (tables.named T.label) (tables.filed (slot slots.now) order.now.items) }
    requires new { is_named (tables.named T.label) (tables.filed (slot slots.now) order.now.items) name.now ≡ false }
    ensures { IsPositionFor T.label (slot slots.now) order.now.items name.now result }
{
    position_of(order, slots, name).unwrap_err()
}
