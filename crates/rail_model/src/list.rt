//! Lists, whose growth may find no memory.
ghost use Rattle.std.specs.Prelude.{◌≡◌, ℕ, ◌+◌, ◌<◌, ◌≤◌, ◌^◌, ◌↔◌, [], ◌∷◌, ◌++◌, length, insert, remove, slice_index_or, IsTrue, IsSome, OnOk, OnErr, IfOk};
ghost use Rattle.std.specs.Option.{option_to_list, option_copied};
ghost use Rattle.std.specs.Prelude.{slice_get, Some};

use crate::OutOfMemory;
use std::alloc::{AllocError, Global};
use std::marker::Model;

/// Items in order. Contracts see the list of the items.
///
/// A list holds at most 2^63 - 1 items: a push or an insert past that finds no memory.
#[derive(Debug, Drop)]
pub struct List<T> {
    items: Vec<T>,
}

impl<T> Model for List<T> {
    ghost use Rattle.std.specs.Prelude.{List as Items, ◌<◌, ◌^◌, length};
    ghost use Rattle.std.specs.Coded.{coded_list};

    ghost Value = { Items T };

    ghost coded = { coded_list T.code };

    ghost view = { λ l. l.items.items };

    ghost invariant = { λ l. length l.items.items < 2 ^ 63 };
}

// The greatest number of items of a list.
const MOST: usize = 9_223_372_036_854_775_807;

impl<T> List<T> {
    ghost use Rattle.std.specs.Borrow.{sem};
    ghost use Rattle.rail_model.specs.List.{LendsItem};

    /// An empty list, which asks for no memory.
    pub fn new(alloc: Global) -> Self
        ensures { result ≡ [] }
    {
        List {
            items: Vec::new(alloc),
        }
    }

    /// An empty list with room for so many items: until it has more, a push asks for no memory.
    pub fn with_capacity(alloc: Global, room: usize) -> Result<Self, OutOfMemory>
        ensures { IfOk result (λ list. list ≡ []) }
    {
        Ok(List {
            items: Vec::with_capacity(alloc, room)?,
        })
    }

    /// The items of a vector, in their order.
    pub fn from_vec(items: Vec<T>) -> Self
        requires { length items.items < 2 ^ 63 }
        ensures { result ≡ items.items }
    {
        List { items }
    }

    /// The vector of the items.
    pub fn into_vec(self) -> Vec<T>
        ensures { result.items ≡ self }
    {
        self.items
    }

    /// Puts an item at the end. Without memory the list stays as it was.
    pub fn push(&mut self, item: T) -> Result<(), OutOfMemory>
    where
        T: Drop,
        ensures ok { OnOk result (self.new ≡ self.old ++ item ∷ []) }
        ensures err { OnErr result (self.new ≡ self.old) }
    {
        if self.items.len() >= MOST {
            return Err(OutOfMemory);
        }
        self.items.push(item)?;
        Ok(())
    }

    /// How many items there are.
    pub fn len(&self) -> usize
        ensures count { result ≡ length self.now }
        ensures most { result < 2 ^ 63 }
    {
        self.items.len()
    }

    /// Whether there is no item.
    pub fn is_empty(&self) -> bool
        ensures { IsTrue result ↔ (self.now ≡ []) }
    {
        self.items.is_empty()
    }

    /// The item at `i`, if there is one.
    pub fn get(&self, i: usize) -> Option<&T>
        ensures { option_copied result ≡ slice_get self.now i }
    {
        self.items.get(i)
    }

    /// Lends the item at `i` for writing; all others stay.
    pub fn get_mut(&mut self, i: usize) -> &mut T
        requires { i < length self.old }
        ensures* writes_back { sem 𝓛 (LendsItem T.row self.entry i result) }
        ensures item { slice_get self.old i ≡ Some result.now }
    {
        &mut self.items[i]
    }

    /// Takes out the last item, if there is one.
    pub fn pop(&mut self) -> Option<T>
        ensures some { IsSome result ↔ (0 < length self.old) }
        ensures items { self.old ≡ self.new ++ option_to_list result }
    {
        self.items.pop()
    }

    /// Puts an item at `i`; those from `i` on stand one place further. Without memory the list
    /// stays as it was.
    pub fn insert(&mut self, i: usize, item: T) -> Result<(), OutOfMemory>
    where
        T: Drop,
        requires { i ≤ length self.old }
        ensures ok { OnOk result (self.new ≡ insert self.old i item) }
        ensures err { OnErr result (self.new ≡ self.old) }
    {
        if self.items.len() >= MOST {
            return Err(OutOfMemory);
        }
        self.items.insert(i, item)?;
        Ok(())
    }

    /// Takes out the item at `i` and closes up.
    pub fn remove(&mut self, i: usize) -> T
        requires { i < length self.old }
        ensures item { slice_get self.old i ≡ Some result }
        ensures items { self.new ≡ remove self.old i }
    {
        self.items.remove(i)
    }

    /// The items as a slice.
    pub fn slice(&self) -> &[T]
        ensures { result.now ≡ self.now }
    {
        &self.items
    }
}

impl<T: Copy> List<T> {
    /// A list of the same items.
    pub fn copy(&self, alloc: Global) -> Result<List<T>, OutOfMemory>
        ensures { IfOk result (λ other. other ≡ self.now) }
    {
        let items = Vec::from_slice(alloc, &self.items)?;
        Ok(List { items })
    }
}

impl<T: Copy> Clone for List<T> {
    ghost is_clone = { λ list other. other ≡ list };

    fn clone(&self) -> Result<List<T>, AllocError> {
        let alloc = self.items.allocator().clone()?;
        Ok(List {
            items: Vec::from_slice(alloc, &self.items)?,
        })
    }
}
