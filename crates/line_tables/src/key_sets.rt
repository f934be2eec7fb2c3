//! Sets of keys, one at each key of a table.
ghost use Rattle.std.specs.Prelude.{◌≡◌, ℕ, ◌/◌, ◌<◌, ◌≤◌, ◌==◌, ◌&&◌, ◌||◌, not, [], length, slice_index_or, IfOk, OnOk};
ghost use Rattle.line_tables.specs.KeySet.{holds};
ghost use Rattle.line_tables.specs.RouteSets.{has, words_of};
ghost use Rattle.line_tables.specs.RouteSets.{SameSets, NoneShorter, HasRoomAt, IsPutAt};

use crate::key_set::{KeySet, words_for};
use rail_model::OutOfMemory;
use std::alloc::Global;
use std::marker::Model;

// A set at each key, seen as the list of the sets by key. A set without keys need take no memory.
#[derive(Drop)]
pub(crate) struct KeySets {
    alloc: Global,
    sets: Vec<KeySet>,
}

impl Model for KeySets {
    ghost use Rattle.std.specs.Prelude.{ℕ, List};

    ghost Value = { List (List ℕ) };

    ghost view = { λ s. s.sets.items };
}

impl KeySets {
    // Sets without keys, which ask for no memory.
    pub(crate) fn new(alloc: Global) -> Self
        ensures { result ≡ [] }
    {
        KeySets {
            alloc,
            sets: Vec::new(alloc),
        }
    }

    // The words of the set at a key.
    pub(crate) fn words(&self, at: usize) -> &[u64]
        ensures { result.now ≡ slice_index_or self.now at [] }
    {
        match self.sets.get(at) {
            Some(set) => set.words(),
            None => &[],
        }
    }

    // Makes room for this many words in the set at a key; no set changes. Most sets have room.
    #[inline]
    pub(crate) fn make_room(&mut self, at: usize, words: usize) -> Result<(), OutOfMemory>
        ensures same { SameSets self.old self.new }
        ensures longer { NoneShorter self.old self.new }
        ensures room { OnOk result (words ≤ words_of self.new at) }
    {
        if self.words(at).len() >= words {
            return Ok(());
        }
        self.widen(at, words)
    }

    // Makes the room where the set has fewer words. It stands apart, so that the test alone is
    // inlined.
    #[inline(never)]
    fn widen(&mut self, at: usize, words: usize) -> Result<(), OutOfMemory>
        ensures same { SameSets self.old self.new }
        ensures longer { NoneShorter self.old self.new }
        ensures room { OnOk result (words ≤ words_of self.new at) }
    {
        grow(self.alloc, &mut self.sets, at)?;
        let set = &mut self.sets[at];
        set.make_room(words)
    }

    // Puts a key into the set at another.
    pub(crate) fn put(&mut self, at: usize, key: usize)
        requires { key / 64 < words_of self.old at }
        ensures put { (x r : ℕ) → has self.new x r ≡ ((at == x && r == key) || has self.old x r) }
        ensures longer { NoneShorter self.old self.new }
    {
        let set = &mut self.sets[at];
        set.put(key);
    }

    // Makes room for a key in the sets at others; no set changes.
    pub(crate) fn make_room_at(&mut self, places: &[usize], key: usize) -> Result<(), OutOfMemory>
        ensures same { SameSets self.old self.new }
        ensures room { OnOk result (HasRoomAt (λ q. q) places.now key self.new) }
    {
        let words = words_for(key);
        for at in places {
            self.make_room(*at, words)?;
        }
        Ok(())
    }

    // Puts a key into the sets at others.
    pub(crate) fn put_at(&mut self, places: &[usize], key: usize)
        requires { HasRoomAt (λ q. q) places.now key self.old }
        ensures { IsPutAt (λ q. q) places.now key self.old self.new }
    {
        for at in places {
            self.put(*at, key);
        }
    }

    // Takes a key out of the set at another.
    pub(crate) fn take(&mut self, at: usize, key: usize)
        ensures taken { (x r : ℕ)
            → has self.new x r ≡ (not (at == x && r == key) && has self.old x r) }
        ensures longer { NoneShorter self.old self.new }
    {
        if at < self.sets.len() {
            let set = &mut self.sets[at];
            set.take(key);
        }
    }

    // Puts the keys of a set, given by its words, into the set at a key.
    pub(crate) fn put_all(&mut self, at: usize, keys: &[u64])
        requires { length keys.now ≤ words_of self.old at }
        ensures { (x r : ℕ) → has self.new x r ≡ ((at == x && holds keys.now r) || has self.old x r) }
    {
        if at < self.sets.len() {
            let set = &mut self.sets[at];
            set.put_all(keys);
        }
    }

    // Takes the keys of a set, given by its words, out of the set at a key.
    pub(crate) fn take_all(&mut self, at: usize, keys: &[u64])
        ensures taken { (x r : ℕ)
            → has self.new x r ≡ (not (at == x && holds keys.now r) && has self.old x r) }
        ensures longer { NoneShorter self.old self.new }
    {
        if at < self.sets.len() {
            let set = &mut self.sets[at];
            set.take_all(keys);
        }
    }

    // A copy of the sets.
    pub(crate) fn copy(&self) -> Result<Self, OutOfMemory>
        ensures { IfOk result (λ other. other ≡ self.now) }
    {
        Ok(KeySets {
            alloc: self.alloc,
            sets: self.sets.clone()?,
        })
    }
}

// Adds sets without keys until there is one at the key.
fn grow(alloc: Global, sets: &mut Vec<KeySet>, at: usize) -> Result<(), OutOfMemory>
    ensures same { (x : ℕ) → slice_index_or sets.new.items x [] ≡ slice_index_or sets.old.items x [] }
    ensures within { OnOk result (at < length sets.new.items) }
{
    while sets.len() <= at {
        sets.push(KeySet::new(alloc))?;
    }
    Ok(())
}
