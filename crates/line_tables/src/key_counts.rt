//! How often the items of a table are referred to.
ghost use Rattle.std.specs.Prelude.{◌≡◌, ℕ, ◌+◌, ◌≤◌, ◌<◌, [], length, OnOk, IfOk};
ghost use Rattle.line_tables.specs.KeyCounts.{count_of, times, SameCounts, HasRoomFor, HasRoom};

use rail_model::OutOfMemory;
use std::alloc::Global;
use std::marker::Model;

// How often each key is referred to, seen as the list of counts by key.
//
// A count that would pass the greatest number of its type finds no memory.
#[derive(Drop)]
pub(crate) struct KeyCounts {
    counts: Vec<usize>,
}

impl Model for KeyCounts {
    ghost use Rattle.std.specs.Prelude.{ℕ, List};

    ghost Value = { List ℕ };

    ghost view = { λ u. u.counts.items };
}

impl KeyCounts {
    // No key is referred to.
    pub(crate) fn new(alloc: Global) -> Self
        ensures { result ≡ [] }
    {
        KeyCounts {
            counts: Vec::new(alloc),
        }
    }

    // How often a key is referred to.
    pub(crate) fn of(&self, key: usize) -> usize
        ensures { result ≡ count_of self.now key }
    {
        self.counts.get(key).copied().unwrap_or(0)
    }

    // Makes room to count each of these keys; no count changes.
    pub(crate) fn make_room(&mut self, keys: &[usize]) -> Result<(), OutOfMemory>
        ensures same { SameCounts self.old self.new }
        ensures room { OnOk result (HasRoom self.new keys.now) }
    {
        for key in keys {
            make_room_for(&mut self.counts, *key, keys.len())?;
        }
        Ok(())
    }

    // Counts each of these keys once more.
    pub(crate) fn add(&mut self, keys: &[usize])
        requires { HasRoom self.old keys.now }
        ensures { (k : ℕ) → count_of self.new k ≡ count_of self.old k + times k keys.now }
    {
        for key in keys {
            self.counts[*key] += 1;
        }
    }

    // Counts each of these keys once less.
    pub(crate) fn remove(&mut self, keys: &[usize])
        requires { (k : ℕ) → times k keys.now ≤ count_of self.old k }
        ensures { (k : ℕ) → count_of self.new k + times k keys.now ≡ count_of self.old k }
    {
        for key in keys {
            self.counts[*key] -= 1;
        }
    }

    // A copy of the counts.
    pub(crate) fn copy(&self) -> Result<Self, OutOfMemory>
        ensures { IfOk result (λ other. other ≡ self.now) }
    {
        Ok(KeyCounts {
            counts: self.counts.clone()?,
        })
    }
}

// Makes room for the count of a key to rise by `more`.
fn make_room_for(counts: &mut Vec<usize>, key: usize, more: usize) -> Result<(), OutOfMemory>
    ensures same { SameCounts counts.old.items counts.new.items }
    ensures longer { length counts.old.items ≤ length counts.new.items }
    ensures room { OnOk result (HasRoomFor counts.new.items more key) }
{
    grow(counts, key)?;
    if counts[key] > usize::MAX - more {
        return Err(OutOfMemory);
    }
    Ok(())
}

// Adds counts of 0 until the key has one.
pub(crate) fn grow(counts: &mut Vec<usize>, key: usize) -> Result<(), OutOfMemory>
    ensures same { SameCounts counts.old.items counts.new.items }
    ensures longer { length counts.old.items ≤ length counts.new.items }
    ensures within { OnOk result (key < length counts.new.items) }
{
    while counts.len() <= key {
        counts.push(0)?;
    }
    Ok(())
}
