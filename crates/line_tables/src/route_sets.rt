//! Which routes list each signal, and which have a signal of each block.
ghost use Rattle.std.specs.Prelude.{◌≡◌, ◌≢◌, ◌≤◌, true, false, length, slice_index_or, All, [], OnOk, OnErr, IfOk};
ghost use Rattle.line_tables.specs.KeySet.{Meets, KeepsApart};
ghost use Rattle.line_tables.specs.Links.{block_of, IsKey};
ghost use Rattle.std.specs.List.{list_any};
ghost use Rattle.line_tables.specs.RouteSets.{has, words_of, SameSets, NoneShorter, HasRoomAt, IsPutAt, IsTakenAt, IsChangedAt, IsMoved};

use crate::key_set::{has_key, meet};
use crate::key_sets::KeySets;
use crate::linked::{Linked, block_of};
use crate::named_table::NamedTable;
use rail_model::{OutOfMemory, Signal};
use std::alloc::Global;

// At each signal's key the keys of the routes that list it, and at each block's key the keys of
// the routes that have a signal of it.
#[derive(Drop)]
pub(crate) struct RouteSets {
    pub(crate) of_signals: KeySets,
    pub(crate) of_blocks: KeySets,
}

impl RouteSets {
    // Sets without routes, which ask for no memory.
    pub(crate) fn new(alloc: Global) -> Self
        ensures signals { result.of_signals ≡ [] }
        ensures blocks { result.of_blocks ≡ [] }
    {
        RouteSets {
            of_signals: KeySets::new(alloc),
            of_blocks: KeySets::new(alloc),
        }
    }

    // Makes room to put the route under a key into the sets of these signals and of these blocks.
    // No set changes.
    pub(crate) fn make_room(
        &mut self,
        signals: &[usize],
        blocks: &[usize],
        route: usize,
    ) -> Result<(), OutOfMemory>
        ensures signals { SameSets self.old.of_signals self.new.of_signals }
        ensures blocks { SameSets self.old.of_blocks self.new.of_blocks }
        ensures signal_room { OnOk result
            (HasRoomAt (λ q. q) signals.now route self.new.of_signals) }
        ensures block_room { OnOk result
            (HasRoomAt (λ q. q) blocks.now route self.new.of_blocks) }
    {
        self.of_signals.make_room_at(signals, route)?;
        self.of_blocks.make_room_at(blocks, route)
    }

    // Puts the route under a key into the sets of these signals and of these blocks.
    pub(crate) fn put(&mut self, signals: &[usize], blocks: &[usize], route: usize)
        requires signal_room { HasRoomAt (λ q. q) signals.now route self.old.of_signals }
        requires block_room { HasRoomAt (λ q. q) blocks.now route self.old.of_blocks }
        ensures signals { IsPutAt (λ q. q) signals.now route
            self.old.of_signals self.new.of_signals }
        ensures blocks { IsPutAt (λ q. q) blocks.now route
            self.old.of_blocks self.new.of_blocks }
    {
        self.of_signals.put_at(signals, route);
        self.of_blocks.put_at(blocks, route);
    }

    // Takes the route under a key out of the sets of these signals and of their blocks.
    pub(crate) fn take(
        &mut self,
        signals: &NamedTable<Linked<Signal>>,
        refs: &[usize],
        route: usize,
    )
        requires there { All (IsKey signals.now) refs.now }
        requires one { All (λ e. length e.1.refs ≡ 1) signals.now }
        ensures signals { IsTakenAt (λ q. q) refs.now route self.old.of_signals self.new.of_signals }
        ensures blocks { IsTakenAt (block_of signals.now) refs.now route self.old.of_blocks self.new.of_blocks }
        ensures signals_longer { NoneShorter self.old.of_signals self.new.of_signals }
        ensures blocks_longer { NoneShorter self.old.of_blocks self.new.of_blocks }
    {
        for key in refs {
            self.of_signals.take(*key, route);
            self.of_blocks.take(block_of(signals, *key), route);
        }
    }

    // Takes the route under a key out of the sets of the signals that it had and of their blocks,
    // and puts it into those of other signals and blocks. Without memory no set changes.
    pub(crate) fn change(
        &mut self,
        signals: &NamedTable<Linked<Signal>>,
        old: &[usize],
        keys: &[usize],
        blocks: &[usize],
        route: usize,
    ) -> Result<(), OutOfMemory>
        requires there { All (IsKey signals.now) old.now }
        requires one { All (λ e. length e.1.refs ≡ 1) signals.now }
        ensures signals { OnOk result (IsChangedAt (λ q. q) old.now (λ q. q) keys.now route
            self.old.of_signals self.new.of_signals) }
        ensures blocks { OnOk result (IsChangedAt (block_of signals.now) old.now (λ q. q) blocks.now route
            self.old.of_blocks self.new.of_blocks) }
        ensures kept_signals { OnErr result (SameSets self.old.of_signals self.new.of_signals) }
        ensures kept_blocks { OnErr result (SameSets self.old.of_blocks self.new.of_blocks) }
    {
        self.make_room(keys, blocks, route)?;
        self.take(signals, old, route);
        self.put(keys, blocks, route);
        Ok(())
    }

    // Makes room to move the routes that list a signal to another block; no set changes.
    pub(crate) fn make_room_to_move(
        &mut self,
        signal: usize,
        from: usize,
        to: usize,
    ) -> Result<(), OutOfMemory>
        ensures signals { self.new.of_signals ≡ self.old.of_signals }
        ensures blocks { SameSets self.old.of_blocks self.new.of_blocks }
        ensures room { OnOk result
            (from ≢ to → words_of self.new.of_signals signal ≤ words_of self.new.of_blocks to) }
    {
        if from == to {
            return Ok(());
        }
        self.of_blocks
            .make_room(to, self.of_signals.words(signal).len())
    }

    // Moves the routes that list a signal from the set of one block into that of another.
    pub(crate) fn move_routes(&mut self, signal: usize, from: usize, to: usize)
        requires { from ≢ to → words_of self.old.of_signals signal ≤ words_of self.old.of_blocks to }
        ensures signals { self.new.of_signals ≡ self.old.of_signals }
        ensures stayed { from ≡ to → SameSets self.old.of_blocks self.new.of_blocks }
        ensures moved { from ≢ to → IsMoved (slice_index_or self.old.of_signals signal []) from to
            self.old.of_blocks self.new.of_blocks }
    {
        if from == to {
            return;
        }
        let routes = self.of_signals.words(signal);
        self.of_blocks.take_all(from, routes);
        self.of_blocks.put_all(to, routes);
    }

    // Whether some route lists a signal and has one of a block.
    fn meet(&self, signal: usize, block: usize) -> bool
        ensures some { result ≡ true → Meets
            (slice_index_or self.now.of_signals signal []) (slice_index_or self.now.of_blocks block []) }
        ensures none { result ≡ false → KeepsApart
            (slice_index_or self.now.of_signals signal []) (slice_index_or self.now.of_blocks block []) }
    {
        meet(self.of_signals.words(signal), self.of_blocks.words(block))
    }

    // Whether some route lists a signal and has one of the block to which it moves from another.
    pub(crate) fn meet_where_moved(&self, signal: usize, from: usize, to: usize) -> bool
        ensures stays { from ≡ to → result ≡ false }
        ensures some { from ≢ to → result ≡ true → Meets
            (slice_index_or self.now.of_signals signal [])
            (slice_index_or self.now.of_blocks to []) }
        ensures none { from ≢ to → result ≡ false → KeepsApart
            (slice_index_or self.now.of_signals signal [])
            (slice_index_or self.now.of_blocks to []) }
    {
        from != to && self.meet(signal, to)
    }

    // Whether the route under a key has a signal of one of these blocks.
    pub(crate) fn has_some(&self, blocks: &[usize], route: usize) -> bool
        ensures { result ≡ list_any (λ b. has self.now.of_blocks b route) blocks.now }
    {
        for block in blocks {
            if has_key(self.of_blocks.words(*block), route) {
                return true;
            }
        }
        false
    }

    // A copy of the sets.
    pub(crate) fn copy(&self) -> Result<Self, OutOfMemory>
        ensures { IfOk result (λ other. other ≡ self.now) }
    {
        Ok(RouteSets {
            of_signals: self.of_signals.copy()?,
            of_blocks: self.of_blocks.copy()?,
        })
    }
}
