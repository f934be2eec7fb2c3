//! The trains of a compressed timetable, in little memory.
ghost use Rattle.std.specs.Prelude.{◌≡◌, ◌<◌, ◌++◌, [], ◌∷◌, length, slice_index_or, IfOk, OnOk, OnErr};
ghost use Rattle.plan_model.specs.PlacedList.{no_train};

use crate::train_numbers::{NumbersList, TrainNumbers};
use crate::{Placed, Tie};
use rail_model::{Names, OutOfMemory};
use std::alloc::Global;
use std::marker::Model;

/// Trains in order. Contracts see their list.
///
/// A train takes 16 bytes beside its name in `Names`, not the 104 of a `Placed`. Where a number of one
/// train of the list doesn't fit into 32 bits, each train takes 32.
#[derive(Drop)]
pub struct PlacedList {
    names: Names,
    // What is beside the names, in the same order.
    numbers: NumbersList,
}

impl Model for PlacedList {
    ghost use Rattle.std.specs.Prelude.{◌≡◌, List, length};
    ghost use Rattle.std.specs.Simd.Lanes.{zip2};
    ghost use Rattle.plan_model.specs.declared.answer.Placed.{Placed};

    ghost Value = { List Placed };

    ghost use Rattle.plan_model.specs.PlacedList.{with_name};

    ghost view = { λ p. zip2 with_name p.names p.numbers };

    ghost invariant = { λ p. length p.names ≡ length p.numbers };
}

impl PlacedList {
    /// No trains, with room for so many whose names have eight bytes.
    pub fn with_capacity(alloc: Global, count: usize) -> Result<PlacedList, OutOfMemory>
        ensures { IfOk result (λ list. list ≡ []) }
    {
        Ok(PlacedList {
            names: Names::with_capacity(alloc, count)?,
            numbers: NumbersList::with_capacity(alloc, count)?,
        })
    }

    /// Puts a train at the end. Without memory the trains stay as they were.
    pub fn push(&mut self, placed: &Placed) -> Result<(), OutOfMemory>
        ensures ok { OnOk result (self.new ≡ self.old ++ placed.now ∷ []) }
        ensures err { OnErr result (self.new ≡ self.old) }
    {
        let count = self.numbers.len();
        self.numbers.push(TrainNumbers {
            planned: placed.planned,
            entry: placed.entry,
            tie: placed.tie,
        })?;
        match self.names.push(&placed.train) {
            Ok(()) => Ok(()),
            Err(refused) => {
                self.numbers.truncate(count);
                Err(refused)
            }
        }
    }

    /// How many trains there are.
    pub fn len(&self) -> usize
        ensures { result ≡ length self.now }
    {
        self.numbers.len()
    }

    /// The train at `i`, with a `Name` made of its bytes. A loop over all trains is faster with
    /// `name`, `planned`, `entry` and `tie`.
    pub fn get(&self, i: usize) -> Placed
        requires { i < length self.now }
        ensures { result ≡ slice_index_or self.now i no_train }
    {
        let TrainNumbers {
            planned,
            entry,
            tie,
        } = self.numbers.at(i);
        Placed {
            train: self.names.get(i),
            planned,
            entry,
            tie,
        }
    }

    /// The bytes of the name of the train at `i`.
    pub fn name(&self, i: usize) -> &[u8]
        requires { i < length self.now }
        ensures { result.now ≡ (slice_index_or self.now i no_train).train }
    {
        self.names.bytes(i)
    }

    /// The entry of the train at `i` in the given timetable: seconds from the timetable's origin.
    pub fn planned(&self, i: usize) -> i64
        requires { i < length self.now }
        ensures { result ≡ (slice_index_or self.now i no_train).planned }
    {
        self.numbers.at(i).planned
    }

    /// The entry of the train at `i` in the compressed timetable: seconds from the timetable's
    /// origin.
    pub fn entry(&self, i: usize) -> i64
        requires { i < length self.now }
        ensures { result ≡ (slice_index_or self.now i no_train).entry }
    {
        self.numbers.at(i).entry
    }

    /// The tie of the train at `i`.
    pub fn tie(&self, i: usize) -> Tie
        requires { i < length self.now }
        ensures { result ≡ (slice_index_or self.now i no_train).tie }
    {
        self.numbers.at(i).tie
    }

    /// Gives back the room that no train takes.
    pub fn shrink_to_fit(&mut self)
        ensures { self.new ≡ self.old }
    {
        self.names.shrink_to_fit();
        self.numbers.shrink_to_fit();
    }

    /// The same trains.
    pub fn copy(&self, alloc: Global) -> Result<PlacedList, OutOfMemory>
        ensures { IfOk result (λ other. other ≡ self.now) }
    {
        Ok(PlacedList {
            names: self.names.clone()?,
            numbers: self.numbers.copy(alloc)?,
        })
    }
}
