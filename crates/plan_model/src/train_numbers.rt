//! What is known of trains beside their names, in little memory.
ghost use Rattle.std.specs.Prelude.{◌≡◌, ◌<◌, ◌++◌, [], ◌∷◌, length, slice_index_or, map};
ghost use Rattle.std.specs.Prelude.{take, IfOk, IfSome, OnOk, OnErr};
ghost use Rattle.plan_model.specs.TrainNumbers.{no_numbers, long_of, numbers_in};

use crate::Tie;
use rail_model::OutOfMemory;
use std::alloc::Global;
use std::marker::Model;

// A train without its name.
#[derive(Clone, Copy)]
pub(crate) struct TrainNumbers {
    pub(crate) planned: i64,
    pub(crate) entry: i64,
    pub(crate) tie: Tie,
}

// Numbers of trains in order. Contracts see their list.
//
// A train takes 16 bytes, as long as the numbers of all fit into 32 bits, and else 32. The greatest
// number of a train counts as one that doesn't fit.
#[derive(Drop)]
pub(crate) struct NumbersList {
    kept: KeptNumbers,
}

#[derive(Drop)]
enum KeptNumbers {
    Short(Vec<ShortNumbers>),
    Long(Vec<TrainNumbers>),
}

// Stands for the train of a tie that has none.
const NO_TRAIN: u32 = u32::MAX;

// A train's numbers in 16 bytes, with the train and the block of its tie.
#[derive(Clone, Copy)]
struct ShortNumbers {
    planned: i32,
    entry: i32,
    train: u32,
    block: u32,
}

impl Model for NumbersList {
    ghost use Rattle.std.specs.Prelude.{List};
    ghost use Rattle.plan_model.specs.declared.train_numbers.TrainNumbers.{TrainNumbers};
    ghost use Rattle.plan_model.specs.TrainNumbers.{numbers_in};

    ghost Value = { List TrainNumbers };

    ghost view = { λ n. numbers_in n.kept };
}

impl NumbersList {
    // An empty list, with room for so many trains in the short form.
    pub(crate) fn with_capacity(alloc: Global, count: usize) -> Result<NumbersList, OutOfMemory>
        ensures { IfOk result (λ list. list ≡ []) }
    {
        Ok(NumbersList {
            kept: KeptNumbers::Short(Vec::with_capacity(alloc, count)?),
        })
    }

    // Puts the numbers of one train at the end. Without memory all stay as they were.
    pub(crate) fn push(&mut self, one: TrainNumbers) -> Result<(), OutOfMemory>
        ensures ok { OnOk result (self.new ≡ self.old ++ one ∷ []) }
        ensures err { OnErr result (self.new ≡ self.old) }
    {
        match &mut self.kept {
            KeptNumbers::Short(list) => match short_of(&one) {
                Some(short) => Ok(list.push(short)?),
                None => {
                    self.kept = KeptNumbers::Long(longer(list, one)?);
                    Ok(())
                }
            },
            KeptNumbers::Long(list) => Ok(list.push(one)?),
        }
    }

    // Of how many trains there are numbers.
    pub(crate) fn len(&self) -> usize
        ensures { result ≡ length self.now }
    {
        match &self.kept {
            KeptNumbers::Short(list) => list.len(),
            KeptNumbers::Long(list) => list.len(),
        }
    }

    // The numbers of the train at `i`.
    #[inline]
    pub(crate) fn at(&self, i: usize) -> TrainNumbers
        requires { i < length self.now }
        ensures { result ≡ slice_index_or self.now i no_numbers }
    {
        match &self.kept {
            KeptNumbers::Short(list) => long_of(list[i]),
            KeptNumbers::Long(list) => list[i],
        }
    }

    // Keeps the numbers of the first so many trains.
    pub(crate) fn truncate(&mut self, count: usize)
        ensures { self.new ≡ take count self.old }
    {
        match &mut self.kept {
            KeptNumbers::Short(list) => list.truncate(count),
            KeptNumbers::Long(list) => list.truncate(count),
        }
    }

    // Gives back the room that no train takes.
    pub(crate) fn shrink_to_fit(&mut self)
        ensures { self.new ≡ self.old }
    {
        match &mut self.kept {
            KeptNumbers::Short(list) => list.shrink_to_fit(),
            KeptNumbers::Long(list) => list.shrink_to_fit(),
        }
    }

    // The same numbers.
    pub(crate) fn copy(&self, alloc: Global) -> Result<NumbersList, OutOfMemory>
        ensures { IfOk result (λ other. other ≡ self.now) }
    {
        let kept = match &self.kept {
            KeptNumbers::Short(list) => KeptNumbers::Short(Vec::from_slice(alloc, list)?),
            KeptNumbers::Long(list) => KeptNumbers::Long(Vec::from_slice(alloc, list)?),
        };
        Ok(NumbersList { kept })
    }
}

// The short form of a train's numbers, where there is one. `None` says nothing: the long form
// follows.
fn short_of(one: &TrainNumbers) -> Option<ShortNumbers>
    ensures { IfSome result (λ short. long_of short ≡ one.now) }
{
    let (Ok(planned), Ok(entry)) = (i32::try_from(one.planned), i32::try_from(one.entry)) else {
        return None;
    };
    let (train, block) = match one.tie {
        Tie::Start => (NO_TRAIN, 0),
        Tie::After { train, block } if train != NO_TRAIN => (train, block),
        _ => return None,
    };
    Some(ShortNumbers {
        planned,
        entry,
        train,
        block,
    })
}

// The numbers of a train whose short form is this.
#[inline]
fn long_of(short: ShortNumbers) -> TrainNumbers
    ensures { result ≡ long_of short }
{
    let ShortNumbers {
        planned,
        entry,
        train,
        block,
    } = short;
    TrainNumbers {
        planned: planned as i64,
        entry: entry as i64,
        tie: if train == NO_TRAIN {
            Tie::Start
        } else {
            Tie::After { train, block }
        },
    }
}

// The long form of some numbers, and then those of one train more.
fn longer(list: &Vec<ShortNumbers>, one: TrainNumbers) -> Result<Vec<TrainNumbers>, OutOfMemory>
    ensures { IfOk result (λ all. all.items ≡ map long_of list.now.items ++ one ∷ []) }
{
    let mut all = all_long(*list.allocator(), list)?;
    all.push(one)?;
    Ok(all)
}

// The long form of some numbers.
fn all_long(alloc: Global, list: &[ShortNumbers]) -> Result<Vec<TrainNumbers>, OutOfMemory>
    ensures { IfOk result (λ all. all.items ≡ map long_of list.now) }
{
    let all = list.iter().map(|short| long_of(*short)).collect(alloc)?;
    Ok(all)
}
