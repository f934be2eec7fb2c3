//! The headways of all pairs of a cut's trains.
ghost use Rattle.std.specs.Prelude.{◌≡◌, ◌<◌, ◌≤◌, length, IfOk};
ghost use Rattle.plan_model.specs.declared.limits.TheConstants.{MEMBERS};
ghost use Rattle.plan_model.specs.Cut.{IsSoundCut};
ghost use Rattle.plan_model.specs.Members.{member_count, place_count};
ghost use Rattle.headway_table.specs.Table as tables;
ghost use Rattle.headway_table.specs.Starts as by_place;

use crate::row::headways_from;
use crate::starts::starts;
use plan_model::{Cut, SoundCut};
use rail_model::{List, OutOfMemory};
use rayon::prelude::*;
use std::alloc::Global;
use std::marker::Model;
use std::thread::Threads;

/// The headways of all pairs of a cut's trains. Contracts see a row for each train, with its
/// headway to each, in the order of the cut's rows.
#[derive(Drop)]
pub struct Headways {
    rows: Vec<List<Option<i64>>>,
}

impl Model for Headways {
    ghost use Rattle.std.specs.Prelude.{ℤ, List, Option};
    ghost use Rattle.headway_table.specs.Table.{IsSquare};

    ghost Value = { List (List (Option ℤ)) };

    ghost view = { λ h. h.rows.items };

    ghost invariant = { λ h. IsSquare h.rows.items };
}

impl Headways {
    /// The headway from the train of row `i` to that of row `j`, in seconds. None where they share
    /// no place, or are one.
    pub fn get(&self, i: u32, j: u32) -> Option<i64>
        requires first { i < length self.now }
        requires second { j < length self.now }
        ensures { result ≡ tables.field self.now i j }
    {
        self.rows[i as usize].slice()[j as usize]
    }
}

/// The headways of all pairs of the trains of a cut. The rows are made in parallel.
pub fn matrix(rt: &(impl Threads + Sync), alloc: Global, cut: &Cut) -> Result<Headways, OutOfMemory>
    requires sound { IsSoundCut cut.now }
    requires few { member_count cut.now ≤ MEMBERS }
    ensures { IfOk result (λ table. table ≡ tables.table_of cut.now) }
{
    let cut = SoundCut::of(cut);
    let starts = starts(alloc, &cut)?;
    Ok(Headways {
        rows: rows_of(rt, alloc, &cut, &starts)?,
    })
}

// The rows of the table, each made on its own.
fn rows_of(
    rt: &(impl Threads + Sync),
    alloc: Global,
    cut: &SoundCut,
    starts: &[List<i32>],
) -> Result<Vec<List<Option<i64>>>, OutOfMemory>
    requires starts { by_place.AreStarts (place_count cut.now) cut.now.rows starts.now }
    ensures { IfOk result (λ rows. rows.items ≡ tables.table_of cut.now) }
{
    (0..cut.member_count() as usize)
        .into_par_iter()
        .with_min_len(1)
        .map(
            |i: usize| -> Result<List<Option<i64>>, OutOfMemory>
                requires { (i < member_count cut.now) × (i < 4294967296)
                    × by_place.AreStarts (place_count cut.now) cut.now.rows starts.now }
                ensures { IfOk result (λ row. row ≡ tables.row_of cut.entry.now i) }
            { headways_from(alloc, cut, starts, i as u32) },
        )
        .collect::<Result<Vec<List<Option<i64>>>, OutOfMemory>>(rt, alloc)?
}
