//! The signals of a route, looked up once: for the rules, for the route's entry, for the counts and
//! for the sets.
ghost use Rattle.std.specs.Prelude.{◌≡◌, length, All, is_some, IfSome, IfOk};
ghost use Rattle.std.specs.List.{list_all};
ghost use Rattle.rail_model.specs.Rules.{is_named};
ghost use Rattle.line_tables.specs.Table.{IsTable};
ghost use Rattle.line_tables.specs.RouteSignals.{AreSignalsOf};

use crate::key_set::repeats;
use crate::linked::{Linked, blocks_of, known_keys};
use crate::named_table::NamedTable;
use rail_model::{List, Name, OutOfMemory, Signal};
use std::alloc::Global;

// The keys of a route's signals and of their blocks, in its order, and whether two signals are of
// one block.
#[derive(Drop)]
pub(crate) struct RouteSignals {
    pub(crate) keys: List<usize>,
    pub(crate) blocks: List<usize>,
    pub(crate) twice: bool,
}

// What is found of the signals of these names, if all are there.
pub(crate) fn route_signals(
    alloc: Global,
    signals: &NamedTable<Linked<Signal>>,
    names: &List<Name>,
) -> Result<Option<RouteSignals>, OutOfMemory>
    requires { All (λ e. length e.1.refs ≡ 1) signals.now }
    ensures known { IfOk result
        (λ found. is_some found ≡ list_all (is_named (λ e. e.1.item.name) signals.now) names.now) }
    ensures found { IfOk result (λ found. IfSome found (AreSignalsOf signals.now names.now)) }
    ensures table { IsTable (λ e. e.item.name) signals.now }
{
    let Some(keys) = known_keys(alloc, signals, names.slice())? else {
        return Ok(None);
    };
    let blocks = blocks_of(alloc, signals, keys.slice())?;
    let twice = repeats(alloc, blocks.slice())?;
    Ok(Some(RouteSignals {
        keys,
        blocks,
        twice,
    }))
}
