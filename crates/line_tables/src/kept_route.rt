//! Routes as the tables keep them.
ghost use Rattle.std.specs.Prelude.{◌≡◌, All, IfOk};
ghost use Rattle.line_tables.specs.Links.{IsKey};
ghost use Rattle.line_tables.specs.KeptRoutes.{names_under, route_of};

use crate::linked::Linked;
use crate::named_table::NamedTable;
use rail_model::{List, Name, Named, OutOfMemory, Route, Signal};
use std::alloc::Global;

// A route's name. Its signals stand beside it by their keys, and their names follow from the keys:
// a line may have half a million of them, and only `LineTables::plain` reads them.
#[derive(Clone, Copy)]
pub(crate) struct KeptRoute {
    pub(crate) name: Name,
}

impl Named for KeptRoute {
    ghost label = { λ r. r.name };

    fn name(&self) -> &Name {
        &self.name
    }
}

// The plain route.
pub(crate) fn plain_route(
    alloc: Global,
    signals: &NamedTable<Linked<Signal>>,
    route: &Linked<KeptRoute>,
) -> Result<Route, OutOfMemory>
    requires { All (IsKey signals.now) route.now.refs }
    ensures { IfOk result (λ plain. plain ≡ route_of signals.now route.now) }
{
    Ok(Route {
        name: route.item.name,
        signals: names_of(alloc, signals, route.refs.slice())?,
    })
}

// The names of the signals under keys, in their order.
fn names_of(
    alloc: Global,
    signals: &NamedTable<Linked<Signal>>,
    keys: &[usize],
) -> Result<List<Name>, OutOfMemory>
    requires { All (IsKey signals.now) keys.now }
    ensures { IfOk result (λ names. names ≡ names_under signals.now keys.now) }
{
    let mut names = Vec::with_capacity(alloc, keys.len())?;
    for key in keys {
        names.push_reserved(signals.get(*key).item.name);
    }
    Ok(List::from_vec(names))
}
