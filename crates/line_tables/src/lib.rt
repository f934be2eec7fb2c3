//! A line's tables, which take edits: items by name, with what each refers to found once.
//!
//! The table of a kind is one generic type, `NamedTable`. It has a `slab` of items under keys that
//! stay an item's own, the keys in the order of the items' names, and an `indexmap` from names to
//! keys. A put or a drop moves keys, not items. An item's number is its place in that order.
//!
//! When an item is put or changed, what it names is looked up, and its key is kept. A signal keeps
//! the key of its block, a route those of its signals, a run that of its route, a section those of
//! its blocks, and a connection those of its runs. So a path is made by indexing. For the paths of
//! many runs the hop beyond each signal is made once. A route is kept without the names of its
//! signals, which follow from the keys.
//!
//! Beside the tables stand counts and sets, which save walks over the tables:
//!
//! - how often each block, signal, route and run is referred to, for drops and changed routes;
//! - the routes that list a signal, and those that pass a block, for a signal that changes its
//!   block: two sets are compared.
//!
//! ```text
//! let mut tables = LineTables::new(alloc);
//! if let Err(rule) = tables.take(edit)? {
//!     // The tables are as before.
//! }
//! let path = tables.paths()?.path(run)?;
//! ```
#![tactic(auto)]

mod add;
mod edits;
mod kept_route;
mod key_counts;
mod key_set;
mod key_sets;
mod line_tables;
mod linked;
mod named_table;
mod passing;
mod path;
mod remove;
mod replace;
mod route_sets;
mod route_signals;
mod rules;
mod run_paths;

pub use line_tables::LineTables;
pub use run_paths::Paths;
