//! Which runs have connections; and those of one run in a section's cut: whether each binds after an
//! edit as before it, and the run's uses of those that bind.
ghost use Rattle.std.specs.Prelude.{◌≡◌, ◌+◌, ◌++◌, ◌≤◌, ◌<◌, true, false, All, filter, find, map, length, nat_lt, pos, is_some, IfOk, IfSome, Some, OnOk, option_map};
ghost use Rattle.std.specs.List.{filter_map};
ghost use Rattle.std.specs.Option.{option_copied, option_to_list};
ghost use Rattle.rail_model.specs.declared.limits.TheConstants.{CONNECTIONS, PATH_HOPS, GREATEST_TIME_S};
ghost use Rattle.rail_model.specs.Name.{NamesRise, is_same};
ghost use Rattle.rail_model.specs.Rules.{is_named, has_run};
ghost use Rattle.rail_model.specs.Tables.{number_of, run_at};
ghost use Rattle.plan_model.specs.Cut.{AreBlocksFirst};
ghost use Rattle.plan_model.specs.Cut as cuts;
ghost use Rattle.section_cut.specs.ReachedRuns.{IsTold};
ghost use Rattle.section_cut.specs.Connected.{joins, HasEntryOf, TellsEntries, IsOneOf, IsOfRuns, is_joined, with_told, row_beside, use_if_listed, with_bound, block_part};

use crate::connections::{last_arrival, number_of_run};
use crate::same_value::same_name;
use crate::stamps::{own_row, place_of};
use line_tables::LineTables;
use plan_model::{Cut, CutRow, comes_before};
use rail_model::{Connection, List, Name, OutOfMemory, Section, Use};
use std::alloc::Global;

// The connections of the run of a name.
pub(crate) fn joined_by(
    alloc: Global,
    tables: &LineTables,
    name: &Name,
) -> Result<List<Connection>, OutOfMemory>
    ensures { IfOk result (λ all. all ≡ filter (joins name.now) tables.now.connections) }
{
    let mut all = List::new(alloc);
    for number in 0..tables.connections() {
        let connection = tables.connection(number);
        if joins(connection, name) {
            all.push(*connection)?;
        }
    }
    Ok(all)
}

// For each run, in the order of the runs' names, whether it has a connection.
pub(crate) fn joined_runs(alloc: Global, tables: &LineTables) -> Result<Vec<bool>, OutOfMemory>
    ensures { IfOk result (λ told. IsTold (is_joined tables.now) tables.now.runs told.items) }
{
    tables.learn_sound();
    let mut told = vec![in alloc; false; tables.runs() as usize]?;
    for number in 0..tables.connections() {
        tell_joined(&mut told, tables, tables.connection(number));
    }
    Ok(told)
}

// Tells that the two runs of a connection have one.
fn tell_joined(told: &mut [bool], tables: &LineTables, connection: &Connection)
    requires count { length told.old ≡ length tables.now.runs }
    requires there { IsOfRuns tables.now connection.now }
    ensures { told.new ≡ with_told tables.now connection.now.second
        (with_told tables.now connection.now.first told.old) }
{
    told[number_of_run(tables, &connection.first) as usize] = true;
    told[number_of_run(tables, &connection.second) as usize] = true;
}

// Whether a connection is one of the run of a name.
fn joins(connection: &Connection, name: &Name) -> bool
    ensures { result ≡ joins name.now connection.now }
{
    connection.first == *name || connection.second == *name
}

// Whether each of a run's connections binds in a section by the tables after an edit of the run
// exactly where it is one of those that bind before it. The run's row after the edit is given, if
// it is a member, and the rows before it, which stay but for its own. `false` says nothing: the
// slow way follows.
pub(crate) fn bind_as_before(
    tables: &LineTables,
    old: &Cut,
    name: &Name,
    row: Option<&CutRow>,
    joined: &[Connection],
) -> bool
    requires rows { NamesRise (λ r. r.name) old.now.rows }
    requires names { NamesRise (λ n. n) old.now.connections }
    requires entries { TellsEntries tables.now old.now.section
        (row_beside name.now (option_copied row) old.now.rows) }
    requires there { All (IsOfRuns tables.now) joined.now }
    ensures { result ≡ true → All (λ c. cuts.binds tables.now old.now.section c
        ≡ is_named (λ n. n) old.now.connections c.name) joined.now }
{
    for connection in joined {
        let binds = binds_after(tables, old, name, row, connection);
        if binds != place_in(old.connections.slice(), &connection.name).is_some() {
            return false;
        }
    }
    true
}

// Whether a connection binds by the tables after an edit of a run.
fn binds_after(
    tables: &LineTables,
    old: &Cut,
    name: &Name,
    row: Option<&CutRow>,
    connection: &Connection,
) -> bool
    requires rows { NamesRise (λ r. r.name) old.now.rows }
    requires entries { TellsEntries tables.now old.now.section
        (row_beside name.now (option_copied row) old.now.rows) }
    requires there { IsOfRuns tables.now connection.now }
    ensures { result ≡ cuts.binds tables.now old.now.section connection.now }
{
    let rows = old.rows.slice();
    let first = row_beside(name, row, rows, &connection.first);
    let second = row_beside(name, row, rows, &connection.second);
    binds(tables, &old.section, first, second, connection)
}

// The row of the wanted name, if there is one: `row` where that is `name`, and otherwise the one among
// `rows`.
fn row_beside<'a>(
    name: &Name,
    row: Option<&'a CutRow>,
    rows: &'a [CutRow],
    wanted: &Name,
) -> Option<&'a CutRow>
    requires { NamesRise (λ r. r.name) rows.now }
    ensures { option_copied result
        ≡ row_beside name.now (option_copied row.entry) rows.now wanted.now }
{
    if same_name(wanted, name) {
        return row;
    }
    row_named(rows, wanted)
}

// The row of a name, if there is one.
pub(crate) fn row_named<'a>(rows: &'a [CutRow], name: &Name) -> Option<&'a CutRow>
    requires { NamesRise (λ r. r.name) rows.now }
    ensures { option_copied result ≡ find (λ r. is_same r.name name.now) rows.now }
{
    own_row(rows, name, place_of(rows, name))
}

// Whether a connection binds, by rows with the entries of its two runs, where these are members.
pub(crate) fn binds(
    tables: &LineTables,
    section: &Section,
    first: Option<&CutRow>,
    second: Option<&CutRow>,
    connection: &Connection,
) -> bool
    requires first { HasEntryOf tables.now section.now connection.now.first (option_copied first) }
    requires second { HasEntryOf tables.now section.now connection.now.second (option_copied second) }
    requires there { has_run tables.now connection.now.second ≡ true }
    ensures { result ≡ cuts.binds tables.now section.now connection.now }
{
    let Some(first) = first else {
        return false;
    };
    if second.is_none() {
        return false;
    }
    let start = i64::from(start_of(tables, &connection.second));
    comes_before(first.entry, &connection.first, start, &connection.second)
}

// When the run of a name starts: seconds from the origin.
fn start_of(tables: &LineTables, name: &Name) -> u32
    requires { has_run tables.now name.now ≡ true }
    ensures { result ≡ (cuts.run_named tables.now name.now).start_s }
{
    let number = tables.run_number(name).unwrap();
    tables.run(number).start_s
}

// The place of a name among names that rise, if it is there.
pub(crate) fn place_in(names: &[Name], name: &Name) -> Option<usize>
    requires { NamesRise (λ n. n) names.now }
    ensures there { is_some result ≡ is_named (λ n. n) names.now name.now }
    ensures number { IfSome result (λ k. k ≡ number_of (λ n. n) names.now name.now) }
    ensures in_range { IfSome result (λ k. k < length names.now) }
{
    match names.binary_search_by(|one| one.bytes().cmp(name.bytes())) {
        Ok(place) => Some(place),
        Err(_) => None,
    }
}

// The row of the run of a name with its uses of the connections that bind, if it is a member. Those
// that bind are told by their names.
pub(crate) fn with_joined(
    tables: &LineTables,
    old: &Cut,
    name: &Name,
    joined: &[Connection],
    row: Option<CutRow>,
) -> Result<Option<CutRow>, OutOfMemory>
    requires names { old.now.connections
        ≡ map (λ c. c.name) (cuts.binding_connections tables.now old.now.section) }
    requires joined { joined.now ≡ filter (joins name.now) tables.now.connections }
    requires there { IfSome row (λ _. has_run tables.now name.now ≡ true) }
    requires entry { has_run tables.now name.now ≡ true
        → HasEntryOf tables.now old.now.section name.now row }
    requires blocks { length old.now.section.blocks ≤ PATH_HOPS }
    ensures { IfOk result (λ made. made
        ≡ option_map (with_bound tables.now old.now.section (cuts.run_named tables.now name.now)) row) }
{
    let Some(mut row) = row else {
        return Ok(None);
    };
    tables.learn_sound();
    let number = tables.run_number(name).unwrap();
    add_joined(tables, old, number, joined, &mut row)?;
    Ok(Some(row))
}

// Adds to the row of the run of a number its uses of the connections that bind.
fn add_joined(
    tables: &LineTables,
    old: &Cut,
    number: u32,
    joined: &[Connection],
    row: &mut CutRow,
) -> Result<(), OutOfMemory>
    requires there { number < length tables.now.runs }
    requires rise { NamesRise (λ n. n) old.now.connections }
    requires few { length old.now.connections ≤ CONNECTIONS }
    requires blocks { length old.now.section.blocks ≤ PATH_HOPS }
    requires entry { row.old.entry
        ≡ cuts.entry_of tables.now old.now.section (run_at tables.now number) }
    requires joined { All (IsOneOf (run_at tables.now number).name) joined.now }
    ensures { OnOk result (row.new ≡ record row.old {
      uses = row.old.uses ++ filter_map (use_if_listed tables.now old.now.section
          old.now.connections (run_at tables.now number)) joined.now;
    }) }
{
    for connection in joined {
        add_if_listed(tables, old, number, connection, row)?;
    }
    Ok(())
}

// Adds its use of one of its connections, if that binds.
fn add_if_listed(
    tables: &LineTables,
    old: &Cut,
    number: u32,
    connection: &Connection,
    row: &mut CutRow,
) -> Result<(), OutOfMemory>
    requires there { number < length tables.now.runs }
    requires rise { NamesRise (λ n. n) old.now.connections }
    requires few { length old.now.connections ≤ CONNECTIONS }
    requires blocks { length old.now.section.blocks ≤ PATH_HOPS }
    requires entry { row.old.entry
        ≡ cuts.entry_of tables.now old.now.section (run_at tables.now number) }
    requires one { IsOneOf (run_at tables.now number).name connection.now }
    ensures { OnOk result (row.new ≡ record row.old {
      uses = row.old.uses ++ option_to_list (use_if_listed tables.now old.now.section
          old.now.connections (run_at tables.now number) connection.now);
    }) }
{
    let Some(k) = place_in(old.connections.slice(), &connection.name) else {
        return Ok(());
    };
    let place = (old.section.blocks.len() + k) as u32;
    let one = use_at(tables, &old.section, number, row.entry, connection, place);
    row.uses.push(one)
}

// The use of a connection at a place by the run of a number, which is one of its two.
fn use_at(
    tables: &LineTables,
    section: &Section,
    number: u32,
    entry: i64,
    connection: &Connection,
    place: u32,
) -> Use
    requires there { number < length tables.now.runs }
    requires entry { entry ≡ cuts.entry_of tables.now section.now (run_at tables.now number) }
    requires one { IsOneOf (run_at tables.now number).name connection.now }
    ensures { Some result
        ≡ cuts.connection_use tables.now section.now (run_at tables.now number) (place, connection.now) }
{
    tables.learn_sound();
    let run = tables.run(number);
    if same_name(&connection.first, &run.name) {
        return Use {
            block: place,
            start: entry,
            end: until(tables, number, connection),
        };
    }
    let start = i64::from(run.start_s);
    Use {
        block: place,
        start,
        end: start + 1,
    }
}

// Until when the run of a number keeps a connection as its first: the minimum after its last
// arrival.
pub(crate) fn until(tables: &LineTables, number: u32, connection: &Connection) -> i64
    requires there { number < length tables.now.runs }
    requires minimum { connection.now.minimum_s ≤ GREATEST_TIME_S }
    ensures { result ≡ pos (cuts.last_arrival tables.now (run_at tables.now number)
        + connection.now.minimum_s) }
{
    (last_arrival(tables, number) + u64::from(connection.minimum_s)) as i64
}

// Of a row's uses, if there is a row, those of the section's blocks: they stand before those of
// connections.
pub(crate) fn uses_of_blocks<'a>(section: &Section, row: Option<&'a CutRow>) -> Option<&'a [Use]>
    requires { IfSome (option_copied row)
        (λ r. AreBlocksFirst (length section.now.blocks) r.uses) }
    ensures { option_copied result
        ≡ option_map (λ r. block_part section.now r.uses) (option_copied row.entry) }
{
    let Some(row) = row else {
        return None;
    };
    Some(block_part(section, row.uses.slice()))
}

// Of uses those of a section's blocks, where they stand first.
pub(crate) fn block_part<'a>(section: &Section, uses: &'a [Use]) -> &'a [Use]
    requires { AreBlocksFirst (length section.now.blocks) uses.now }
    ensures { result.now ≡ block_part section.now uses.now }
{
    let blocks = section.blocks.len();
    let count = uses.partition_point(|one| is_below(one, blocks));
    &uses[..count]
}

// Whether a use is of a place below this one.
fn is_below(one: &Use, place: usize) -> bool
    ensures { result ≡ nat_lt one.now.block place }
{
    (one.block as usize) < place
}
