//! The connections that bind members of a section, and the uses that they add.
ghost use Rattle.std.specs.Prelude.{◌≡◌, ◌+◌, ◌<◌, ◌≤◌, ℤ, pos, length, map, true, false, IfOk, IfSome, IfNone, OnOk};
ghost use Rattle.std.specs.List.{sum_by};
ghost use Rattle.rail_model.specs.declared.items.Leg.{Leg};
ghost use Rattle.rail_model.specs.declared.limits.TheConstants.{GREATEST_START_S, GREATEST_TIME_S, PATH_HOPS};
ghost use Rattle.blocking_time.specs.declared.motion.TheConstants.{GREATEST_DEPARTURE_S};
ghost use Rattle.rail_model.specs.Rules.{has_run};
ghost use Rattle.rail_model.specs.Tables.{number_of, run_at};
ghost use Rattle.plan_model.specs.Cut as cuts;
ghost use Rattle.section_cut.specs.Members.{members_of, members_by_run};
ghost use Rattle.section_cut.specs.Bound as bounds;

use crate::members::Member;
use line_tables::LineTables;
use plan_model::{CutRow, comes_before};
use rail_model::{Connection, List, Name, OutOfMemory, Run, Section, Use};
use std::alloc::Global;

// What binds two members: the rows of the first and the second run, the first run's entry, the
// moment until which it keeps the connection, and the second run's start: seconds from the
// timetable's origin.
#[derive(Clone, Copy)]
pub(crate) struct Bound {
    pub(crate) first_row: usize,
    pub(crate) second_row: usize,
    pub(crate) entry: i64,
    pub(crate) until: i64,
    pub(crate) start_s: u32,
}

// Adds the uses of the connections that bind to the members' rows, and gives the names of these
// connections.
pub(crate) fn connections(
    alloc: Global,
    tables: &LineTables,
    section: &Section,
    of_run: &[Option<Member>],
    rows: &mut List<CutRow>,
) -> Result<List<Name>, OutOfMemory>
    requires of_run { of_run.now ≡ members_by_run tables.now section.now }
    requires rows { map (λ r. r.name) rows.old
        ≡ map (λ r. r.name) (members_of tables.now section.now) }
    requires blocks { length section.now.blocks ≤ PATH_HOPS }
    ensures names { IfOk result (λ names. names
        ≡ map (λ c. c.name) (cuts.binding_connections tables.now section.now)) }
    ensures rows { OnOk result (rows.new ≡ map (bounds.with_connections tables.now section.now
        (cuts.binding_connections tables.now section.now)) rows.old) }
{
    let mut names = List::new(alloc);
    for number in 0..tables.connections() {
        let connection = tables.connection(number);
        if let Some(bound) = bound_by(tables, section, of_run, connection) {
            let place = section.blocks.len() + names.len();
            add_bound(rows, bound, place as u32)?;
            names.push(connection.name)?;
        }
    }
    Ok(names)
}

// What a connection binds, where it does: both its runs are members, and the first run's entry
// comes before the second run's start.
fn bound_by(
    tables: &LineTables,
    section: &Section,
    of_run: &[Option<Member>],
    connection: &Connection,
) -> Option<Bound>
    requires of_run { of_run.now ≡ members_by_run tables.now section.now }
    requires first { has_run tables.now connection.now.first ≡ true }
    requires second { has_run tables.now connection.now.second ≡ true }
    requires minimum { connection.now.minimum_s ≤ GREATEST_TIME_S }
    ensures some { IfSome result (bounds.IsBound tables.now section.now connection.now) }
    ensures none { IfNone result (cuts.binds tables.now section.now connection.now ≡ false) }
{
    let first = number_of_run(tables, &connection.first);
    let second = number_of_run(tables, &connection.second);
    let one = member(tables, section, of_run, &connection.first, first)?;
    let other = member(tables, section, of_run, &connection.second, second)?;
    let start_s = tables.run(second).start_s;
    if !comes_before(
        one.entry,
        &connection.first,
        i64::from(start_s),
        &connection.second,
    ) {
        return None;
    }
    Some(Bound {
        first_row: one.row,
        second_row: other.row,
        entry: one.entry,
        until: (last_arrival(tables, first) + u64::from(connection.minimum_s)) as i64,
        start_s,
    })
}

// The number of the run of a name.
pub(crate) fn number_of_run(tables: &LineTables, name: &Name) -> u32
    requires { has_run tables.now name.now ≡ true }
    ensures number { result ≡ number_of (λ r. r.name) tables.now.runs name.now }
    ensures in_range { result < length tables.now.runs }
{
    tables.run_number(name).unwrap()
}

// The member that the run of a name and a number is, if it is one.
fn member(
    tables: &LineTables,
    section: &Section,
    of_run: &[Option<Member>],
    name: &Name,
    number: u32,
) -> Option<Member>
    requires of_run { of_run.now ≡ members_by_run tables.now section.now }
    requires number { number ≡ number_of (λ r. r.name) tables.now.runs name.now }
    requires in_range { number < length tables.now.runs }
    ensures some { IfSome result (bounds.IsMember tables.now section.now name.now) }
    ensures none { IfNone result
        (cuts.is_member tables.now section.now (cuts.run_named tables.now name.now) ≡ false) }
{
    of_run[number as usize]
}

// When the run of a number comes to the end of its path: its start, and its running and dwell
// times.
pub(crate) fn last_arrival(tables: &LineTables, number: u32) -> u64
    requires { number < length tables.now.runs }
    ensures same { result ≡ cuts.last_arrival tables.now (run_at tables.now number) }
    ensures bounded { result ≤ GREATEST_DEPARTURE_S }
{
    tables.learn_sound();
    let run = tables.run(number);
    u64::from(run.start_s) + time_of(run)
}

// The running and dwell times of a run together: seconds.
fn time_of(run: &Run) -> u64
    requires { sum_by (λ (leg : Leg). leg.running_s + leg.dwell_s) run.now.legs
        ≤ GREATEST_DEPARTURE_S }
    ensures { result ≡ sum_by (λ (leg : Leg). leg.running_s + leg.dwell_s) run.now.legs }
{
    let mut seconds = 0;
    for leg in run.legs.slice() {
        seconds += u64::from(leg.running_s) + u64::from(leg.dwell_s);
    }
    seconds
}

// Adds the two uses of a connection that binds, which is the place of this number.
fn add_bound(rows: &mut List<CutRow>, bound: Bound, place: u32) -> Result<(), OutOfMemory>
    requires first { bound.first_row < length rows.old }
    requires second { bound.second_row < length rows.old }
    requires start { bound.start_s ≤ GREATEST_START_S }
    ensures { OnOk result (rows.new ≡ bounds.both_added rows.old bound place) }
{
    let first = Use {
        block: place,
        start: bound.entry,
        end: bound.until,
    };
    let start = i64::from(bound.start_s);
    let second = Use {
        block: place,
        start,
        end: start + 1,
    };
    add_use(rows, bound.first_row, first)?;
    add_use(rows, bound.second_row, second)
}

// Adds a use to a row.
fn add_use(rows: &mut List<CutRow>, row: usize, one: Use) -> Result<(), OutOfMemory>
    requires { row < length rows.old }
    ensures { OnOk result (rows.new ≡ bounds.use_added rows.old row one) }
{
    rows.get_mut(row).uses.push(one)
}
