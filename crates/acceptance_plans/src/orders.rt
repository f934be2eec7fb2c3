//! The order of a section's trains, their disorder, the occupancy time, and its rate.
ghost use Rattle.std.specs.Prelude.{◌≤◌};
ghost use Rattle.plan_model.specs.declared.limits.TheConstants.{MEMBERS};
ghost use Rattle.plan_model.specs.Cut.{IsSoundCut};
ghost use Rattle.plan_model.specs.Members.{member_count};

use crate::cuts::put_names;
use occupancy_rate::{consumption, occupancy};
use plan_model::{Cut, Link};
use small_lines::{Text, number_of, small_number, word};
use std::alloc::Global;
use train_order::{Disorder, Order, order};

// A row of the positions in order, of two opposite trains and their places, or a row for each link
// of a ring.
pub(crate) fn write_order(alloc: Global, text: &mut Text, cut: &Cut)
    requires sound { IsSoundCut cut.now }
    requires few { member_count cut.now ≤ MEMBERS }
{
    match order(alloc, cut) {
        Ok(found) => put_order(text, &found),
        Err(_) => text.lose(),
    }
}

fn put_order(text: &mut Text, found: &Result<Order, Disorder>) {
    match found {
        Ok(order) => put_positions(text, order.positions.slice()),
        Err(
            Disorder::Opposite {
                first,
                second,
                block1,
                block2,
            },
        ) => {
            put_names(text, &[*first, *second, *block1, *block2]);
            text.put_line(b"opposite");
        }
        Err(Disorder::Ring(links)) => put_links(text, links.slice()),
    }
}

fn put_positions(text: &mut Text, positions: &[u32]) {
    for position in positions {
        text.show(b"", *position);
        text.put(b",");
    }
    text.put_line(b"order");
}

fn put_links(text: &mut Text, links: &[Link]) {
    for link in links {
        put_names(text, &[link.train, link.block, link.next]);
        text.put_line(b"link");
    }
}

// The occupancy time and the busiest block where both trains of a section enter at the moments of
// the case.
pub(crate) fn write_occupancy(text: &mut Text, line: &[u8], cut: &Cut)
    requires { IsSoundCut cut.now }
{
    if cut.rows.len() != 2 {
        return text.put_line(b"not two trains");
    }
    let (first, second) = (small_number(word(line, 1)), small_number(word(line, 2)));
    let (seconds, busiest) = occupancy(cut, &[i64::from(first), i64::from(second)]);
    text.show(b"", seconds);
    text.show_all(b" s, busiest ", &busiest);
    text.put(b"\n");
}

// The capacity consumption by an occupancy time, an additional time rate and a window's length, as
// a reduced fraction: its parts, its hundredths of a per cent, and whether it lies within the
// capacity.
pub(crate) fn write_rate(text: &mut Text, line: &[u8]) {
    let seconds = number_of(word(line, 1));
    let (add_percent, period_s) = (small_number(word(line, 2)), small_number(word(line, 3)));
    if period_s == 0 {
        return text.put_line(b"no window");
    }
    let rate = consumption(seconds, add_percent, period_s);
    text.show(b"", rate.num());
    text.show(b"/", rate.den());
    text.show(b", hundredths ", rate.hundredths_up());
    text.show(b", within ", rate.is_within());
    text.put(b"\n");
}
