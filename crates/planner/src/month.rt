// A month of an entry as a wall calendar: a line for each week, each day with the label of its slot, and "." for a
// closed day. Where labels are too wide for that, the days of a week stand in one line and their labels in the next.

use crate::arguments::{entry_at, number_at};
use crate::row::Row;
use crate::show::{print_share, width_of};
use crate::year::Month;
use crate::{refusals, year};
use printing::print;
use std::io;
use std::rt::Env;

// How many places the weeks of a month have at most.
const PLACES: u32 = 42;

// How many there are with a line for days and one for labels.
const HALVES: u32 = 84;

// The widest label that goes beside its day in a line of 80 bytes.
const WIDE: usize = 6;

// The width of the label of a day; 1 for ".".
fn label_width(m: Month, day: u32, row: Row) -> usize {
    match row.up_instant(year::instant_of(m.year, m.month, day)) {
        Ok(Some((label, _))) => width_of(label),
        _ => 1,
    }
}

// The width of the widest label of a month.
fn widest(m: Month, row: Row) -> usize {
    let mut width = 1;
    for i in 0..PLACES {
        width = width.max(label_width(m, year::day_at(m, i), row));
    }
    width
}

fn print_weekdays(rt: &impl Print, width: usize) -> io::Result<()> {
    for name in ["Mo", "Tu", "We", "Th", "Fr", "Sa", "Su"] {
        print!(rt; "{name:>width$}")?;
    }
    Ok(())
}

// The label of an instant, or ".", that ends so many bytes behind.
fn print_label(rt: &(impl Print + Eprint), t: i64, width: usize, row: Row) -> io::Result<()> {
    match refusals::answered(rt, row.up_instant(t)) {
        Some(Some((label, _))) => print!(rt; "{label:width$}"),
        Some(None) => print!(rt; "{:>width$}", "."),
        None => Ok(()),
    }
}

// What stands in place i: a day with its label, or blanks before the month. A week begins a line.
fn print_place(
    rt: &(impl Print + Eprint),
    m: Month,
    i: u32,
    width: usize,
    row: Row,
) -> io::Result<()> {
    if year::is_behind(m, i) {
        return Ok(());
    }
    if i % 7 == 0 {
        print(rt, b"\n")?;
    }
    let day = year::day_at(m, i);
    if day == 0 {
        return print!(rt; "     {:width$}", "");
    }
    print!(rt; "{day:4} ")?;
    print_label(rt, year::instant_of(m.year, m.month, day), width, row)
}

// What stands in place j where each week has a line of days and a line of labels.
fn print_half(
    rt: &(impl Print + Eprint),
    m: Month,
    j: u32,
    width: usize,
    row: Row,
) -> io::Result<()> {
    let i = j / 14 * 7 + j % 7;
    if year::is_behind(m, i) {
        return Ok(());
    }
    if j % 7 == 0 {
        print(rt, b"\n")?;
    }
    print(rt, b" ")?;
    let day = year::day_at(m, i);
    if day == 0 {
        print!(rt; "{:width$}", "")
    } else if j % 14 < 7 {
        print!(rt; "{day:width$}")
    } else {
        print_label(rt, year::instant_of(m.year, m.month, day), width, row)
    }
}

// The weeks, with the names of the days above.
fn print_body(rt: &(impl Print + Eprint), m: Month, width: usize, row: Row) -> io::Result<()> {
    if width <= WIDE {
        print_weekdays(rt, width + 5)?;
        for i in 0..PLACES {
            print_place(rt, m, i, width, row)?;
        }
    } else {
        print_weekdays(rt, width.saturating_add(1))?;
        for j in 0..HALVES {
            print_half(rt, m, j, width, row)?;
        }
    }
    Ok(())
}

fn print_month(rt: &(impl Print + Eprint), m: Month, row: Row) -> io::Result<()> {
    year::print_name(rt, m.month)?;
    print!(rt; " {}\n\n", m.year)?;
    print_body(rt, m, widest(m, row), row)?;
    print(rt, b"\n\n")?;
    let first = year::instant_of(m.year, m.month, 1);
    let last = year::instant_of(m.year, m.month, m.last);
    print_share(rt, year::open_in(first, last, row), u64::from(m.last))?;
    print(rt, b"\n")
}

// The month and the entry, as asked; all of the month is within the limits.
fn asked<'a>(
    rt: &(impl Env + Eprint),
    headings: &[u32],
    pool: &'a [i32],
) -> Option<(Month, Row<'a>)> {
    let year = number_at(rt, 2)?;
    let month = number_at(rt, 3)?;
    let row = entry_at(rt, 4, headings, pool)?;
    let first = refusals::answered(rt, year::first_of(year, month, month, 28))?;
    Some((year::month_from(year, month, first), row))
}

pub fn run(rt: &(impl Env + Print + Eprint), headings: &[u32], pool: &[i32]) -> io::Result<()> {
    match asked(rt, headings, pool) {
        Some((m, row)) => print_month(rt, m, row),
        None => Ok(()),
    }
}
