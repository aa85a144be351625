// A year of an entry as a picture (SVG): a line of squares for each month, the weekdays one below the other; open days
// in the colour of their slot, closed days in light grey. Without a year the entry's period from instant 0 on, 28
// instants a line.

use crate::arguments::{entry_at, number_at};
use crate::row::Row;
use crate::show::{print_date, print_share};
use crate::{refusals, year};
use printing::{print, print_number};
use std::io;
use std::rt::Env;

// How many places a month has beside the others: 31 days behind at most 6.
const PLACES: u32 = 37;

// How many instants of a period are drawn.
const DRAWN: u32 = 1120;

// How many instants a line of a period has.
const LINE: u32 = 28;

// Eight colours that are told apart; neighbouring slots have different ones.
fn print_colour(rt: &impl Print, label: i64) -> io::Result<()> {
    match integers::floor_mod(label, 8) {
        0 => print(rt, b"#4477aa"),
        1 => print(rt, b"#ee6677"),
        2 => print(rt, b"#228833"),
        3 => print(rt, b"#ccbb44"),
        4 => print(rt, b"#66ccee"),
        5 => print(rt, b"#aa3377"),
        6 => print(rt, b"#ee7733"),
        _ => print(rt, b"#009988"),
    }
}

// The square of an instant, with its date or its number and its slot as a hint.
fn print_square(rt: &impl Print, x: u32, y: u32, t: i64, dated: bool, row: Row) -> io::Result<()> {
    let label = match row.up_instant(t) {
        Ok(Some((label, _))) => Some(label),
        _ => None,
    };
    print!(rt; "<rect width=\"12\" height=\"12\" x=\"{x}\" y=\"{y}\" fill=\"")?;
    match label {
        Some(label) => print_colour(rt, label)?,
        None => print(rt, b"#eeeeee\" stroke=\"#bbbbbb")?,
    }
    print(rt, b"\"><title>")?;
    if dated {
        print_date(rt, t)?;
    } else {
        print_number(rt, t)?;
    }
    match label {
        Some(label) => print!(rt; ": slot {label}")?,
        None => print(rt, b": closed")?,
    }
    print(rt, b"</title></rect>\n")
}

fn print_text(rt: &impl Print, x: u32, y: u32) -> io::Result<()> {
    print!(rt; "<text x=\"{x}\" y=\"{y}\">")
}

// Begins a picture of so many lines.
fn print_head(rt: &impl Print, lines: u32) -> io::Result<()> {
    print(
        rt,
        b"<svg xmlns=\"http://www.w3.org/2000/svg\" width=\"640\" height=\"",
    )?;
    if lines < 100 {
        rt.print(lines * 16 + 48)?;
    }
    print(
        rt,
        b"\" font-family=\"sans-serif\" font-size=\"11\" stroke-width=\"0.5\">\n",
    )
}

fn print_title(rt: &impl Print, row: Row) -> io::Result<()> {
    print_text(rt, 8, 20)?;
    print!(rt; "entry {}, period {}, ", row.entry, row.period)
}

// The month in a line of its own.
fn print_line(rt: &impl Print, year: i64, line: u8, row: Row) -> io::Result<()> {
    let month = i64::from(line);
    let y = u32::from(line) * 16 + 24;
    let m = year::month_from(year, month, year::instant_of(year, month, 1));
    print_text(rt, 8, y + 10)?;
    year::print_name(rt, month)?;
    print(rt, b"</text>\n")?;
    for i in 0..PLACES {
        let day = year::day_at(m, i);
        if day != 0 {
            let t = year::instant_of(year, month, day);
            print_square(rt, 88 + i * 14, y, t, true, row)?;
        }
    }
    Ok(())
}

fn print_year(rt: &impl Print, year: i64, row: Row) -> io::Result<()> {
    print_head(rt, 13)?;
    print_title(rt, row)?;
    print!(rt; "{year}: ")?;
    let first = year::instant_of(year, 1, 1);
    let last = year::instant_of(year, 12, 31);
    print_share(rt, year::open_in(first, last, row), year::year_length(year))?;
    print(rt, b"</text>\n")?;
    for line in 1..13 {
        print_line(rt, year, line, row)?;
    }
    print(rt, b"</svg>\n")
}

fn print_period(rt: &impl Print, row: Row) -> io::Result<()> {
    let n = row.period.min(DRAWN);
    print_head(rt, n / LINE + 1)?;
    print_title(rt, row)?;
    let open = year::open_in(1, i64::from(row.period), row);
    print_share(rt, open, u64::from(row.period))?;
    print(rt, b"</text>\n")?;
    for i in 0..n {
        print_square(
            rt,
            88 + i % LINE * 14,
            40 + i / LINE * 16,
            i64::from(i),
            false,
            row,
        )?;
    }
    print(rt, b"</svg>\n")
}

// The year, as asked; all of it is within the limits.
fn asked_year(rt: &(impl Env + Eprint)) -> Option<i64> {
    let year = number_at(rt, 3)?;
    refusals::answered(rt, year::first_of(year, 1, 12, 31))?;
    Some(year)
}

pub fn run(rt: &(impl Env + Print + Eprint), headings: &[u32], pool: &[i32]) -> io::Result<()> {
    let Some(row) = entry_at(rt, 2, headings, pool) else {
        return Ok(());
    };
    if !programs::is_given(rt, 3) {
        return print_period(rt, row);
    }
    match asked_year(rt) {
        Some(year) => print_year(rt, year, row),
        None => Ok(()),
    }
}
