// A month among the weeks: which day stands in which place, Monday first.

use crate::row::Row;
use calendar::Refusal;
use printing::print;
use std::io;

// A month whose first day stands in the column `first`, Monday being 0, and that has `last` days.
#[derive(Clone, Copy)]
pub struct Month {
    pub year: i64,
    pub month: i64,
    pub first: u32,
    pub last: u32,
}

fn exists(year: i64, month: i64, day: i64) -> bool {
    dates::instant_of(year, month, day).is_ok()
}

// The instant of a date; 0 where there is no such date.
pub fn instant_of(year: i64, month: i64, day: u32) -> i64 {
    dates::instant_of(year, month, i64::from(day)).unwrap_or(0)
}

// The first instant of the month `from`, where the given day of the month `to` is within the limits too.
pub fn first_of(year: i64, from: i64, to: i64, day: i64) -> Result<i64, Refusal> {
    dates::instant_of(year, to, day)?;
    dates::instant_of(year, from, 1)
}

// The last day of a month.
fn last_day(year: i64, month: i64) -> u32 {
    if exists(year, month, 31) {
        31
    } else if exists(year, month, 30) {
        30
    } else if exists(year, month, 29) {
        29
    } else {
        28
    }
}

// How many days a year has.
pub fn year_length(year: i64) -> u64 {
    if exists(year, 2, 29) { 366 } else { 365 }
}

// The column of an instant: instant 1 is a Monday.
fn column_of(t: i64) -> u32 {
    match integers::floor_mod(t, 7) {
        1 => 0,
        2 => 1,
        3 => 2,
        4 => 3,
        5 => 4,
        6 => 5,
        _ => 6,
    }
}

// The month that begins with the instant t.
pub fn month_from(year: i64, month: i64, t: i64) -> Month {
    Month {
        year,
        month,
        first: column_of(t),
        last: last_day(year, month),
    }
}

// Whether place i, counted from the first Monday's column on, is behind the month's last day.
pub fn is_behind(m: Month, i: u32) -> bool {
    m.first <= i && m.last <= i - m.first
}

// The day in place i, or 0 where there is none.
pub fn day_at(m: Month, i: u32) -> u32 {
    if m.first <= i && i - m.first < m.last {
        i - m.first + 1
    } else {
        0
    }
}

// The instant before.
fn before(t: i64) -> i64 {
    if -2000000000 < t { t - 1 } else { t }
}

// How many instants from `first` to `last` are open.
pub fn open_days(first: i64, last: i64, cells: &[i32], period: i64, distance: i64) -> u64 {
    match open_row::between(before(first), last, cells, period, distance) {
        Ok(n) => u64::try_from(n).unwrap_or(0),
        Err(_) => 0,
    }
}

// The same of a row.
pub(crate) fn open_in(first: i64, last: i64, row: Row) -> u64 {
    open_days(
        first,
        last,
        row.cells,
        i64::from(row.period),
        i64::from(row.distance),
    )
}

// The name of a month.
pub fn print_name(rt: &impl Print, month: i64) -> io::Result<()> {
    match month {
        1 => print(rt, b"January"),
        2 => print(rt, b"February"),
        3 => print(rt, b"March"),
        4 => print(rt, b"April"),
        5 => print(rt, b"May"),
        6 => print(rt, b"June"),
        7 => print(rt, b"July"),
        8 => print(rt, b"August"),
        9 => print(rt, b"September"),
        10 => print(rt, b"October"),
        11 => print(rt, b"November"),
        _ => print(rt, b"December"),
    }
}
