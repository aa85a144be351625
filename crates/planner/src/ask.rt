// The questions to an entry: the slot of a day or of a slot, the n-th open day and how many there are between two.

use crate::arguments::{entry_at, number_at, when_at};
use crate::refusals;
use crate::row::Row;
use crate::show::print_when;
use printing::print;
use std::io;
use std::rt::Env;

// The open instant so many on or back from a closed one.
fn print_step(rt: &(impl Print + Eprint), row: Row, t: i64, n: i64, dated: bool) -> io::Result<()> {
    match refusals::answered(rt, row.nth_open(t, n)) {
        Some(Some(open)) => print_when(rt, open, dated),
        Some(None) => print(rt, b"closed"),
        None => Ok(()),
    }
}

// What a closed instant has beside it.
fn print_closed(rt: &(impl Print + Eprint), t: i64, dated: bool, row: Row) -> io::Result<()> {
    print_when(rt, t, dated)?;
    print(rt, b": closed; last open ")?;
    print_step(rt, row, t, -1, dated)?;
    print(rt, b", next open ")?;
    print_step(rt, row, t, 1, dated)?;
    print(rt, b"\n")
}

// The slot of an instant.
fn up_instant(rt: &(impl Env + Print + Eprint), row: Row) -> io::Result<()> {
    let Some((t, dated)) = when_at(rt, 3) else {
        return Ok(());
    };
    match refusals::answered(rt, row.up_instant(t)) {
        Some(Some((label, place))) => {
            print_when(rt, t, dated)?;
            print!(rt; ": slot {label}, place {place}\n")
        }
        Some(None) => print_closed(rt, t, dated, row),
        None => Ok(()),
    }
}

// The slot of another entry that holds a slot, as asked.
fn asked_up(
    rt: &(impl Env + Eprint),
    row: Row,
    headings: &[u32],
    pool: &[i32],
) -> Option<Option<i64>> {
    let label = number_at(rt, 3)?;
    let of = entry_at(rt, 4, headings, pool)?;
    refusals::answered(rt, row.up_granule(label, of))
}

fn up_slot(
    rt: &(impl Env + Print + Eprint),
    row: Row,
    headings: &[u32],
    pool: &[i32],
) -> io::Result<()> {
    match asked_up(rt, row, headings, pool) {
        Some(Some(label)) => print!(rt; "slot {label}\n"),
        Some(None) => print(rt, b"no slot holds all of it\n"),
        None => Ok(()),
    }
}

pub fn up(rt: &(impl Env + Print + Eprint), headings: &[u32], pool: &[i32]) -> io::Result<()> {
    let Some(row) = entry_at(rt, 2, headings, pool) else {
        return Ok(());
    };
    if programs::is_given(rt, 4) {
        up_slot(rt, row, headings, pool)
    } else {
        up_instant(rt, row)
    }
}

// So many open instants on or back, as asked, and whether the answer is to be dated.
fn asked_nth(
    rt: &(impl Env + Eprint),
    headings: &[u32],
    pool: &[i32],
) -> Option<(Option<i64>, bool)> {
    let row = entry_at(rt, 2, headings, pool)?;
    let (t, dated) = when_at(rt, 3)?;
    let n = number_at(rt, 4)?;
    let step = refusals::answered(rt, row.nth_open(t, n))?;
    Some((step, dated))
}

pub fn nth(rt: &(impl Env + Print + Eprint), headings: &[u32], pool: &[i32]) -> io::Result<()> {
    match asked_nth(rt, headings, pool) {
        Some((Some(t), dated)) => {
            print_when(rt, t, dated)?;
            print(rt, b"\n")
        }
        Some((None, _)) => print(rt, b"closed\n"),
        None => Ok(()),
    }
}

// How many open instants there are between two, as asked.
fn asked_between(rt: &(impl Env + Eprint), headings: &[u32], pool: &[i32]) -> Option<i64> {
    let row = entry_at(rt, 2, headings, pool)?;
    let (from, _) = when_at(rt, 3)?;
    let (to, _) = when_at(rt, 4)?;
    refusals::answered(rt, row.between(from, to))
}

pub fn between(rt: &(impl Env + Print + Eprint), headings: &[u32], pool: &[i32]) -> io::Result<()> {
    match asked_between(rt, headings, pool) {
        Some(n) => print!(rt; "{n}\n"),
        None => Ok(()),
    }
}
