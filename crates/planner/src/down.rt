// The slots of one entry that make up a slot of another.

use crate::arguments::{entry_at, number_at};
use crate::refusals;
use crate::row::Row;
use printing::print;
use std::io;
use std::rt::Env;

// How many parts a slot may have here.
const PARTS: usize = 65536;

// The entry, the slot and the entry of its parts, as asked.
fn asked<'a>(
    rt: &(impl Env + Eprint),
    headings: &[u32],
    pool: &'a [i32],
) -> Option<(Row<'a>, i64, Row<'a>)> {
    let row = entry_at(rt, 2, headings, pool)?;
    let label = number_at(rt, 3)?;
    let of = entry_at(rt, 4, headings, pool)?;
    Some((row, label, of))
}

fn print_down(rt: &(impl Print + Eprint), row: Row, label: i64, of: Row) -> io::Result<()> {
    let mut parts = [0i64; PARTS];
    let Some(n) = refusals::answered(rt, row.down(label, &mut parts, of)) else {
        return Ok(());
    };
    print(rt, b"slots")?;
    for part in parts.iter().take(n) {
        print!(rt; " {part}")?;
    }
    print(rt, b"\n")
}

pub fn run(rt: &(impl Env + Print + Eprint), headings: &[u32], pool: &[i32]) -> io::Result<()> {
    match asked(rt, headings, pool) {
        Some((row, label, of)) => print_down(rt, row, label, of),
        None => Ok(()),
    }
}
