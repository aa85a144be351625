// Converts a table of the slots of document 01 that are worked by hand, and prints their rows. Of each calendar it gives the period, the distance, the slots
// per period and the labels of three turns of its row: the turn before instant 0, the row itself and the next turn. "." is an instant with no label.

#![tactic(auto)]

use conversion::HEADING_LENGTH;
use printing::{print, print_turn};
use std::io;

// Kind, first, second, x, y and z of each entry.
const ENTRIES: [[i32; 6]; 15] = [
    [0, 0, 0, 0, 0, 0], // 0: bottom
    [1, 0, 0, 7, 0, 0], // 1: W, group 7 of 0
    [6, 0, 1, 1, 5, 0], // 2: B, select-down of 0 by 1
    [12, 2, 0, 1, 0, 0], // 3: C, renumber 2 at 1
    [12, 2, 0, 6, 0, 0], // 4: renumber 2 at 6
    [1, 3, 0, 5, 0, 0], // 5: group 5 of 3
    [1, 3, 0, 3, 0, 0], // 6: group 3 of 3
    [1, 0, 0, 2, 0, 0], // 7: group 2 of 0
    [6, 0, 7, 1, 1, 0], // 8: odd days, the first of each slot of 7
    [6, 0, 7, 2, 1, 0], // 9: even days, the second
    [9, 8, 9, 0, 0, 0], // 10: union of 8 and 9
    [3, 0, 7, 3, 2, 1], // 11: alter 0, 7
    [4, 1, 7, 0, 0, 0], // 12: combine 1 with 7
    [5, 0, 8, 0, 0, 0], // 13: anchor of 0 by 8
    [11, 0, 2, 0, 0, 0], // 14: 0 - 2
];

// Three turns of a row.
fn print_turns(rt: &impl Print, cells: &[i32], n: usize, distance: u32) -> io::Result<()> {
    print_turn(rt, cells, n, distance, 0)?;
    print(rt, b" |")?;
    print_turn(rt, cells, n, 0, 0)?;
    print(rt, b" |")?;
    print_turn(rt, cells, n, 0, distance)
}

// The row of a heading.
fn print_row(rt: &impl Print, name: &str, heading: &[u32], pool: &[i32]) -> io::Result<()> {
    let &[start, period, distance, granules] = heading else {
        return Ok(());
    };
    print!(rt; "{name}: period {period}, distance {distance}, slots {granules}\n   ")?;
    if let Some(cells) = pool.get(start as usize..) {
        print_turns(rt, cells, period as usize, distance)?;
    }
    print(rt, b"\n")
}

// The row of the entry k.
fn print_entry(
    rt: &impl Print,
    name: &str,
    k: usize,
    headings: &[u32],
    pool: &[i32],
) -> io::Result<()> {
    match headings.chunks_exact(HEADING_LENGTH).nth(k) {
        Some(heading) => print_row(rt, name, heading, pool),
        None => Ok(()),
    }
}

fn print_rows(rt: &impl Print, headings: &[u32], pool: &[i32]) -> io::Result<()> {
    print_entry(rt, "W = group 7 of bottom", 1, headings, pool)?;
    print_entry(
        rt,
        "B = select-down x=1 y=5 of bottom by W",
        2,
        headings,
        pool,
    )?;
    print_entry(rt, "C = renumber B at 1", 3, headings, pool)?;
    print_entry(rt, "renumber B at 6", 4, headings, pool)?;
    print_entry(rt, "group 5 of C", 5, headings, pool)?;
    print_entry(rt, "group 3 of C", 6, headings, pool)?;
    print_entry(rt, "odd days", 8, headings, pool)?;
    print_entry(rt, "even days", 9, headings, pool)?;
    print_entry(rt, "union of odd days and even days", 10, headings, pool)?;
    print_entry(rt, "alter bottom, group 2, x=3 y=2 z=1", 11, headings, pool)?;
    print_entry(rt, "combine W with group 2", 12, headings, pool)?;
    print_entry(rt, "anchor of bottom by odd days", 13, headings, pool)?;
    print_entry(rt, "bottom - B", 14, headings, pool)
}

// Converts the table and prints what comes of it.
fn print_table(
    rt: &impl Print,
    table: &[i32],
    headings: &mut [u32],
    pool: &mut [i32],
) -> io::Result<()> {
    match conversion::convert(table, &mut *headings, &mut *pool) {
        Err(_) => print(rt, b"refused\n"),
        Ok(()) => print_rows(rt, &headings[..], &pool[..]),
    }
}

fn main(rt: HostRuntime) -> io::Result<()> {
    let entries = ENTRIES;
    let mut headings = [0u32; HEADING_LENGTH * 15];
    let mut pool = [0i32; 128];
    print_table(&rt, entries.as_flattened(), &mut headings, &mut pool)
}
