// Converts stored tables and prints what comes of each: its refusal, or a line for each row with period, distance, slots and cells, "." for no label. The
// tables and what is to be printed are written by the second implementation (rust/compare/src/vectors.rs).

#![tactic(auto)]

use conversion::{ConversionError, HEADING_LENGTH};
use printing::{print, print_refusal, print_turn};
use std::io;

mod tables;

// How many numbers an entry of a table has.
const ENTRY_LENGTH: usize = 6;

// The row of a heading.
fn print_row(rt: &impl Print, heading: &[u32], pool: &[i32]) -> io::Result<()> {
    let &[start, period, distance, granules] = heading else {
        return Ok(());
    };
    print!(rt; "{period} {distance} {granules}")?;
    if let Some(cells) = pool.get(start as usize..) {
        print_turn(rt, cells, period as usize, 0, 0)?;
        print(rt, b"\n")?;
    }
    Ok(())
}

// The rows of these headings.
fn print_rows(rt: &impl Print, headings: &[u32], pool: &[i32]) -> io::Result<()> {
    for heading in headings.chunks_exact(HEADING_LENGTH) {
        print_row(rt, heading, pool)?;
    }
    Ok(())
}

// Converts a table and prints what comes of it.
fn print_table(
    rt: &impl Print,
    table: &[i32],
    headings: &mut [u32],
    pool: &mut [i32],
) -> io::Result<()> {
    match conversion::convert(table, &mut *headings, &mut *pool) {
        Err(ConversionError { number, entry }) => print_refusal(rt, number, entry),
        Ok(()) => {
            let n = table.len() / ENTRY_LENGTH * HEADING_LENGTH;
            if n <= headings.len() {
                print_rows(rt, &headings[..n], &pool[..])?;
            }
            Ok(())
        }
    }
}

// The table number i, with lists of these lengths that are not clean before.
fn print_case(
    rt: &impl Print,
    i: usize,
    table: &[i32],
    headings: usize,
    cells: usize,
) -> io::Result<()> {
    let mut numbers = [1u32; tables::HEADINGS];
    let mut pool = [1i32; tables::CELLS];
    print!(rt; "table {i}\n")?;
    if headings <= tables::HEADINGS && cells <= tables::CELLS {
        print_table(rt, table, &mut numbers[..headings], &mut pool[..cells])?;
    }
    Ok(())
}

// All tables, which stand one behind the other, by their sizes: of each its length and those of its headings and its pool.
fn print_cases(rt: &impl Print, numbers: &[i32], sizes: &[usize]) -> io::Result<()> {
    let mut rest = numbers;
    for (i, size) in sizes.chunks_exact(3).enumerate() {
        let Some((table, behind)) = rest.split_at_checked(size[0]) else {
            return Ok(());
        };
        print_case(rt, i, table, size[1], size[2])?;
        rest = behind;
    }
    Ok(())
}

fn main(rt: HostRuntime) -> io::Result<()> {
    let numbers = tables::NUMBERS;
    let sizes = tables::SIZES;
    print_cases(&rt, &numbers, &sizes)
}
