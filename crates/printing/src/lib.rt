// What the programs print on standard output: text, numbers, the cells of a row and a refusal.

#![tactic(auto)]

use calendar::Calendar;
use std::io;

pub fn print(rt: &impl Print, text: &[u8]) -> io::Result<()> {
    rt.write_all(text)
}

// v in decimal.
pub fn print_number(rt: &impl Print, v: i64) -> io::Result<()> {
    rt.print(v)
}

pub fn print_count(rt: &impl Print, n: usize) -> io::Result<()> {
    rt.print(n)
}

pub fn moved(label: i32, down: u32, up: u32) -> i64 {
    i64::from(label) - i64::from(down) + i64::from(up)
}

// A cell of a row, with its label moved down and up; "." for no label.
fn print_cell(rt: &impl Print, cell: i32, down: u32, up: u32) -> io::Result<()> {
    if cell == Calendar::EMPTY {
        print(rt, b".")
    } else {
        print_number(rt, moved(cell, down, up))
    }
}

// The first n cells, with each label moved down and up.
pub fn print_turn(rt: &impl Print, cells: &[i32], n: usize, down: u32, up: u32) -> io::Result<()> {
    for &cell in cells.iter().take(n) {
        print(rt, b" ")?;
        print_cell(rt, cell, down, up)?;
    }
    Ok(())
}

// The number of a refusal, and the entry that it is for.
pub fn print_refusal(rt: &impl Print, number: u32, entry: u32) -> io::Result<()> {
    print(rt, b"refused ")?;
    rt.print(number)?;
    print(rt, b" at ")?;
    rt.print(entry)?;
    print(rt, b"\n")
}
