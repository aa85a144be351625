// The table on standard input, converted, and a command put to its rows.

use crate::{Command, finished};
use conversion::ConversionError;
use planner::{ask, down, late, month, picture, refusals};
use std::io;
use std::rt::{Env, Runtime};
use table_text::{TABLE_LENGTH, TEXT_LIMIT};

// How many cells the rows may take; those of the civil calendar take 332,046.
const POOL: usize = 1572864;

// Four numbers for each entry.
const HEADINGS: usize = 256;

fn answer(
    rt: &(impl Env + Print + Eprint),
    command: Command,
    headings: &[u32],
    pool: &[i32],
) -> io::Result<()> {
    match command {
        Command::Month => month::run(rt, headings, pool),
        Command::Picture => picture::run(rt, headings, pool),
        Command::Up => ask::up(rt, headings, pool),
        Command::Down => down::run(rt, headings, pool),
        Command::Late => late::run(rt, headings, pool),
        Command::Nth => ask::nth(rt, headings, pool),
        Command::Between => ask::between(rt, headings, pool),
        _ => Ok(()),
    }
}

// Converts with lists for the conversion. The pool's length is in its type, which spares a proof about all its cells.
fn ask_in(
    rt: &(impl Env + Print + Eprint),
    command: Command,
    table: &[i32],
    pool: &mut [i32; POOL],
) -> io::Result<()> {
    let mut headings = [0u32; HEADINGS];
    match conversion::convert(table, &mut headings, &mut *pool) {
        Ok(()) => answer(rt, command, &headings, &*pool),
        Err(ConversionError { number, entry }) => {
            refusals::tell_at(rt, number, entry);
            Ok(())
        }
    }
}

// A finished sheet is checked without a conversion. Not inlined, so that the commands that are not asked here spare the
// pool's stack.
#[inline(never)]
fn ask_table(rt: &impl Runtime, command: Command, table: &[i32]) -> io::Result<()> {
    if command == Command::Check {
        return finished::run(rt, table);
    }
    let mut pool = [0i32; POOL];
    ask_in(rt, command, table, &mut pool)
}

fn ask_text(rt: &impl Runtime, command: Command, text: &[u8]) -> io::Result<()> {
    let mut table = [0i32; TABLE_LENGTH];
    match table_text::read_table(text, &mut table) {
        Err(line) => {
            refusals::tell_at(rt, 19, line);
            Ok(())
        }
        Ok(n) => ask_table(rt, command, table.get(..n).unwrap_or(&table[..0])),
    }
}

// One byte more than a text may have is read, so that a longer one is seen.
pub(crate) fn ask(rt: &impl Runtime, command: Command) -> io::Result<()> {
    let mut text = [0u8; TEXT_LIMIT + 1];
    let n = programs::fill(&mut rt.reader(), &mut text)?;
    ask_text(rt, command, &text[..n])
}
