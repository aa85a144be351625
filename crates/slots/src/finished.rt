// A finished sheet that somebody else sent, checked against a table: its lines are laid as rows and headings.

ghost use Rattle.std.specs.Prelude.{◌≤◌, length, IfOk};

use calendar::Calendar;
use planner::arguments::{digits, digits_behind, signed};
use planner::refusals;
use printing::print;
use sheet_text::SHEET_LIMIT;
use std::fs::{File, Files};
use std::io;
use std::rt::Runtime;
use verdicts::Verdict;

// How many cells the rows of a sheet take at most, how many entries a table has, and four numbers for each.
const POOL: usize = 4096;

const ENTRIES: usize = 64;

const HEADINGS: usize = 256;

const LINE_FEED: u8 = 10;

// A cell that was read, and where it ends.
#[derive(Clone, Copy)]
struct Cell {
    value: i32,
    end: usize,
}

// Where a line ends, and how many cells stand then.
#[derive(Clone, Copy)]
struct Laid {
    end: usize,
    used: usize,
}

// The labels of a row as far as it was looked at: how many there are, the first and the last.
#[derive(Clone, Copy)]
struct Seen {
    count: u32,
    first: i32,
    last: i32,
}

fn put<T: Copy>(list: &mut [T], i: usize, value: T) {
    if i < list.len() {
        list[i] = value;
    }
}

// A number of a heading; 0 for one that no heading has.
fn small(v: u64) -> u32 {
    if v <= 4194304 { v as u32 } else { 0 }
}

// A label as a cell; the greatest for one that no cell has.
fn narrow(v: i64) -> i32 {
    match i32::try_from(v) {
        Ok(cell) if Calendar::in_range(v) => cell,
        _ => 2147483647,
    }
}

// The digits of a label.
fn label_at(s: &[u8], at: usize, minus: bool) -> Cell {
    let label = digits(s, at);
    Cell {
        value: narrow(signed(minus, label.value)),
        end: label.end,
    }
}

// A label at `at`, with its sign, or ".".
fn word_at(s: &[u8], at: usize) -> Option<Cell> {
    match s.get(at) {
        None => None,
        Some(b'.') => Some(Cell {
            value: Calendar::EMPTY,
            end: at + 1,
        }),
        Some(b'-') => Some(label_at(s, at + 1, true)),
        Some(_) => Some(label_at(s, at, false)),
    }
}

// The cell behind a blank at `at`.
fn cell_at(s: &[u8], at: usize) -> Option<Cell> {
    if at < s.len() && s[at] == b' ' {
        word_at(s, at + 1)
    } else {
        None
    }
}

// Lays the cells from `from` up to the end of their line behind the first `start` cells; none where it is no row.
fn lay_cells(s: &[u8], from: usize, pool: &mut [i32], start: usize) -> Option<Laid> {
    let mut at = from;
    let mut used = start;
    while at < s.len() {
        if s[at] == LINE_FEED {
            return Some(Laid { end: at + 1, used });
        }
        let cell = cell_at(s, at)?;
        if cell.end <= at || POOL <= used {
            return None;
        }
        put(&mut *pool, used, cell.value);
        at = cell.end;
        used += 1;
    }
    None
}

// What is seen behind a further cell.
fn seen_behind(seen: Seen, cell: i32) -> Seen {
    if cell == Calendar::EMPTY {
        return seen;
    }
    if seen.count == 0 {
        return Seen {
            count: 1,
            first: cell,
            last: cell,
        };
    }
    if cell == seen.last || 4194304 < seen.count {
        return seen;
    }
    Seen {
        count: seen.count + 1,
        first: seen.first,
        last: cell,
    }
}

// The labels of the cells from `from` up to `end`.
fn labels_of(pool: &[i32], from: usize, end: usize) -> Seen {
    let mut seen = Seen {
        count: 0,
        first: 0,
        last: 0,
    };
    let until = end.min(pool.len());
    for &cell in &pool[from.min(until)..until] {
        seen = seen_behind(seen, cell);
    }
    seen
}

// The slots per period: the labels, less one where the last is the first of the next turn.
fn slots_of(seen: Seen, distance: u32) -> u32 {
    if seen.count < 2 {
        return seen.count;
    }
    if printing::moved(seen.first, 0, distance) == printing::moved(seen.last, 0, 0) {
        seen.count - 1
    } else {
        seen.count
    }
}

fn lay_heading(
    headings: &mut [u32],
    k: usize,
    start: usize,
    period: u32,
    distance: u32,
    slots: u32,
) {
    if k < ENTRIES {
        put(&mut *headings, 4 * k, small(start as u64));
        put(&mut *headings, 4 * k + 1, period);
        put(&mut *headings, 4 * k + 2, distance);
        put(&mut *headings, 4 * k + 3, slots);
    }
}

// Lays the line at `from` as the row of entry k.
fn lay_line(
    s: &[u8],
    from: usize,
    k: usize,
    used: usize,
    headings: &mut [u32],
    pool: &mut [i32],
) -> Option<Laid> {
    let period = digits(s, from);
    let distance = digits_behind(s, period.end, b' ');
    let laid = lay_cells(s, distance.end, &mut *pool, used)?;
    let per_turn = small(distance.value);
    let seen = labels_of(&*pool, used, laid.used);
    lay_heading(
        &mut *headings,
        k,
        used,
        small(period.value),
        per_turn,
        slots_of(seen, per_turn),
    );
    Some(laid)
}

// Lays each line: whether all are rows, at most 64.
fn lay_sheet(s: &[u8], headings: &mut [u32], pool: &mut [i32]) -> bool {
    let mut at = 0;
    let mut used = 0;
    for k in 0..ENTRIES {
        if s.len() <= at {
            return true;
        }
        let Some(laid) = lay_line(s, at, k, used, &mut *headings, &mut *pool) else {
            return false;
        };
        at = laid.end;
        used = laid.used;
    }
    s.len() <= at
}

fn print_verdict(rt: &(impl Print + Eprint), verdict: Verdict) -> io::Result<()> {
    match verdict {
        Verdict::Accepted => print(rt, b"accepted\n"),
        Verdict::Wrong(entry) => print!(rt; "wrong at {entry}\n"),
        Verdict::Refused(number, entry) => {
            refusals::tell_at(rt, number, entry);
            Ok(())
        }
    }
}

// What is told of a sheet with a line that is no row.
const NO_ROW: &str = "slots: the sheet has a line that is no row; give what slots rows prints\n";

fn check_sheet(rt: &(impl Print + Eprint), table: &[i32], sheet: &[u8]) -> io::Result<()> {
    let mut headings = [0u32; HEADINGS];
    let mut pool = [Calendar::EMPTY; POOL];
    if lay_sheet(sheet, &mut headings, &mut pool) {
        print_verdict(rt, checking::check(table, &headings, &pool))
    } else {
        let _ = rt.eprint(NO_ROW);
        Ok(())
    }
}

// Reads a file until the list is full or the file ends: how many bytes came.
fn read(rt: &impl Files, path: &str, bytes: &mut [u8]) -> io::Result<usize>
    ensures { IfOk result (λ n. n ≤ length bytes.new) }
{
    let mut file = File::open(rt, path)?;
    programs::fill(&mut file, bytes)
}

// Checks the sheet in a file.
fn check_file(
    rt: &(impl Files + Print + Eprint + Alloc),
    table: &[i32],
    path: &str,
) -> io::Result<()> {
    let mut sheet = [0u8; SHEET_LIMIT + 1];
    match read(rt, path, &mut sheet) {
        Ok(n) => check_sheet(rt, table, &sheet[..n]),
        Err(error) => {
            programs::tell_failure(rt, path, error);
            Ok(())
        }
    }
}

pub(crate) fn run(rt: &impl Runtime, table: &[i32]) -> io::Result<()> {
    let mut name = [0u8; programs::PATH_LIMIT];
    match programs::path_at(rt, 2, "SHEET", &mut name) {
        Some(path) => check_file(rt, table, path),
        None => Ok(()),
    }
}
