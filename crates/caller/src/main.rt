// A caller of the core. It converts a table with heading records and with plain numbers, and asks each question, the
// first one by a reader too (asking.rt). Its code names `jogipahn` alone, beside what prints.

#![tactic(auto)]

ghost use Rattle.std.specs.Prelude.{◌≡◌};
ghost use Rattle.calendar.specs.Questions.{given, up_from_instant};
ghost use Rattle.questions.specs.Answers.{placed_reply};

use jogipahn::{ConversionError, Heading, Reader, Refusal};
use printing::{print, print_number, print_refusal, print_turn};
use std::io;

mod asking;

const ENTRIES: usize = 5;

// How many plain numbers a heading has: start, period, distance and slots per period.
const HEADING: usize = 4;

// The first calendar of README.md: days; weeks; the first 5 days of each week; these numbered from 1, the slots; 5 slots
// each, the working weeks.
const TABLE: [i32; 30] = [
    0, 0, 0, 0, 0, 0, 1, 0, 0, 7, 0, 0, 6, 0, 1, 1, 5, 0, 12, 2, 0, 1, 0, 0, 1, 3, 0, 5, 0, 0,
];

// What a conversion leaves in its headings, beside its answer.
#[derive(Clone, Copy)]
struct Converted {
    answer: Result<(), ConversionError>,
    headings: [Heading; ENTRIES],
}

// Converts with heading records, which are handed in and handed back by value.
fn convert_records(table: &[i32], headings: [Heading; ENTRIES], pool: &mut [i32]) -> Converted {
    let mut lent = headings;
    let answer = jogipahn::convert(table, &mut lent, pool);
    Converted {
        answer,
        headings: lent,
    }
}

// The slot of the instant t and its place there, by a reader.
fn read_up_instant(
    t: i64,
    cells: &[i32],
    period: i64,
    distance: i64,
) -> Result<Option<(i64, u64)>, Refusal>
    ensures { placed_reply result ≡ up_from_instant (given period distance cells.now) t }
{
    Reader {
        cells,
        period,
        distance,
    }
    .up_instant(t)
}

fn print_conversion(rt: &impl Print, answer: Result<(), ConversionError>) -> io::Result<()> {
    match answer {
        Ok(()) => print(rt, b"converted\n"),
        Err(ConversionError { number, entry }) => print_refusal(rt, number, entry),
    }
}

fn print_heading(rt: &impl Print, row: Heading, pool: &[i32]) -> io::Result<()> {
    print(rt, b"start ")?;
    print_number(rt, row.start as i64)?;
    print(rt, b", period ")?;
    print_number(rt, row.period as i64)?;
    print(rt, b", distance ")?;
    print_number(rt, row.distance as i64)?;
    print(rt, b", slots ")?;
    print_number(rt, row.granules as i64)?;
    print(rt, b":")?;
    print_turn(rt, asking::row_of(pool, row), row.period as usize, 0, 0)?;
    print(rt, b"\n")
}

// Converts with records: the table, and one whose entry 1 has no kind.
fn with_records(
    rt: &impl Print,
    table: &[i32],
    unknown: &[i32],
    pool: &mut [i32],
) -> io::Result<()> {
    let headings = [Heading {
        start: 9,
        period: 9,
        distance: 9,
        granules: 9,
    }; ENTRIES];
    let done = convert_records(table, headings, &mut *pool);
    let answer = done.answer;
    print_conversion(rt, answer)?;
    let rows = done.headings;
    print_heading(rt, rows[3], &*pool)?;
    asking::ask(rt, &*pool, rows[1], rows[3], rows[4])?;
    let refused = convert_records(unknown, headings, &mut *pool);
    let answer = refused.answer;
    print_conversion(rt, answer)?;
    let zeros = refused.headings;
    print_heading(rt, zeros[0], &*pool)
}

fn print_numbers(rt: &impl Print, distance: u32, granules: u32) -> io::Result<()> {
    print(rt, b"distance ")?;
    print_number(rt, distance as i64)?;
    print(rt, b", slots ")?;
    print_number(rt, granules as i64)?;
    print(rt, b"\n")
}

// Converts with plain numbers: the table, and for one number too few.
fn with_numbers(rt: &impl Print, table: &[i32], pool: &mut [i32]) -> io::Result<()> {
    let mut numbers = [1u32; HEADING * ENTRIES];
    print_conversion(rt, jogipahn::convert_plain(table, &mut numbers, &mut *pool))?;
    print_numbers(rt, numbers[HEADING * 3 + 2], numbers[HEADING * 3 + 3])?;
    let mut few = [1u32; HEADING * ENTRIES - 1];
    print_conversion(rt, jogipahn::convert_plain(table, &mut few, &mut *pool))
}

fn main(rt: HostRuntime) -> io::Result<()> {
    let table = TABLE;
    let unknown = [0, 0, 0, 0, 0, 0, 13, 0, 0, 0, 0, 0];
    let mut pool = [5i32; 40];
    with_records(&rt, &table, &unknown, &mut pool)?;
    with_numbers(&rt, &table, &mut pool)
}
