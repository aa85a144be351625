// The conversion of a table with a record for each heading.

#![tactic(auto)]

ghost use Rattle.std.specs.Prelude.{◌≡◌, ◌*◌, length};
ghost use Rattle.calendar.specs.Limits.{entry_limit, heading_length};
ghost use Rattle.calendar.specs.Outcome.{outcome};
ghost use Rattle.calendar.specs.Stored.{pool_after, headings_after};
ghost use Rattle.conversion.specs.Answers.{answered};
ghost use Rattle.headings.specs.LeftRecords.{record_at, records_of, LeftRecords};

use calendar::ENTRY_LIMIT;
use conversion::{ConversionError, HEADING_LENGTH};

// The heading of an entry: where its row starts in the pool, its period and distance, and its granules per period.
#[derive(Clone, Copy)]
pub struct Heading {
    pub start: u32,
    pub period: u32,
    pub distance: u32,
    pub granules: u32,
}

// A conversion by value: its answer, and four numbers for each entry that a table may have.
#[derive(Clone, Copy)]
struct Made {
    answer: Result<(), ConversionError>,
    plain: [u32; HEADING_LENGTH * ENTRY_LIMIT],
}

// Converts a table for which so many headings are lent.
fn convert_made(table: &[i32], lent: usize, pool: &mut [i32]) -> Made
    ensures { (result.answer ≡ answered (outcome table.now lent (length pool.old)))
        × (result.plain ≡ headings_after (heading_length * entry_limit) (outcome table.now lent (length pool.old)))
        × (pool.new ≡ pool_after (length pool.old) (outcome table.now lent (length pool.old))) }
{
    let mut plain = [0; HEADING_LENGTH * ENTRY_LIMIT];
    let entries = if lent < ENTRY_LIMIT {
        lent
    } else {
        ENTRY_LIMIT
    };
    let answer = conversion::convert(table, &mut plain[..HEADING_LENGTH * entries], pool);
    Made { answer, plain }
}

// The i-th heading; those past the numbers are zero.
fn heading_at(numbers: &[u32; HEADING_LENGTH * ENTRY_LIMIT], i: usize) -> Heading
    ensures { result ≡ record_at numbers.now i }
{
    if i < ENTRY_LIMIT {
        let at = HEADING_LENGTH * i;
        Heading {
            start: numbers[at],
            period: numbers[at + 1],
            distance: numbers[at + 2],
            granules: numbers[at + 3],
        }
    } else {
        Heading {
            start: 0,
            period: 0,
            distance: 0,
            granules: 0,
        }
    }
}

// Writes every heading by its numbers.
pub fn write_all(headings: &mut [Heading], numbers: &[u32; HEADING_LENGTH * ENTRY_LIMIT])
    ensures { headings.new ≡ records_of numbers.now (length headings.old) }
{
    for (i, h) in headings.iter_mut().enumerate() {
        *h = heading_at(numbers, i);
    }
}

// Converts a table. Answered, the pool holds the least row of each entry and the headings say where; after a refusal every cell is empty and every
// heading is zero. Refuses 1, 2 and 3 for the lists, with entry 0, and 4 to 12 for the first entry that calls for it. Costs time in proportion to span and working period of each
// entry, and to its row for each divisor that is tried; no memory.
pub fn convert(
    table: &[i32],
    headings: &mut [Heading],
    pool: &mut [i32],
) -> Result<(), ConversionError>
    ensures { LeftRecords table.now (length headings.old) (length pool.old) result headings.new pool.new }
{
    let m = convert_made(table, headings.len(), pool);
    write_all(headings, &m.plain);
    m.answer
}
