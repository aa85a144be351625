// The check of finished lists with a record for each heading.

#![tactic(auto)]

ghost use Rattle.std.specs.Prelude.{◌≡◌, ◌*◌, ◌/◌, length, take};
ghost use Rattle.calendar.specs.Limits.{heading_length};
ghost use Rattle.headings.specs.Records.{numbers_of};
ghost use Rattle.verdicts.specs.Check as Check;
ghost use Rattle.heading_records.specs.Reading.{is_zero, none_read, read_next, at_most, ReadsAll, beyond};

use calendar::ENTRY_LIMIT;
use entries::ENTRY_LENGTH;
use headings::Heading;
use row_entry::HEADING_LENGTH;
use verdicts::Verdict;

// Headings by value: four numbers for each entry that a table may have, and whether all further headings are zero.
#[derive(Clone, Copy)]
pub struct Read {
    pub numbers: [u32; HEADING_LENGTH * ENTRY_LIMIT],
    pub zero: bool,
}

// No heading is read.
fn none_read() -> Read
    ensures { result ≡ none_read }
{
    let numbers = [0; HEADING_LENGTH * ENTRY_LIMIT];
    Read {
        numbers,
        zero: true,
    }
}

// Whether a heading is zero.
fn is_zero(h: Heading) -> bool
    ensures { result ≡ is_zero h }
{
    if h.start != 0 {
        return false;
    }
    if h.period != 0 {
        return false;
    }
    if h.distance != 0 {
        return false;
    }
    h.granules == 0
}

// The i-th heading is read, behind those before it.
fn read_next(read: Read, i: usize, h: Heading) -> Read
    ensures { result ≡ read_next read i h }
{
    if i < ENTRY_LIMIT {
        let at = HEADING_LENGTH * i;
        let mut numbers = read.numbers;
        numbers[at] = h.start;
        numbers[at + 1] = h.period;
        numbers[at + 2] = h.distance;
        numbers[at + 3] = h.granules;
        return Read {
            numbers,
            zero: read.zero,
        };
    }
    if is_zero(h) {
        return read;
    }
    let numbers = read.numbers;
    Read {
        numbers,
        zero: false,
    }
}

// Reads every heading.
pub fn read_all(headings: &[Heading]) -> Read
    ensures { ReadsAll headings.now result }
{
    let mut read = none_read();
    for (i, h) in headings.iter().enumerate() {
        read = read_next(read, i, *h);
    }
    read
}

// Checks rows and headings that are read, of which so many are lent.
fn check_read(table: &[i32], read: Read, lent: usize, pool: &[i32]) -> Verdict
    ensures { result ≡ beyond read.zero (length table.now / 6) (Check.check table.now (take (heading_length * at_most lent) read.numbers) pool.now) }
{
    let numbers = read.numbers;
    let entries = if lent < ENTRY_LIMIT {
        lent
    } else {
        ENTRY_LIMIT
    };
    let verdict = checking::check(table, &numbers[..HEADING_LENGTH * entries], pool);
    if read.zero {
        return verdict;
    }
    match verdict {
        Verdict::Accepted => Verdict::Wrong((table.len() / ENTRY_LENGTH) as u32),
        Verdict::Refused(number, k) => Verdict::Refused(number, k),
        Verdict::Wrong(k) => Verdict::Wrong(k),
    }
}

// Checks headings, a record for each entry, and rows that stand in a pool: accepted exactly when `convert` answers the table and would leave just these headings and
// cells in lists of these lengths. Refuses 1, 2 and 3 for the lists, with entry 0, and 4 to 12 as `convert` does, for the first entry that calls for it or whose heading or row
// is wrong; a refusal comes before what is wrong at the same entry. Wrong names that entry, or the number of entries where only the rest is wrong. Costs one pass over
// the headings, and time as `convert` does; no memory, and no list of its own.
pub fn check(table: &[i32], headings: &[Heading], pool: &[i32]) -> Verdict
    ensures { result ≡ Check.check table.now (numbers_of headings.now) pool.now }
{
    let read = read_all(headings);
    check_read(table, read, headings.len(), pool)
}
