// The conversion of a table in steps, with a record for each heading.

#![tactic(auto)]

ghost use Rattle.std.specs.Prelude.{◌≡◌, ◌*◌, ◌<◌, ◌^◌, take, drop};
ghost use Rattle.calendar.specs.Limits.{heading_length};
ghost use Rattle.headings.specs.Records.{numbers_of};
ghost use Rattle.heading_records.specs.Reading.{at_most};
ghost use Rattle.walks.specs.Walk as W;
ghost use Rattle.steps.specs.State.{progress_of, walk_of, Gives};
ghost use Rattle.walk_records.specs.Passing.{Begins, told_of, inner_of, has_ended, Passes, written};

use calendar::ENTRY_LIMIT;
use heading_records::Read;
use headings::Heading;
use row_entry::HEADING_LENGTH;
use steps::{Lengths, Progress, Walk};

// What a start or a call comes to, by value: the walk, four numbers for each entry that a table may have, and whether
// the headings are to stay as they are.
#[derive(Clone, Copy)]
struct Passed {
    walk: Walk,
    numbers: [u32; HEADING_LENGTH * ENTRY_LIMIT],
    kept: bool,
}

// Of so many headings no more than a table may have entries.
fn at_most(lent: usize) -> usize
    ensures { result ≡ at_most lent }
{
    if lent < ENTRY_LIMIT {
        return lent;
    }
    ENTRY_LIMIT
}

// The start of a walk for which so many headings are lent.
fn start_lent(table: &[i32], lent: usize, pool: &mut [i32]) -> Passed
    requires { heading_length * lent < 2 ^ 64 }
    ensures { Begins table.now lent pool.old result pool.new }
{
    let mut numbers = [0; HEADING_LENGTH * ENTRY_LIMIT];
    let first = HEADING_LENGTH * at_most(lent);
    let lengths = Lengths {
        table: table.len(),
        headings: HEADING_LENGTH * lent,
        pool: pool.len(),
    };
    let begun = steps::start(table, &mut numbers[..first], pool);
    let progress = begun.progress;
    let walk = Walk { lengths, progress };
    Passed {
        walk,
        numbers,
        kept: false,
    }
}

// The length of the first headings that a walk is told, which began with so many numbers of headings. It is another one
// where the headings lent have not that length, or one beyond the first is not zero: then the test of lengths fails.
fn told(began: usize, zero: bool, lent: usize) -> usize
    requires { heading_length * lent < 2 ^ 64 }
    ensures { result ≡ told_of began zero lent }
{
    let first = HEADING_LENGTH * at_most(lent);
    if !zero {
        return first + 1;
    }
    if began != HEADING_LENGTH * lent {
        return first + 1;
    }
    first
}

// Whether a walk has ended.
fn has_ended(progress: Progress) -> bool
    ensures { result ≡ has_ended (progress_of progress) }
{
    match progress {
        Progress::Due(_) => false,
        Progress::Done => true,
        Progress::Refused(_, _) => true,
    }
}

// One call over headings that are read, of which so many are lent.
fn step_read(walk: Walk, table: &[i32], read: Read, lent: usize, pool: &mut [i32]) -> Passed
    requires { heading_length * lent < 2 ^ 64 }
    ensures { Passes (walk_of walk).lengths
        (W.call (inner_of (walk_of walk) read.zero lent) table.now (take (heading_length * at_most lent) read.numbers) pool.old)
        (drop (heading_length * at_most lent) read.numbers) (has_ended (walk_of walk).progress) result pool.new }
{
    let mut numbers = read.numbers;
    let first = HEADING_LENGTH * at_most(lent);
    let lengths = walk.lengths;
    let progress = walk.progress;
    let inner = Walk {
        lengths: Lengths {
            table: lengths.table,
            headings: told(lengths.headings, read.zero, lent),
            pool: lengths.pool,
        },
        progress,
    };
    let kept = has_ended(progress);
    let stepped = steps::step(inner, table, &mut numbers[..first], pool);
    let next = stepped.progress;
    let after = Walk {
        lengths,
        progress: next,
    };
    Passed {
        walk: after,
        numbers,
        kept,
    }
}

// Writes every heading, unless they are to stay.
fn write_all(headings: &mut [Heading], p: Passed)
    ensures { headings.new ≡ written p headings.old }
{
    if p.kept {
        return;
    }
    headings::write_all(headings, &p.numbers);
}

// Begins a walk over a table, as `steps::start` does, with a record for each heading: refuses 1, 2 and 3, with entry 0;
// either way every cell is empty and every heading zero. The walk counts four numbers a heading. Costs a pass over both
// lists; no memory.
pub fn start(table: &[i32], headings: &mut [Heading], pool: &mut [i32]) -> Walk
    ensures { Gives (W.start table.now (numbers_of headings.old) pool.old) result (numbers_of headings.new) pool.new }
{
    let p = start_lent(table, headings.len(), pool);
    write_all(headings, p);
    p.walk
}

// One call of a walk, as `steps::step` is, with a record for each heading: tests the lists, and takes the entry that is
// due; a test that fails is refusal 13. A refusal is at the entry due and makes both lists empty. After the end and after
// a refusal a call changes nothing and answers the same. Costs two passes over the headings more than `steps::step`; no
// memory.
pub fn step(walk: Walk, table: &[i32], headings: &mut [Heading], pool: &mut [i32]) -> Walk
    ensures { Gives (W.call (walk_of walk) table.now (numbers_of headings.old) pool.old) result (numbers_of headings.new) pool.new }
{
    let read = heading_records::read_all(headings);
    let p = step_read(walk, table, read, headings.len(), pool);
    write_all(headings, p);
    p.walk
}
