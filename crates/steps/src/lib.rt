// The conversion of a table in steps: the start makes checks 1 to 3, and each call takes one entry.

#![tactic(auto)]

ghost use Rattle.std.specs.Prelude.{◌≡◌, true, ◌<◌, is_some, IfSome};
ghost use Rattle.calendar.specs.Limits.{entry_limit};
ghost use Rattle.standing.specs.Tests.{EndsAt};
ghost use Rattle.walks.specs.Walk as W;
ghost use Rattle.steps.specs.State.{lengths_in, progress_of, walk_of, Gives, behind};

use calendar::Refusal;
use conversion::HEADING_LENGTH;
use entries::ENTRY_LENGTH;

// How far a walk is: the entry due at the next call; the end; or a refusal, by its number and its entry. A walk with an entry due has more to do.
#[derive(Clone, Copy)]
pub enum Progress {
    Due(u32),
    Done,
    Refused(u32, u32),
}

// How long the three lists were at the start: numbers of the table, numbers of headings, cells.
#[derive(Clone, Copy)]
pub struct Lengths {
    pub table: usize,
    pub headings: usize,
    pub pool: usize,
}

// The state of a walk: plain data, which a caller keeps from call to call.
#[derive(Clone, Copy)]
pub struct Walk {
    pub lengths: Lengths,
    pub progress: Progress,
}

// Begins a walk over a table. Refuses 1, 2 and 3, with entry 0; either way every cell is empty and every number of a heading is zero. Costs a pass over both lists; no
// memory.
pub fn start(table: &[i32], headings: &mut [u32], pool: &mut [i32]) -> Walk
    ensures { Gives (W.start table.now headings.old pool.old) result headings.new pool.new }
{
    let lengths = Lengths {
        table: table.len(),
        headings: headings.len(),
        pool: pool.len(),
    };
    let begun = entries::begin(table, headings.len() / HEADING_LENGTH, pool.len());
    conversion::clear(&mut *headings, &mut *pool);
    match begun {
        Err(refusal) => Walk {
            lengths,
            progress: Progress::Refused(refusal.number(), 0),
        },
        Ok(_) => Walk {
            lengths,
            progress: Progress::Due(0),
        },
    }
}

// The cell behind the rows that stand, where the test before the entry k passes.
fn is_ready(
    lengths: Lengths,
    k: u32,
    table: &[i32],
    headings: &[u32],
    pool: &[i32],
) -> Option<usize>
    ensures test { is_some result ≡ W.ready (lengths_in lengths) k table.now headings.now pool.now }
    ensures ends { IfSome result (EndsAt headings.now pool.now k) }
{
    if table.len() != lengths.table
        || headings.len() != lengths.headings
        || pool.len() != lengths.pool
    {
        return None;
    }
    let n = entries::begin(table, headings.len() / HEADING_LENGTH, pool.len()).ok()?;
    if k as usize >= n {
        return None;
    }
    standing::all_stand(headings, pool, k as usize)
}

// How far a walk is once the row of the entry k stands.
fn progress_behind(lengths: Lengths, k: u32) -> Progress
    requires { k < entry_limit }
    ensures { progress_of result ≡ behind (lengths_in lengths) k }
{
    let next = k + 1;
    if next as usize == lengths.table / ENTRY_LENGTH {
        Progress::Done
    } else {
        Progress::Due(next)
    }
}

// Takes the entry k behind the rows that stand, up to the cell `used`.
fn take_entry(
    lengths: Lengths,
    k: u32,
    used: usize,
    table: &[i32],
    headings: &mut [u32],
    pool: &mut [i32],
) -> Walk
    requires pool_value { W.ready (lengths_in lengths) k table.now headings.old pool.old ≡ true }
    requires ends_at { EndsAt headings.old pool.old k used }
    ensures { Gives (W.left (lengths_in lengths) (W.lengths_of table.now headings.old pool.old) (W.entered k table.now headings.old pool.old)) result headings.new pool.new }
{
    let entry = conversion::convert_entry(table, k as usize, used, &mut *headings, &mut *pool);
    match entry {
        Err(refusal) => {
            conversion::clear(&mut *headings, &mut *pool);
            Walk {
                lengths,
                progress: Progress::Refused(refusal.number(), k),
            }
        }
        Ok(end) => {
            conversion::clear_cells(&mut *pool, end);
            Walk {
                lengths,
                progress: progress_behind(lengths, k),
            }
        }
    }
}

// The call at which the entry k is due: the test, then the entry.
fn take_due(lengths: Lengths, k: u32, table: &[i32], headings: &mut [u32], pool: &mut [i32]) -> Walk
    ensures { Gives (W.left (lengths_in lengths) (W.lengths_of table.now headings.old pool.old) (W.stepped (lengths_in lengths) k table.now headings.old pool.old)) result headings.new pool.new }
{
    let Some(used) = is_ready(lengths, k, table, headings, pool) else {
        conversion::clear(&mut *headings, &mut *pool);
        return Walk {
            lengths,
            progress: Progress::Refused(Refusal::RowNotSound.number(), k),
        };
    };
    take_entry(lengths, k, used, table, &mut *headings, &mut *pool)
}

// One call: takes the entry that is due, and no other. First tests that the three lists have the lengths they had at the start and that the rows of the entries before stand
// in the lists as a conversion leaves them, with nothing behind them; if not, it is refusal 13. Else the entry is refused under 4 to 12, or its row stands behind the others. A
// refusal is at the entry due and makes both lists empty. After the end and after a refusal a call changes nothing and answers the same. Any other state is taken by the same
// rule: an entry that the table doesn't have, or lengths that checks 1 to 3 refuse, is 13. Costs the test, which is a pass over headings and pool and for each stored row rule 13,
// a count of its granules and the tries of its least period; the entry, as in `convert`; and a pass over the cells behind its row. No memory.
pub fn step(walk: Walk, table: &[i32], headings: &mut [u32], pool: &mut [i32]) -> Walk
    ensures { Gives (W.call (walk_of walk) table.now headings.old pool.old) result headings.new pool.new }
{
    let progress = walk.progress;
    let lengths = walk.lengths;
    match progress {
        Progress::Due(k) => take_due(lengths, k, table, headings, pool),
        Progress::Done => walk,
        Progress::Refused(_, _) => walk,
    }
}
