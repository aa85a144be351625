// Rows that stand in lent lists, one behind the other, each with its heading.

#![tactic(auto)]

ghost use Rattle.std.specs.Prelude.{◌≡◌, ◌+◌, ◌*◌, ◌≤◌, pos, ◌≤ℤ◌, length, drop, is_some, IfSome};
ghost use Rattle.integers.specs.Parts.{up};
ghost use Rattle.calendar.specs.Limits.{pool_limit, heading_length};
ghost use Rattle.calendar.specs.Questions.{given};
ghost use Rattle.standing.specs.Standing.{standing};
ghost use Rattle.standing.specs.Tests.{is_counted, row_stands, Ends, rows_stand, EndsAt, all_zero, all_empty};

use calendar::Calendar;
use conversion::HEADING_LENGTH;

// The row passes rule 13, has so many granules and is least.
fn is_counted(cells: &[i32], period: i64, distance: i64, granules: i64) -> bool
    requires { pos 0 ≤ℤ granules }
    ensures { result ≡ is_counted (given period distance cells.now) (up granules) }
{
    if !row_check::sound(cells, period, distance) {
        return false;
    }
    let counted = counts::granules(cells, period, distance);
    if counted != granules {
        return false;
    }
    let least = least_form::least_period(cells, period, distance, counted);
    least.period == period
}

// The cell behind the row of the heading k, where that starts at `used` and its row passes the test.
pub fn row_stands(headings: &[u32], pool: &[i32], k: usize, used: usize) -> Option<usize>
    requires heading_length_in_bounds { heading_length * k + heading_length ≤ length headings.now }
    requires used_in_bounds { (used ≤ length pool.now) × (length pool.now ≤ pool_limit) }
    ensures test { is_some result ≡ row_stands headings.now pool.now k used }
    ensures ends { IfSome result (Ends headings.now pool.now k used) }
{
    let at = HEADING_LENGTH * k;
    let start = headings[at] as usize;
    let count = headings[at + 1] as usize;
    if start != used {
        return None;
    }
    if count > pool.len() - used {
        return None;
    }
    let end = used + count;
    let ok = is_counted(
        &pool[used..end],
        headings[at + 1] as i64,
        headings[at + 2] as i64,
        headings[at + 3] as i64,
    );
    ok.then_some(end)
}

// The cell behind the first k rows, where they stand one behind the other, from cell 0 on.
pub fn rows_stand(headings: &[u32], pool: &[i32], k: usize) -> Option<usize>
    requires { (heading_length * k ≤ length headings.now) × (length pool.now ≤ pool_limit) }
    ensures test { is_some result ≡ rows_stand headings.now pool.now k }
    ensures ends { IfSome result (EndsAt headings.now pool.now k) }
{
    let mut used = 0;
    for i in 0..k {
        used = row_stands(headings, pool, i, used)?;
    }
    Some(used)
}

// Every number from `start` on is 0.
pub fn is_clear(headings: &[u32], start: usize) -> bool
    ensures { result ≡ all_zero (drop start headings.now) }
{
    let from = start.min(headings.len());
    headings[from..].iter().all(|n| *n == 0)
}

// Every cell from `start` on is empty.
pub fn is_blank(pool: &[i32], start: usize) -> bool
    ensures { result ≡ all_empty (drop start pool.now) }
{
    for i in start..pool.len() {
        if pool[i] != Calendar::EMPTY {
            return false;
        }
    }
    true
}

// The cell behind the first k rows, where they stand one behind the other, each least and with its heading, and
// nothing stands behind them. Costs a pass over both lists, and for each row rule 13, a count of its granules and the
// tries of its least period; no memory.
pub fn all_stand(headings: &[u32], pool: &[i32], k: usize) -> Option<usize>
    requires { (heading_length * k ≤ length headings.now) × (length pool.now ≤ pool_limit) }
    ensures test { is_some result ≡ standing k headings.now pool.now }
    ensures ends { IfSome result (EndsAt headings.now pool.now k) }
{
    let end = rows_stand(headings, pool, k)?;
    if !is_clear(headings, HEADING_LENGTH * k) || !is_blank(pool, end) {
        return None;
    }
    Some(end)
}
