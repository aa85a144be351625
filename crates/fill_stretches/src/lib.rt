// A stretch of a working row: the instants up to a label of a row, which all get one cell, but for those with no label.

#![tactic(auto)]

ghost use Rattle.std.specs.Prelude.{◌≡◌, true, ◌-◌, ◌≤◌, pos, length};
ghost use Rattle.calendar.specs.Lists.{if_label};
ghost use Rattle.calendar.specs.Compute.{cell_of};
ghost use Rattle.calendar.specs.Limits.{in_range};
ghost use Rattle.cursors.specs.Found.{found};
ghost use Rattle.fill_stretches.specs.Stretch.{row_from, written, Room, Follows, InReach, Ends, Stretched, Led};

use calendar::Calendar;
use cursors::Cursor;

// Below every label of a row.
const BELOW_LABELS: i64 = -9223372036854775807;

// How far a working row is filled: the next instant, with its cursor in the row that is followed.
#[derive(Clone, Copy)]
pub struct Reached {
    pub t: usize,
    pub cursor: Cursor,
}

// Whether a label, where there is one, is within the limits.
pub fn in_limits(label: Option<i64>) -> bool
    ensures { result ≡ if_label (found label) in_range }
{
    match label {
        Some(j) => Calendar::in_range(j),
        None => true,
    }
}

// The cell of such a label.
pub fn cell_of(label: Option<i64>) -> i32
    requires { if_label (found label) in_range ≡ true }
    ensures { result ≡ cell_of (found label) }
{
    match label {
        Some(j) => j as i32,
        None => Calendar::EMPTY,
    }
}

// The cells from `from` up to `to` get `cell`.
fn fill_cells(pool: &mut [i32], cell: i32, from: usize, to: usize)
    requires { (from ≤ to) × (to ≤ length pool.old) }
    ensures { pool.new ≡ written cell from (to - from) pool.old }
{
    pool[from..to].fill(cell);
}

// The first instant from t on whose label is above `high`, or `size`, where the label of an instant u is `first` + u.
fn stretch_end(first: i64, high: i64, t: usize, size: usize) -> usize
    requires { InReach first t size }
    ensures { Ends first high t size result }
{
    if high < first + t as i64 {
        return t;
    }
    if first + size as i64 <= high {
        return size;
    }
    (high - first + 1) as usize
}

// `fill_stretch` along a row of one cell: each instant has a label, one more than the instant before.
fn fill_one_cell(
    cell: i32,
    high: i64,
    from: Reached,
    at: usize,
    size: usize,
    pool: &mut [i32],
    start: usize,
    end: usize,
    period: i64,
    distance: i64,
) -> Reached
    requires room { Room start end period distance at size pool.old }
    requires follows { Follows (row_from start end period distance pool.old) size from }
    requires period_value { period ≡ pos 1 }
    ensures { Stretched cell high (row_from start end period distance pool.old) at size pool.old from result pool.new }
{
    let first = pool[start] as i64;
    let t = stretch_end(first, high, from.t, size);
    fill_cells(pool, cell, at + from.t, at + t);
    let cursor = Cursor {
        index: 0,
        rise: t as i64,
    };
    Reached { t, cursor }
}

// `fill_stretch` along any row, cell by cell.
fn fill_along(
    cell: i32,
    high: i64,
    from: Reached,
    at: usize,
    size: usize,
    pool: &mut [i32],
    start: usize,
    end: usize,
    period: i64,
    distance: i64,
) -> Reached
    requires room { Room start end period distance at size pool.old }
    requires follows { Follows (row_from start end period distance pool.old) size from }
    ensures { Stretched cell high (row_from start end period distance pool.old) at size pool.old from result pool.new }
{
    let mut cursor = from.cursor;
    for t in from.t..size {
        let label = cursors::cursor_label(&pool[start..end], period, distance, cursor);
        let mut written = Calendar::EMPTY;
        match label {
            Some(j) => {
                if high < j {
                    return Reached { t, cursor };
                }
                written = cell;
            }
            None => {}
        }
        pool[at + t] = written;
        cursor = cursors::cursor_next(&pool[start..end], period, distance, cursor);
    }
    Reached { t: size, cursor }
}

// Fills the cells of the instants that follow, as far as the row has no label above `high`, and not beyond `size` instants: `cell` where the row has a
// label, empty where it has none. The row's cells stand in the pool from `start` up to `end`; the cell of the instant 0 is the one at `at`.
pub fn fill_stretch(
    cell: i32,
    high: i64,
    from: Reached,
    at: usize,
    size: usize,
    pool: &mut [i32],
    start: usize,
    end: usize,
    period: i64,
    distance: i64,
) -> Reached
    requires room { Room start end period distance at size pool.old }
    requires follows { Follows (row_from start end period distance pool.old) size from }
    ensures { Stretched cell high (row_from start end period distance pool.old) at size pool.old from result pool.new }
{
    if period == 1 {
        fill_one_cell(
            cell, high, from, at, size, pool, start, end, period, distance,
        )
    } else {
        fill_along(
            cell, high, from, at, size, pool, start, end, period, distance,
        )
    }
}

// Fills the cells of the instants before the first label of the row, which are empty.
pub fn fill_leading(
    at: usize,
    size: usize,
    pool: &mut [i32],
    start: usize,
    end: usize,
    period: i64,
    distance: i64,
) -> Reached
    requires { Room start end period distance at size pool.old }
    ensures { Led (row_from start end period distance pool.old) at size pool.old result pool.new }
{
    let cursor = cursors::cursor_at(&pool[start..end], period, distance, 0);
    let from = Reached { t: 0, cursor };
    fill_stretch(
        Calendar::EMPTY,
        BELOW_LABELS,
        from,
        at,
        size,
        pool,
        start,
        end,
        period,
        distance,
    )
}
