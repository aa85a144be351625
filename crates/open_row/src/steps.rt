// Open instants of a row by their ranks: so many steps from an instant, and how many there are between two.

ghost use Rattle.std.specs.Prelude.{◌≡◌, true, ◌&&◌, ◌^◌, pos, ◌-ℤ◌};
ghost use Rattle.integers.specs.Parts.{up};
ghost use Rattle.calendar.specs.Limits.{in_range};
ghost use Rattle.calendar.specs.Questions.{given};
ghost use Rattle.cursors.specs.Found.{found, Sound, Within};
ghost use Rattle.open_steps.specs.Steps.{nth_open, between_open};
ghost use Rattle.open_steps.specs.Inquiries.{may_step};
ghost use Rattle.open_map.specs.Turns.{rank};
ghost use Rattle.open_steps.specs.Ranked.{OpenFrom};
ghost use Rattle.open_row.specs.Inquiries.{opens};
ghost use Rattle.open_row.specs.Shown.{labelled_before, shown_by};

use super::labels;
use open_map::turns;

// The rank of the instant t, where a turn has `total` open instants.
fn rank_of(cells: &[i32], period: i64, distance: i64, total: i64, t: i64) -> i64
    requires sound { Sound period distance cells.now }
    requires total_value { total ≡ pos (labelled_before cells.now (up period)) }
    requires within { Within (2 ^ 32) t }
    ensures value { result ≡ rank (shown_by period cells.now) t }
    ensures within_2 { Within (2 ^ 60) result }
{
    let at = turns::turn_of(period, t);
    let cell = at.cell;
    let before = labels::labelled_in(cells, 0, cell);
    turns::composed(total, at.turn, before)
}

// How far the rank rises from s to t.
fn risen(cells: &[i32], period: i64, distance: i64, s: i64, t: i64) -> i64
    requires sound { Sound period distance cells.now }
    requires within { Within (2 ^ 32) s × Within (2 ^ 32) t }
    ensures { result ≡ rank (shown_by period cells.now) t -ℤ rank (shown_by period cells.now) s }
{
    let total = counts::labelled_instants(cells);
    let end = rank_of(cells, period, distance, total, t);
    let start = rank_of(cells, period, distance, total, s);
    end - start
}

// The instant x is open.
fn is_open(cells: &[i32], period: i64, distance: i64, x: i64) -> bool
    requires sound { Sound period distance cells.now }
    requires within { Within (2 ^ 32) x }
    ensures { result ≡ opens (given period distance cells.now) x }
{
    let label = cursors::label_at(cells, period, distance, x);
    match label {
        Some(_) => true,
        None => false,
    }
}

// The open instant whose rank is k above that of t: by whole turns of the open instants, then by blocks of cells.
fn open_from(cells: &[i32], period: i64, distance: i64, t: i64, k: i64) -> i64
    requires sound { Sound period distance cells.now }
    requires within { Within (2 ^ 31) t × Within (2 ^ 31) k }
    ensures { OpenFrom (shown_by period cells.now) t k result }
{
    let total = counts::labelled_instants(cells);
    let at = turns::turn_of(period, t);
    let cell = at.cell;
    let before = labels::labelled_in(cells, 0, cell);
    let rest = turns::turn_of(total, before as i64 + k);
    let left = rest.cell;
    let i = labels::nth_cell(cells, left);
    turns::composed(period, at.turn + rest.turn, i)
}

// The n-th open instant after x, or before x for an n below 0; for 0 it is x, where x is open.
pub fn nth_of(cells: &[i32], period: i64, distance: i64, x: i64, n: i64) -> Option<i64>
    requires sound { Sound period distance cells.now }
    requires n_value { may_step x n ≡ true }
    ensures { found result ≡ nth_open (up period) (opens (given period distance cells.now)) x n }
{
    if 0 < n {
        return Some(open_from(cells, period, distance, x + 1, n - 1));
    }
    if n < 0 {
        return Some(open_from(cells, period, distance, x, n));
    }
    if is_open(cells, period, distance, x) {
        Some(x)
    } else {
        None
    }
}

// How many open instants t there are with x < t ≤ y, and minus that for the pair the other way round.
pub fn between_of(cells: &[i32], period: i64, distance: i64, x: i64, y: i64) -> i64
    requires sound { Sound period distance cells.now }
    requires y_value { (in_range x && in_range y) ≡ true }
    ensures { result ≡ between_open (opens (given period distance cells.now)) x y }
{
    risen(cells, period, distance, x + 1, y + 1)
}
