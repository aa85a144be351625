// Open instants by their ranks: so many steps from an instant, and how many there are between two.

ghost use Rattle.std.specs.Prelude.{◌≡◌, true, ◌&&◌, ◌^◌, ◌≤◌, pos, negsuc};
ghost use Rattle.integers.specs.Parts.{up};
ghost use Rattle.calendar.specs.Limits.{in_range};
ghost use Rattle.cursors.specs.Found.{found, Within};
ghost use Rattle.open_steps.specs.Steps.{nth_open, between_open};
ghost use Rattle.open_map.specs.Maps.{map_given, is_open};
ghost use Rattle.open_steps.specs.Inquiries.{may_step};
ghost use Rattle.open_map.specs.Turns.{Sound};
ghost use Rattle.open_steps.specs.Ranked.{NthFrom, NthBelow, Near, instant_at, OpenFrom};

use super::{cells, downward, upward};
use calendar::Calendar;
use open_map::turns;

// The most steps.
const MOST_STEPS: i64 = 1000000;

// x is within the limits of instants and n within those of steps.
pub fn may_step(x: i64, n: i64) -> bool
    ensures { result ≡ may_step x n }
{
    if !Calendar::in_range(x) {
        return false;
    }
    if n < -MOST_STEPS {
        return false;
    }
    n <= MOST_STEPS
}

// x and y are within the limits of instants.
pub fn both_in_range(x: i64, y: i64) -> bool
    ensures { result ≡ (in_range x && in_range y) }
{
    if !Calendar::in_range(x) {
        return false;
    }
    Calendar::in_range(y)
}

// The instant x is open.
fn is_open(words: &[u64], period: i64, x: i64) -> bool
    requires { Sound period words.now }
    ensures { result ≡ is_open (map_given period words.now) x }
{
    let at = turns::turn_of(period, x);
    let cell = at.cell;
    cells::is_set(words, cell)
}

// The open instant with k open instants from the cell of a turn up to it, where this turn has `lacking` too few.
fn turns_on(words: &[u64], period: i64, turn: i64, cell: usize, k: usize, lacking: usize) -> i64
    requires sound { Sound period words.now }
    requires near { Near period turn cell × (k ≤ 2 ^ 31) × NthFrom words.now cell k (Err lacking) }
    ensures { OpenFrom (map_given period words.now) (instant_at period turn cell) (pos k) result }
{
    let total = bitmaps::ones_before(words, cell) + (k - lacking);
    let rest = turns::turn_of(total as i64, (total + lacking) as i64);
    let left = rest.cell;
    let i = upward::nth_cell(words, left);
    turns::composed(period, turn + rest.turn, i)
}

// The open instant with k open instants from t up to it: in the turn of t, then by whole turns.
fn open_on(words: &[u64], period: i64, t: i64, k: usize) -> i64
    requires sound { Sound period words.now }
    requires within { Within (2 ^ 31) t × (k ≤ 2 ^ 31) }
    ensures { OpenFrom (map_given period words.now) t (pos k) result }
{
    let at = turns::turn_of(period, t);
    let turn = at.turn;
    let cell = at.cell;
    let found = upward::nth_from(words, cell, k);
    match found {
        Ok(i) => turns::composed(period, turn, i),
        Err(lacking) => turns_on(words, period, turn, cell, k, lacking),
    }
}

// The open instant with k open instants between it and the cell of a turn, where this turn has `lacking` too few.
fn turns_back(words: &[u64], period: i64, turn: i64, cell: usize, k: usize, lacking: usize) -> i64
    requires sound { Sound period words.now }
    requires near { Near period turn cell × (k ≤ 2 ^ 31) × NthBelow words.now cell k (Err lacking) }
    ensures { OpenFrom (map_given period words.now) (instant_at period turn cell) (negsuc k) result }
{
    let cells = period as usize;
    let total = k - lacking + bitmaps::ones_between(words, cell, cells);
    let rest = turns::turn_of(total as i64, -1 - lacking as i64);
    let left = rest.cell;
    let i = downward::nth_cell(words, cells, total - 1 - left);
    turns::composed(period, turn + rest.turn, i)
}

// The open instant with k open instants between it and t: in the turn of t, then by whole turns.
fn open_back(words: &[u64], period: i64, t: i64, k: usize) -> i64
    requires sound { Sound period words.now }
    requires within { Within (2 ^ 31) t × (k ≤ 2 ^ 31) }
    ensures { OpenFrom (map_given period words.now) t (negsuc k) result }
{
    let at = turns::turn_of(period, t);
    let turn = at.turn;
    let cell = at.cell;
    let found = downward::nth_below(words, cell, k);
    match found {
        Ok(i) => turns::composed(period, turn, i),
        Err(lacking) => turns_back(words, period, turn, cell, k, lacking),
    }
}

// The open instant whose rank is k above that of t.
fn open_from(words: &[u64], period: i64, t: i64, k: i64) -> i64
    requires sound { Sound period words.now }
    requires within { Within (2 ^ 31) t × Within (2 ^ 31) k }
    ensures { OpenFrom (map_given period words.now) t k result }
{
    if k < 0 {
        open_back(words, period, t, (-1 - k) as usize)
    } else {
        open_on(words, period, t, k as usize)
    }
}

// The n-th open instant after x, or before x for an n below 0; for 0 it is x, where x is open.
pub fn nth_of(words: &[u64], period: i64, x: i64, n: i64) -> Option<i64>
    requires sound { Sound period words.now }
    requires n_value { may_step x n ≡ true }
    ensures { found result ≡ nth_open (up period) (is_open (map_given period words.now)) x n }
{
    if 0 < n {
        return Some(open_from(words, period, x + 1, n - 1));
    }
    if n < 0 {
        return Some(open_from(words, period, x, n));
    }
    if is_open(words, period, x) {
        Some(x)
    } else {
        None
    }
}

// How many open instants t there are with x < t ≤ y, and minus that for the pair the other way round.
pub fn between_of(words: &[u64], period: i64, x: i64, y: i64) -> i64
    requires sound { Sound period words.now }
    requires y_value { (in_range x && in_range y) ≡ true }
    ensures { result ≡ between_open (is_open (map_given period words.now)) x y }
{
    turns::risen(words, period, x + 1, y + 1)
}
