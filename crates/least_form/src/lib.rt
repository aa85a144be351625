// The least period of a row in a slice, its distance and its granules.

#![tactic(auto)]

ghost use Rattle.std.specs.Prelude.{◌≡◌, ◌↔◌, true, ◌≤◌, ◌<◌, ◌+◌, ◌-◌, ◌*◌, List, ℤ, pos, length, ◌≤ℤ◌};
ghost use Rattle.std.specs.Int.{◌∣◌};
ghost use Rattle.integers.specs.Parts.{up};
ghost use Rattle.calendar.specs.Limits.{label_limit};
ghost use Rattle.calendar.specs.Meaning.{label_of, raise};
ghost use Rattle.calendar.specs.Lists.{same_label};
ghost use Rattle.calendar.specs.Sound.{sound};
ghost use Rattle.calendar.specs.Questions.{given};
ghost use Rattle.calendar.specs.Granules as G;
ghost use Rattle.calendar.specs.Least as L;
ghost use Rattle.calendar.specs.Tries.{tries};
ghost use Rattle.least_form.specs.Cells.{block_length, Rise, Low};
ghost use Rattle.least_form.specs.Cells.{RepeatsAt, RepeatsFrom, RepeatsWithin, FirstOther, RegularAt};
ghost use Rattle.least_form.specs.Divisors.{Greatest, Passed};
ghost use Rattle.least_form.specs.Row.{IsLeast};

use calendar::Calendar;

// The most cells that are compared before their outcome is looked at.
const BLOCK: usize = 256;

// The cell b has the label of the cell a plus `rise`, or both have none.
fn is_raised(a: i32, b: i32, rise: i32) -> bool
    requires { Rise rise × (a ≤ℤ label_limit) }
    ensures { result ≡ same_label (label_of b) (raise rise (label_of a)) }
{
    let mut due = Calendar::EMPTY;
    if a != Calendar::EMPTY {
        due = a + rise;
    }
    b == due
}

// The cell t is repeated q behind, raised by `rise`.
fn is_repeated(cells: &[i32], t: usize, q: usize, rise: i32) -> bool
    requires q_in_bounds { t + q < length cells.now }
    requires rise { Rise rise × Low cells.now }
    ensures { (result ≡ true) ↔ RepeatsAt cells.now q rise t }
{
    is_raised(cells[t], cells[t + q], rise)
}

// How many cells from `start` up to `end` are not repeated q behind, raised by `rise`. With no way out of the loop it compares
// several at a time.
fn others_in(cells: &[i32], start: usize, end: usize, q: usize, rise: i32) -> u32
    requires start_le_end { (start ≤ end) × (end ≤ start + block_length) × (end + q ≤ length cells.now) }
    requires rise { Rise rise × Low cells.now }
    ensures { (result ≡ 0) ↔ RepeatsFrom cells.now q rise start end }
{
    let mut count: u32 = 0;
    for t in start..end {
        if !is_repeated(cells, t, q, rise) {
            count += 1;
        }
    }
    count
}

// The first cell from `start` up to `end` that is not repeated q behind, raised by `rise`; `end` where there is none.
fn other_in(cells: &[i32], start: usize, end: usize, q: usize, rise: i32) -> usize
    requires start_le_end { (start ≤ end) × (end + q ≤ length cells.now) }
    requires rise { Rise rise × Low cells.now }
    ensures { FirstOther cells.now q rise start end result }
{
    for t in start..end {
        if !is_repeated(cells, t, q, rise) {
            return t;
        }
    }
    end
}

// The end of the block that begins at `start`, of `len` cells in all.
fn block_end(start: usize, len: usize) -> usize
    requires { start < len }
    ensures { (start < result) × (result ≤ start + block_length) × (result ≤ len) }
{
    if len - start > BLOCK {
        start + BLOCK
    } else {
        len
    }
}

// The first cell that is not repeated q behind, raised by `rise`; where there is none, the number of cells with one
// q behind.
fn first_other(cells: &[i32], q: usize, rise: i32) -> usize
    requires q_in_bounds { q ≤ length cells.now }
    requires rise { Rise rise × Low cells.now }
    ensures { FirstOther cells.now q rise 0 (length cells.now - q) result }
{
    let n = cells.len() - q;
    let mut t = 0;
    while t < n {
        let end = block_end(t, n);
        if others_in(cells, t, end, q, rise) != 0 {
            return other_in(cells, t, end, q, rise);
        }
        t = end;
    }
    t
}

// The cell w repeats the one q before it, and the one q behind repeats w, where there are such cells.
fn is_regular(cells: &[i32], q: usize, rise: i32, w: usize) -> bool
    requires { Rise rise × Low cells.now }
    ensures { (result ≡ true) ↔ RegularAt cells.now q rise w }
{
    if cells.len() <= w {
        return true;
    }
    if q <= w {
        if !is_repeated(cells, w - q, q, rise) {
            return false;
        }
    }
    if cells.len() - w <= q {
        return true;
    }
    is_repeated(cells, w, q, rise)
}

// What a try found: whether the cells repeat, and the witnesses for the next try.
#[derive(Clone, Copy)]
struct Attempt {
    repeats: bool,
    first: usize,
    second: usize,
}

// Whether each cell with one q behind it is repeated there, raised by `rise`. The cells `first` and `second` are
// witnesses: the two that differed in the last pass that failed. Where a row is not regular for one q it seldom is for
// the next, so they are looked at before all cells are passed again.
fn try_period(cells: &[i32], q: usize, rise: i32, first: usize, second: usize) -> Attempt
    requires q_in_bounds { q ≤ length cells.now }
    requires rise { Rise rise × Low cells.now }
    ensures { (result.repeats ≡ true) ↔ RepeatsWithin cells.now q rise }
{
    if !is_regular(cells, q, rise, first) || !is_regular(cells, q, rise, second) {
        return Attempt {
            repeats: false,
            first,
            second,
        };
    }
    let t = first_other(cells, q, rise);
    let behind = t + q;
    Attempt {
        repeats: behind == cells.len(),
        first: t,
        second: behind,
    }
}

// The first divisor of g from `start` on, or the first number past the root of g.
fn divisor_on(g: u64, start: u64) -> u64
    requires { (1 ≤ start) × (start ≤ g) }
    ensures { Passed g start result }
{
    let mut d = start;
    while d <= g / d {
        if g % d == 0 {
            return d;
        }
        d += 1;
    }
    d
}

// The greatest divisor of g that is at most m.
fn divisor_back(g: u64, m: u64) -> u64
    requires { 1 ≤ m }
    ensures { Greatest g m result }
{
    let mut d = m;
    while g % d != 0 {
        d -= 1;
    }
    d
}

// The greatest divisor of g below its divisor m. Above the root of g the divisors are found by their cofactors, which rise.
fn next_divisor(g: u64, m: u64) -> u64
    requires { (1 ≤ g) × (1 < m) × (m ∣ g) }
    ensures { Greatest g (m - 1) result }
{
    let cofactor = divisor_on(g, g / m + 1);
    divisor_back(g, g / cofactor)
}

// The least period of a row, and how many divisors were tried for it.
#[derive(Clone, Copy)]
pub struct Shortest {
    pub period: i64,
    pub tried: u64,
}

// The least period of the row, which has so many granules in a turn. The common divisors m of period, distance and granules are
// tried from the greatest down: the first for which the cells repeat after period / m of them, raised by distance / m, gives it.
// With m = 1 they always do.
pub fn least_period(cells: &[i32], period: i64, distance: i64, granules: i64) -> Shortest
    requires cells_value { sound (given period distance cells.now) ≡ true }
    requires granules_value { granules ≡ pos (G.granules (given period distance cells.now)) }
    ensures least { result.period ≡ pos (L.least (given period distance cells.now)).period }
    ensures divides { (up result.period ∣ up period) × (up period ∣ up distance * up result.period) }
    ensures tried { result.tried ≡ tries (given period distance cells.now) }
{
    let p = period as u64;
    let n = distance as u64;
    let r = granules as u64;
    let g = integers::gcd(integers::gcd(p, n), r);
    let mut m = g;
    let mut tried: u64 = 1;
    let mut first: usize = 0;
    let mut second: usize = 0;
    while m > 1 {
        let q = p / m;
        let outcome = try_period(cells, q as usize, (n / m) as i32, first, second);
        if outcome.repeats {
            return Shortest {
                period: q as i64,
                tried,
            };
        }
        first = outcome.first;
        second = outcome.second;
        m = next_divisor(g, m);
        tried += 1;
    }
    Shortest { period, tried }
}

// The distance of the least row, by its period.
pub fn least_distance(period: i64, distance: i64, least: i64) -> i64
    requires { (cells : List ℤ) × IsLeast period distance least cells }
    ensures { (cells : List ℤ) → IsLeast period distance least cells → result ≡ pos (L.least (given period distance cells)).distance }
{
    distance * least / period
}

// R of the least row: that of the row, which has `granules`, divided by the turns that it is.
pub fn least_granules(period: i64, granules: i64, least: i64) -> i64
    requires { (distance : ℤ) × (cells : List ℤ) × IsLeast period distance least cells × (granules ≡ pos (G.granules (given period distance cells))) }
    ensures { (distance : ℤ) (cells : List ℤ) → IsLeast period distance least cells → granules ≡ pos (G.granules (given period distance cells)) → result ≡ pos (G.granules (L.least (given period distance cells))) }
{
    granules * least / period
}
