// Select-down and select-by-meeting from a row of one cell, whose granules are single instants, by a row in which every
// instant has a label: its granules have no gaps, so Pick takes their instants by their place.

ghost use Rattle.std.specs.Prelude.{◌≡◌, false, ◌-◌, ℤ, pos, ◌≤ℤ◌, get_or};
ghost use Rattle.std.specs.Int.Signed.{le_z};
ghost use Rattle.integers.specs.Parts.{up};
ghost use Rattle.calendar.specs.Limits.{pool_limit, between};
ghost use Rattle.calendar.specs.Algebra.{pick_start};
ghost use Rattle.cursors.specs.Found.{Within};
ghost use Rattle.alignment.specs.Pass.{Whole};
ghost use Rattle.one_cell.specs.Serves.{Serves};
ghost use Rattle.kinds.specs.declared.Kind.TheVariants.{Select};
ghost use Rattle.kinds.specs.Limits.{PickLimits};
ghost use Rattle.kinds.specs.Stands.{row_in};
ghost use Rattle.select_granules.specs.Deciding.{is_up};
ghost use Rattle.fill_shared.specs.Fillable.{Fillable};
ghost use Rattle.fill_shared.specs.Placed.{Placed, over, Fills};
ghost use Rattle.fill_by_granule.specs.Picking.{chosen_cells, chosen_count, ChosenRoom, from_label, to_label, reach_of};

use calendar::{Calendar, Refusal};
use fill_shared::{end_of, outcome};
use kinds::{Operand, Pick, Selection};

// Fills the cells of the instants from `from` up to `to`: the label of the instant u, `first` + u, where it is one from low
// to high. Answers how many have one.
fn fill_chosen(
    first: i32,
    low: i32,
    high: i32,
    from: usize,
    to: usize,
    at: usize,
    pool: &mut [i32],
) -> u32
    requires { ChosenRoom first from to at pool.old }
    ensures cells { pool.new ≡ chosen_cells first low high at from (to - from) pool.old }
    ensures count { result ≡ chosen_count first low high from (to - from) }
{
    let mut label = first + from as i32;
    let mut count: u32 = 0;
    for t in from..to {
        let mut cell = Calendar::EMPTY;
        if low <= label {
            if label <= high {
                cell = label;
                count += 1;
            }
        }
        pool[at + t] = cell;
        label += 1;
    }
    count
}

// A number that lies to every label as z does, and fits a cell.
fn bounded(z: i64) -> i32
    ensures low { (j : ℤ) → Within 1000000000 j → le_z result j ≡ le_z z j }
    ensures high { (j : ℤ) → Within 1000000000 j → le_z j result ≡ le_z j z }
{
    if z < Calendar::LEAST_LABEL {
        return Calendar::LEAST_LABEL as i32 - 1;
    }
    if z > Calendar::GREATEST_LABEL {
        return Calendar::GREATEST_LABEL as i32 + 1;
    }
    z as i32
}

// The position at which Pick starts among n instants.
fn start_among(pick: Pick, n: i64) -> i64
    requires pick_limits { PickLimits pick }
    requires pos_bound { (pos 0 ≤ℤ n) × (n ≤ℤ pos pool_limit) }
    ensures is { result ≡ pick_start pick.x (up n) }
    ensures near { Within 8388608 result }
{
    if pick.x > 0 { pick.x } else { n + pick.x + 1 }
}

// The labels of the instants at the positions that Pick takes, of n instants from v on: from low to high, among all labels.
#[derive(Clone, Copy)]
struct Taken {
    low: i32,
    high: i32,
}

fn taken_of(pick: Pick, first: i32, v: i64, n: i64) -> Taken
    requires pick_limits { PickLimits pick }
    requires pos_bound { (pos 0 ≤ℤ n) × (n ≤ℤ pos pool_limit) }
    requires within { Within 16777216 v }
    ensures { (j : ℤ) → Within 1000000000 j → between result.low result.high j ≡ between (from_label pick first v (up n)) (to_label pick first v (up n)) j }
{
    let from = first as i64 + v + start_among(pick, n) - 1;
    Taken {
        low: bounded(from),
        high: bounded(from + pick.y - 1),
    }
}

// The instant v as an instant of the working row, or the nearest to it.
fn reach(v: i64, period: usize) -> usize
    requires { Within 16777216 v }
    ensures { result ≡ reach_of v period }
{
    if v <= 0 {
        return 0;
    }
    let t = v as usize;
    if t < period { t } else { period }
}

// Fills the working row of such a selection, granule by granule of b, from the first that reaches instant 0 on.
pub fn fill_instants(
    by: Selection,
    span: i64,
    at: usize,
    period: usize,
    pool: &mut [i32],
    a: Operand,
    b: Operand,
) -> Result<(), Refusal>
    requires fillable { Fillable (Select by) (row_in pool.old a) (row_in pool.old b) }
    requires placed { Placed (Select by) a b span at period pool.old }
    requires by_value { is_up by ≡ false }
    requires serves { Serves a.period (get_or pool.old a.start (pos 0)) period }
    requires whole { Whole (row_in pool.old b) }
    ensures { Fills (over (Select by) pool.old a b) at period pool.old pool.new result }
{
    let a_start = a.start;
    let first = pool[a_start];
    let b_start = b.start;
    let b_end = end_of(b, at);
    let b_period = b.period;
    let b_distance = b.distance;
    let begun = cursors::cursor_at(&pool[b_start..b_end], b_period, b_distance, 0 - b_period);
    let before = strides::next_change(&pool[b_start..b_end], b_period, b_distance, begun);
    let mut v = before.steps - b_period;
    let mut cursor = before.cursor;
    let mut count: u32 = 0;
    let mut t = 0;
    while t < period {
        let change = strides::next_change(&pool[b_start..b_end], b_period, b_distance, cursor);
        let w = v + change.steps;
        let to = reach(w, period);
        let taken = taken_of(select_granules::pick_of(by), first, v, change.steps);
        count += fill_chosen(first, taken.low, taken.high, t, to, at, &mut *pool);
        cursor = change.cursor;
        v = w;
        t = to;
    }
    outcome(count > 0)
}
