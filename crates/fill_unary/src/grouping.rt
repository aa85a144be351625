// Group: each label over x, rounded up.

ghost use Rattle.std.specs.Prelude.{◌≡◌, true, false, ℕ, ◌+◌, ◌^◌, ◌≤◌, ◌<◌, ℤ, pos, ◌≤ℤ◌, length};
ghost use Rattle.std.proofs.Math.Option.{some};
ghost use Rattle.integers.specs.Parts.{up};
ghost use Rattle.integers.specs.Floor.{ceil_div};
ghost use Rattle.calendar.specs.Limits.{million, in_range, pool_limit};
ghost use Rattle.cursors.specs.Found.{Within};
ghost use Rattle.kinds.specs.declared.Kind.TheVariants.{Group};
ghost use Rattle.kinds.specs.Stands.{row_in};
ghost use Rattle.fill_shared.specs.Fillable.{Fillable};
ghost use Rattle.fill_shared.specs.Placed.{Placed, over, Fills};
ghost use Rattle.fill_unary.specs.Grouped.{Knows, Small, Grouped, group_at};

use calendar::{Calendar, Refusal};
use fill_shared::{Known, covers, end_of};
use fill_stretches::{fill_leading, fill_stretch};
use kinds::Operand;

// In a row of one cell, groups of so many labels are filled stretch by stretch.
const LONG_GROUP: i64 = 16;

// The group of the label j, with the labels that it has.
fn group_of(x: i64, j: i64) -> Known
    requires pos_bound { (pos 1 ≤ℤ x) × (x ≤ℤ million) }
    requires within { Within (2 ^ 40) j }
    ensures of { result.number ≡ ceil_div j (up x) }
    ensures all { (i : ℤ) → result.low ≤ℤ i → i ≤ℤ result.high → ceil_div i (up x) ≡ result.number }
    ensures has { (result.low ≤ℤ j) × (j ≤ℤ result.high) }
{
    let number = integers::ceil_div(j, x);
    let high = number * x;
    Known {
        number,
        low: high - x + 1,
        high,
    }
}

// Fills the `count` cells from `to` on with the groups of the labels of one turn of the operand, whose cells stand from `start` on. If a group
// is outside the limits it is the answer's number, and the cells from there on are left as they are.
fn fill_turn(
    x: i64,
    rise: i64,
    from: Known,
    start: usize,
    to: usize,
    count: usize,
    pool: &mut [i32],
) -> Known
    requires pos_bound { (pos 1 ≤ℤ x) × (x ≤ℤ million) }
    requires knows { Knows x from }
    requires count_bound { (start + count ≤ to) × (to + count ≤ length pool.old) × (length pool.old ≤ pool_limit) }
    requires small { Small rise start count pool.old }
    ensures length { length pool.new ≡ length pool.old }
    ensures inside { in_range result.number ≡ true → Knows x result × Grouped x rise start to pool.old pool.new count }
    ensures outside { in_range result.number ≡ false → (i : ℕ) × (i < count) × (some result.number ≡ group_at x rise start pool.old i) × Grouped x rise start to pool.old pool.new i }
{
    let mut known = from;
    for i in 0..count {
        let cell = pool[start + i];
        let mut label = Calendar::EMPTY;
        if cell != Calendar::EMPTY {
            let j = cell as i64 + rise;
            if !covers(known, j) {
                known = group_of(x, j);
                if !Calendar::in_range(known.number) {
                    return known;
                }
            }
            label = known.number as i32;
        }
        pool[to + i] = label;
    }
    known
}

// Fills the working row of a group, turn after turn of the operand.
fn fill_turns(
    x: i64,
    span: i64,
    at: usize,
    period: usize,
    pool: &mut [i32],
    a: Operand,
    b: Operand,
) -> Result<(), Refusal>
    requires fillable { Fillable (Group x) (row_in pool.old a) (row_in pool.old b) }
    requires placed { Placed (Group x) a b span at period pool.old }
    ensures { Fills (over (Group x) pool.old a b) at period pool.old pool.new result }
{
    let start = a.start;
    let end = end_of(a, at);
    let count = end - start;
    let a_distance = a.distance;
    let mut rise: i64 = 0;
    let mut known = Known {
        number: 0,
        low: 1,
        high: 0,
    };
    let mut t = 0;
    while t < period {
        known = fill_turn(x, rise, known, start, at + t, count, &mut *pool);
        if !Calendar::in_range(known.number) {
            return Err(Refusal::LabelOutsideLimits);
        }
        rise += a_distance;
        t += count;
    }
    Ok(())
}

// Fills the working row of a group along the operand: the instants of each group in one stretch.
fn fill_along(
    x: i64,
    span: i64,
    at: usize,
    period: usize,
    pool: &mut [i32],
    a: Operand,
    b: Operand,
) -> Result<(), Refusal>
    requires fillable { Fillable (Group x) (row_in pool.old a) (row_in pool.old b) }
    requires placed { Placed (Group x) a b span at period pool.old }
    ensures { Fills (over (Group x) pool.old a b) at period pool.old pool.new result }
{
    let start = a.start;
    let end = end_of(a, at);
    let a_period = a.period;
    let a_distance = a.distance;
    let mut reached = fill_leading(at, period, &mut *pool, start, end, a_period, a_distance);
    while reached.t < period {
        let j = cursors::label_of(&pool[start..end], a_period, a_distance, reached.cursor);
        let group = group_of(x, j);
        if !Calendar::in_range(group.number) {
            return Err(Refusal::LabelOutsideLimits);
        }
        reached = fill_stretch(
            group.number as i32,
            group.high,
            reached,
            at,
            period,
            &mut *pool,
            start,
            end,
            a_period,
            a_distance,
        );
    }
    Ok(())
}

// Fills the working row of a group. In a row of one cell every instant of a stretch has a label, so that the cells of a group are all alike.
pub fn fill_group(
    x: i64,
    span: i64,
    at: usize,
    period: usize,
    pool: &mut [i32],
    a: Operand,
    b: Operand,
) -> Result<(), Refusal>
    requires fillable { Fillable (Group x) (row_in pool.old a) (row_in pool.old b) }
    requires placed { Placed (Group x) a b span at period pool.old }
    ensures { Fills (over (Group x) pool.old a b) at period pool.old pool.new result }
{
    if a.period == 1 && x >= LONG_GROUP {
        fill_along(x, span, at, period, pool, a, b)
    } else {
        fill_turns(x, span, at, period, pool, a, b)
    }
}
