// Alter: each fine label gets the altered granule that has it.

#![tactic(auto)]

ghost use Rattle.std.specs.Prelude.{◌≡◌, ◌+◌, pos};
ghost use Rattle.calendar.specs.Operation.{map_operation};
ghost use Rattle.calendar.specs.Questions.{given};
ghost use Rattle.calendar.specs.Size as Size;
ghost use Rattle.calendar.specs.Size.{turn};
ghost use Rattle.alter_granules.specs.Given.{Alterable};
ghost use Rattle.kinds.specs.declared.Kind.TheVariants.{Alter};
ghost use Rattle.kinds.specs.Operations.{operation_of};
ghost use Rattle.kinds.specs.Stands.{row_in};
ghost use Rattle.fill_shared.specs.Fillable.{Fillable};
ghost use Rattle.fill_shared.specs.Placed.{Placed, over, Fills};

use alter_granules::Repeat;
use calendar::{Calendar, Refusal};
use fill_shared::end_of;
use fill_stretches::{fill_leading, fill_stretch};
use kinds::{Alteration, Operand};
use sizes::Turn;

// Document 01's n and D.
pub fn repeat_of(
    by: Alteration,
    span: i64,
    a_cells: &[i32],
    a_period: i64,
    a_distance: i64,
    b_cells: &[i32],
    b_period: i64,
    b_distance: i64,
) -> Repeat
    requires fillable { Fillable (Alter by) (given a_period a_distance a_cells.now) (given b_period b_distance b_cells.now) }
    requires span_value { span ≡ pos (Size.span (map_operation turn (operation_of (Alter by) (given a_period a_distance a_cells.now) (given b_period b_distance b_cells.now)))) }
    ensures { Alterable by result (given a_period a_distance a_cells.now) (given b_period b_distance b_cells.now) }
{
    let a = Turn {
        period: a_period as u64,
        distance: a_distance as u64,
    };
    let b = Turn {
        period: b_period as u64,
        distance: b_distance as u64,
    };
    let repeat = sizes::altering_of(a, b, by.x as u64, by.z, span as u64);
    Repeat {
        coarse: repeat.coarse as i64,
        fine: repeat.fine,
    }
}

// Fills the working row of an alteration. Up to walk.end the altered granules are found by a walk over b, and from there on by the labels written before.
pub fn fill_alter(
    by: Alteration,
    span: i64,
    at: usize,
    period: usize,
    pool: &mut [i32],
    a: Operand,
    b: Operand,
) -> Result<(), Refusal>
    requires fillable { Fillable (Alter by) (row_in pool.old a) (row_in pool.old b) }
    requires placed { Placed (Alter by) a b span at period pool.old }
    ensures { Fills (over (Alter by) pool.old a b) at period pool.old pool.new result }
{
    let a_start = a.start;
    let a_end = end_of(a, at);
    let a_period = a.period;
    let a_distance = a.distance;
    let b_start = b.start;
    let b_end = end_of(b, at);
    let b_period = b.period;
    let b_distance = b.distance;
    let repeat = repeat_of(
        by,
        span,
        &pool[a_start..a_end],
        a_period,
        a_distance,
        &pool[b_start..b_end],
        b_period,
        b_distance,
    );
    let altered = alter_granules::start(
        by,
        repeat,
        &pool[a_start..a_end],
        a_period,
        a_distance,
        &pool[b_start..b_end],
        b_period,
        b_distance,
    );
    let mut walk = altered.walk;
    let mut behind = altered.behind;
    let mut reached = fill_leading(at, period, &mut *pool, a_start, a_end, a_period, a_distance);
    while reached.t < period {
        let j = cursors::label_of(&pool[a_start..a_end], a_period, a_distance, reached.cursor);
        let mut number = walk.label;
        let mut high = j;
        if j < walk.end {
            walk = alter_granules::ahead::advance(
                by,
                walk,
                j,
                &pool[a_start..a_end],
                a_period,
                a_distance,
                &pool[b_start..b_end],
                b_period,
                b_distance,
            );
            number = walk.label;
            high = walk.next - 1;
        } else {
            behind = alter_granules::behind::seek(
                behind,
                j - repeat.fine,
                &pool[a_start..a_end],
                a_period,
                a_distance,
            );
            let back = at + behind.index;
            number = pool[back] as i64 + repeat.coarse;
        }
        if !Calendar::in_range(number) {
            return Err(Refusal::LabelOutsideLimits);
        }
        reached = fill_stretch(
            number as i32,
            high,
            reached,
            at,
            period,
            &mut *pool,
            a_start,
            a_end,
            a_period,
            a_distance,
        );
    }
    Ok(())
}
