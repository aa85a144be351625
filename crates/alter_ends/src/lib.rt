// Check 11 of an altering, before its labels are looked at one by one: labels never fall, so the first one of the working row and the last decide.

#![tactic(auto)]

ghost use Rattle.std.specs.Prelude.{◌≡◌, pos};
ghost use Rattle.integers.specs.Parts.{up};
ghost use Rattle.calendar.specs.Checks.{labels_in_range};
ghost use Rattle.kinds.specs.Stands.{row_in};
ghost use Rattle.sizes.specs.Altered.{alter_distance};
ghost use Rattle.alter_granules.specs.Given.{altering, Alterable};
ghost use Rattle.alter_ends.specs.Ending.{turn_at, Turning, Lies, EndsOf};

use alter_granules::Repeat;
use alter_granules::ahead::advance_to;
use alter_granules::origin::{first_labelled, start_walk};
use calendar::Calendar;
use fill_shared::{end_of, last_before};
use kinds::{Alteration, Operand};
use sizes::Turn;

// The first label of a working row, and the last.
#[derive(Clone, Copy)]
pub struct Ends {
    pub first: i64,
    pub last: i64,
}

// How far the labels of the working row rise over it, where a has this period and distance.
fn distance_of(period: i64, distance: i64, repeat: Repeat) -> i64
    requires { Turning period distance repeat }
    ensures { result ≡ pos (alter_distance (turn_at period distance) (up repeat.coarse) repeat.fine) }
{
    let a = Turn {
        period: period as u64,
        distance: distance as u64,
    };
    sizes::alter_distance(a, repeat.coarse as u64, repeat.fine) as i64
}

// The first label is that of a's first granule j from 0 on. The last one is that of a's last granule before 0, a turn of the working row later.
// As a is full, that granule is j or the one before, which the walk has not passed: but D fine granules on it does, where the label is n higher.
pub fn end_labels(by: Alteration, repeat: Repeat, pool: &[i32], a: Operand, b: Operand) -> Ends
    requires alterable { Alterable by repeat (row_in pool.now a) (row_in pool.now b) }
    requires lies { Lies by a b pool.now }
    ensures { EndsOf (altering by (row_in pool.now a) (row_in pool.now b)) result }
{
    let a_start = a.start;
    let a_end = end_of(a, pool.len());
    let a_cells = &pool[a_start..a_end];
    let a_period = a.period;
    let a_distance = a.distance;
    let b_start = b.start;
    let b_end = end_of(b, pool.len());
    let b_cells = &pool[b_start..b_end];
    let b_period = b.period;
    let b_distance = b.distance;
    let j = first_labelled(a_cells, a_period, a_distance).j;
    let start = start_walk(
        by, repeat, a_cells, a_period, a_distance, b_cells, b_period, b_distance,
    );
    let walk = advance_to(
        by, start, j, a_cells, a_period, a_distance, b_cells, b_period, b_distance,
    );
    let distance = distance_of(a_period, a_distance, repeat);
    if j <= last_before(a_cells, a_period, a_distance) {
        return Ends {
            first: walk.label,
            last: walk.label + distance,
        };
    }
    let end = advance_to(
        by,
        walk,
        j + repeat.fine - 1,
        a_cells,
        a_period,
        a_distance,
        b_cells,
        b_period,
        b_distance,
    );
    Ends {
        first: walk.label,
        last: end.label - repeat.coarse + distance,
    }
}

// Whether all labels of the working row are within the limits.
pub fn in_limits(by: Alteration, repeat: Repeat, pool: &[i32], a: Operand, b: Operand) -> bool
    requires alterable { Alterable by repeat (row_in pool.now a) (row_in pool.now b) }
    requires lies { Lies by a b pool.now }
    ensures { result ≡ labels_in_range (altering by (row_in pool.now a) (row_in pool.now b)) }
{
    let ends = end_labels(by, repeat, pool, a, b);
    if !Calendar::in_range(ends.first) {
        return false;
    }
    Calendar::in_range(ends.last)
}
