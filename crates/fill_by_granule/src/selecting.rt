// The selections: the labels of a's granules that are kept.

ghost use Rattle.std.specs.Prelude.{◌≡◌, true, pos};
ghost use Rattle.calendar.specs.Lists.{only, equal};
ghost use Rattle.cursors.specs.Found.{found};
ghost use Rattle.kinds.specs.declared.Kind.TheVariants.{Select};
ghost use Rattle.kinds.specs.Stands.{row_in};
ghost use Rattle.fill_shared.specs.Fillable.{Fillable};
ghost use Rattle.fill_shared.specs.Placed.{Placed, over, Fills};

use super::picking;
use calendar::Refusal;
use fill_shared::{any, end_of, outcome};
use fill_stretches::{cell_of, fill_leading, fill_stretch, in_limits};
use kinds::{Operand, Selection};

// The label of a granule that is kept (1 is yes), or none.
pub fn kept(j: i64, holds: i64) -> Option<i64>
    ensures { found result ≡ only j (equal holds (pos 1)) }
{
    if holds == 1 { Some(j) } else { None }
}

// Fills the working row of a selection, granule by granule of a: each is decided where its first label shows, and its
// instants are filled in one stretch.
fn fill_granules(
    by: Selection,
    span: i64,
    at: usize,
    period: usize,
    pool: &mut [i32],
    a: Operand,
    b: Operand,
) -> Result<(), Refusal>
    requires fillable { Fillable (Select by) (row_in pool.old a) (row_in pool.old b) }
    requires placed { Placed (Select by) a b span at period pool.old }
    ensures { Fills (over (Select by) pool.old a b) at period pool.old pool.new result }
{
    let a_start = a.start;
    let a_end = end_of(a, at);
    let a_period = a.period;
    let a_distance = a.distance;
    let b_start = b.start;
    let b_end = end_of(b, at);
    let b_period = b.period;
    let b_distance = b.distance;
    let mut reached = fill_leading(at, period, &mut *pool, a_start, a_end, a_period, a_distance);
    let mut b_cursor = cursors::cursor_at(
        &pool[b_start..b_end],
        b_period,
        b_distance,
        reached.t as i64,
    );
    let mut fresh = false;
    let mut picked = select_granules::unknown();
    let mut labelled = false;
    while reached.t < period {
        let j = cursors::label_of(&pool[a_start..a_end], a_period, a_distance, reached.cursor);
        let decision = select_granules::decided(
            by,
            picked,
            fresh,
            j,
            reached.t as i64,
            reached.cursor,
            b_cursor,
            &pool[a_start..a_end],
            a_period,
            a_distance,
            &pool[b_start..b_end],
            b_period,
            b_distance,
        );
        let label = kept(j, decision.holds);
        if !in_limits(label) {
            return Err(Refusal::LabelOutsideLimits);
        }
        let next = fill_stretch(
            cell_of(label),
            j,
            reached,
            at,
            period,
            &mut *pool,
            a_start,
            a_end,
            a_period,
            a_distance,
        );
        b_cursor = strides::cursor_on(
            &pool[b_start..b_end],
            b_period,
            b_distance,
            b_cursor,
            (next.t - reached.t) as i64,
        );
        picked = decision.picked;
        labelled = any(labelled, label);
        fresh = true;
        reached = next;
    }
    outcome(labelled)
}

// Fills the working row of a selection. Pick takes instants of a row of one cell by their place, where b has no gaps. Where b
// has one cell its granules are the instants, and select-up keeps every granule of a: the working row is a's own turn.
pub fn fill_select(
    by: Selection,
    span: i64,
    at: usize,
    period: usize,
    pool: &mut [i32],
    a: Operand,
    b: Operand,
) -> Result<(), Refusal>
    requires fillable { Fillable (Select by) (row_in pool.old a) (row_in pool.old b) }
    requires placed { Placed (Select by) a b span at period pool.old }
    ensures { Fills (over (Select by) pool.old a b) at period pool.old pool.new result }
{
    let a_start = a.start;
    let b_start = b.start;
    let b_end = end_of(b, at);
    if select_granules::is_up(by) {
        if b.period == 1 {
            return fill_unary::shifting::fill_shift(0, a.period, at, period, pool, a, b);
        }
    } else {
        if one_cell::serves(a.period, pool[a_start], period) {
            if counts::labelled_instants(&pool[b_start..b_end]) == b.period {
                return picking::fill_instants(by, span, at, period, pool, a, b);
            }
        }
    }
    fill_granules(by, span, at, period, pool, a, b)
}
