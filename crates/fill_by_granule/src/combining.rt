// Combine: the labels of a, wherever b's granule lies in a's.

ghost use Rattle.std.specs.Prelude.{◌≡◌, true, ◌^◌};
ghost use Rattle.std.proofs.Math.Option.{some};
ghost use Rattle.calendar.specs.Meaning.{meant};
ghost use Rattle.calendar.specs.Compute.{result as result_of};
ghost use Rattle.calendar.specs.Lists.{first};
ghost use Rattle.calendar.specs.Granules.{granule};
ghost use Rattle.calendar.specs.Questions.{given};
ghost use Rattle.cursors.specs.Found.{found, Sound, Within};
ghost use Rattle.cursors.specs.Cursor.{cursor_at};
ghost use Rattle.kinds.specs.declared.Kind.TheVariants.{Combine};
ghost use Rattle.kinds.specs.Operations.{operation_of};
ghost use Rattle.kinds.specs.Stands.{row_in};
ghost use Rattle.fill_shared.specs.Fillable.{Fillable};
ghost use Rattle.fill_shared.specs.Placed.{Placed, over, Fills};
ghost use Rattle.fill_by_granule.specs.Lying.{lies_at};

use calendar::Refusal;
use containment::CursorPair;
use cursors::Cursor;
use fill_shared::{any, end_of, outcome};
use fill_stretches::{cell_of, fill_leading, fill_stretch, in_limits};
use kinds::Operand;

// Whether b's granule k lies in a's granule of t, which is one of its instants: its first one, where it is fresh.
fn lies(
    fresh: bool,
    k: i64,
    t: i64,
    a: Cursor,
    b: Cursor,
    a_cells: &[i32],
    a_period: i64,
    a_distance: i64,
    b_cells: &[i32],
    b_period: i64,
    b_distance: i64,
) -> bool
    requires sound { Sound a_period a_distance a_cells.now }
    requires sound_2 { Sound b_period b_distance b_cells.now }
    requires within { Within (2 ^ 59) t }
    requires t_value { meant (given b_period b_distance b_cells.now) t ≡ some k }
    requires a_value { a ≡ cursor_at (given a_period a_distance a_cells.now) t }
    requires b_value { b ≡ cursor_at (given b_period b_distance b_cells.now) t }
    requires t_value_2 { fresh ≡ true → t ≡ first (granule (given b_period b_distance b_cells.now) k) }
    ensures { result ≡ lies_at (given a_period a_distance a_cells.now) (given b_period b_distance b_cells.now) k t }
{
    let outer = cursors::cursor_label(a_cells, a_period, a_distance, a);
    let Some(i) = outer else {
        return false;
    };
    let place = CursorPair { b, k, a, i };
    if fresh {
        containment::inside_from_first(
            b_cells, b_period, b_distance, a_cells, a_period, a_distance, place,
        )
    } else {
        containment::inside_at(
            b_cells, b_period, b_distance, a_cells, a_period, a_distance, place,
        )
    }
}

// The label of the combination at the instant t, which is in b's granule k: a's label, where the granule lies in a's.
pub fn combined(
    fresh: bool,
    k: i64,
    t: i64,
    a: Cursor,
    b: Cursor,
    a_cells: &[i32],
    a_period: i64,
    a_distance: i64,
    b_cells: &[i32],
    b_period: i64,
    b_distance: i64,
) -> Option<i64>
    requires sound { Sound a_period a_distance a_cells.now }
    requires sound_2 { Sound b_period b_distance b_cells.now }
    requires within { Within (2 ^ 59) t }
    requires t_value { meant (given b_period b_distance b_cells.now) t ≡ some k }
    requires a_value { a ≡ cursor_at (given a_period a_distance a_cells.now) t }
    requires b_value { b ≡ cursor_at (given b_period b_distance b_cells.now) t }
    requires t_value_2 { fresh ≡ true → t ≡ first (granule (given b_period b_distance b_cells.now) k) }
    ensures { found result ≡ result_of (operation_of Combine (given a_period a_distance a_cells.now) (given b_period b_distance b_cells.now)) t }
{
    if lies(
        fresh, k, t, a, b, a_cells, a_period, a_distance, b_cells, b_period, b_distance,
    ) {
        cursors::cursor_label(a_cells, a_period, a_distance, a)
    } else {
        None
    }
}

// Fills the working row of a combination, granule by granule of b: each is decided where its first label shows, and its
// instants are filled in one stretch.
fn fill_granules(
    span: i64,
    at: usize,
    period: usize,
    pool: &mut [i32],
    a: Operand,
    b: Operand,
) -> Result<(), Refusal>
    requires fillable { Fillable Combine (row_in pool.old a) (row_in pool.old b) }
    requires placed { Placed Combine a b span at period pool.old }
    ensures { Fills (over Combine pool.old a b) at period pool.old pool.new result }
{
    let a_start = a.start;
    let a_end = end_of(a, at);
    let a_period = a.period;
    let a_distance = a.distance;
    let b_start = b.start;
    let b_end = end_of(b, at);
    let b_period = b.period;
    let b_distance = b.distance;
    let mut reached = fill_leading(at, period, &mut *pool, b_start, b_end, b_period, b_distance);
    let mut a_cursor = cursors::cursor_at(
        &pool[a_start..a_end],
        a_period,
        a_distance,
        reached.t as i64,
    );
    let mut fresh = false;
    let mut labelled = false;
    while reached.t < period {
        let k = cursors::label_of(&pool[b_start..b_end], b_period, b_distance, reached.cursor);
        let label = combined(
            fresh,
            k,
            reached.t as i64,
            a_cursor,
            reached.cursor,
            &pool[a_start..a_end],
            a_period,
            a_distance,
            &pool[b_start..b_end],
            b_period,
            b_distance,
        );
        if !in_limits(label) {
            return Err(Refusal::LabelOutsideLimits);
        }
        let next = fill_stretch(
            cell_of(label),
            k,
            reached,
            at,
            period,
            &mut *pool,
            b_start,
            b_end,
            b_period,
            b_distance,
        );
        a_cursor = strides::cursor_on(
            &pool[a_start..a_end],
            a_period,
            a_distance,
            a_cursor,
            (next.t - reached.t) as i64,
        );
        labelled = any(labelled, label);
        fresh = true;
        reached = next;
    }
    outcome(labelled)
}

// Fills the working row of a combination. A granule of a row of one cell is an instant, which lies in a's wherever a has a
// label: the working row is a's own turn, a shift by 0.
pub fn fill_combine(
    span: i64,
    at: usize,
    period: usize,
    pool: &mut [i32],
    a: Operand,
    b: Operand,
) -> Result<(), Refusal>
    requires fillable { Fillable Combine (row_in pool.old a) (row_in pool.old b) }
    requires placed { Placed Combine a b span at period pool.old }
    ensures { Fills (over Combine pool.old a b) at period pool.old pool.new result }
{
    if b.period == 1 {
        return fill_unary::shifting::fill_shift(0, a.period, at, period, pool, a, b);
    }
    fill_granules(span, at, period, pool, a, b)
}
