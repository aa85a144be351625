// Combine: the labels of a, wherever b's granule lies in a's.

ghost use Rattle.std.specs.Prelude.{◌≡◌};
ghost use Rattle.kinds.specs.declared.Kind.TheVariants.{Combine};
ghost use Rattle.kinds.specs.Stands.{row_in};
ghost use Rattle.fill_shared.specs.Fillable.{Fillable};
ghost use Rattle.fill_shared.specs.Placed.{over};
ghost use Rattle.match_shared.specs.Claims.{Claimed};
ghost use Rattle.match_shared.specs.Matching.{matched_as};

use calendar::Refusal;
use fill_by_granule::combining::combined;
use fill_shared::any;
use fill_stretches::in_limits;
use kinds::Operand;
use match_shared::{cells_of, outcome};
use match_stretches::{compare_leading, compare_stretch};

// Compares the claimed row r with the working row of a combination. Each granule of b is decided where its first label shows, and its instants are
// compared in one stretch.
pub fn match_combine(
    span: i64,
    period: usize,
    pool: &[i32],
    a: Operand,
    b: Operand,
    r: Operand,
) -> Result<bool, Refusal>
    requires fillable { Fillable Combine (row_in pool.now a) (row_in pool.now b) }
    requires claimed { Claimed Combine a b r span period pool.now }
    ensures { result ≡ matched_as (over Combine pool.now a b) (row_in pool.now r) }
{
    let a_cells = cells_of(pool, a);
    let b_cells = cells_of(pool, b);
    let mut reached = compare_leading(period, pool, b, r);
    let mut a_cursor = cursors::cursor_at(a_cells, a.period, a.distance, reached.t as i64);
    let mut fresh = false;
    let mut labelled = false;
    while reached.t < period {
        let t = reached.t;
        let k = cursors::label_of(b_cells, b.period, b.distance, reached.cursor);
        let label = combined(
            fresh,
            k,
            t as i64,
            a_cursor,
            reached.cursor,
            a_cells,
            a.period,
            a.distance,
            b_cells,
            b.period,
            b.distance,
        );
        if !in_limits(label) {
            return Err(Refusal::LabelOutsideLimits);
        }
        reached = compare_stretch(label, k, reached, period, pool, b, r);
        let steps = (reached.t - t) as i64;
        a_cursor = strides::cursor_on(a_cells, a.period, a.distance, a_cursor, steps);
        labelled = any(labelled, label);
        fresh = true;
    }
    outcome(labelled, reached.same)
}
