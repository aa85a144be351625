// The selections: the labels of a's granules that are kept.

ghost use Rattle.std.specs.Prelude.{◌≡◌};
ghost use Rattle.kinds.specs.declared.Kind.TheVariants.{Select};
ghost use Rattle.kinds.specs.Stands.{row_in};
ghost use Rattle.fill_shared.specs.Fillable.{Fillable};
ghost use Rattle.fill_shared.specs.Placed.{over};
ghost use Rattle.match_shared.specs.Claims.{Claimed};
ghost use Rattle.match_shared.specs.Matching.{matched_as};

use calendar::Refusal;
use fill_by_granule::selecting::kept;
use fill_shared::any;
use fill_stretches::in_limits;
use kinds::{Operand, Selection};
use match_shared::{cells_of, outcome};
use match_stretches::{compare_leading, compare_stretch};

// Compares the claimed row r with the working row of a selection, granule by granule of a: each is decided where its first label shows, and its
// instants are compared in one stretch.
pub fn match_select(
    by: Selection,
    span: i64,
    period: usize,
    pool: &[i32],
    a: Operand,
    b: Operand,
    r: Operand,
) -> Result<bool, Refusal>
    requires fillable { Fillable (Select by) (row_in pool.now a) (row_in pool.now b) }
    requires claimed { Claimed (Select by) a b r span period pool.now }
    ensures { result ≡ matched_as (over (Select by) pool.now a b) (row_in pool.now r) }
{
    let a_cells = cells_of(pool, a);
    let b_cells = cells_of(pool, b);
    let mut reached = compare_leading(period, pool, a, r);
    let mut b_cursor = cursors::cursor_at(b_cells, b.period, b.distance, reached.t as i64);
    let mut fresh = false;
    let mut picked = select_granules::unknown();
    let mut labelled = false;
    while reached.t < period {
        let t = reached.t;
        let j = cursors::label_of(a_cells, a.period, a.distance, reached.cursor);
        let decision = select_granules::decided(
            by,
            picked,
            fresh,
            j,
            t as i64,
            reached.cursor,
            b_cursor,
            a_cells,
            a.period,
            a.distance,
            b_cells,
            b.period,
            b.distance,
        );
        let label = kept(j, decision.holds);
        if !in_limits(label) {
            return Err(Refusal::LabelOutsideLimits);
        }
        reached = compare_stretch(label, j, reached, period, pool, a, r);
        let steps = (reached.t - t) as i64;
        b_cursor = strides::cursor_on(b_cells, b.period, b.distance, b_cursor, steps);
        picked = decision.picked;
        labelled = any(labelled, label);
        fresh = true;
    }
    outcome(labelled, reached.same)
}
