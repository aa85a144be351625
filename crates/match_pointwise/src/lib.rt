// A claimed row beside the working row of an anchoring or of a set operation, instant by instant.

#![tactic(auto)]

ghost use Rattle.std.specs.Prelude.{◌≡◌};
ghost use Rattle.kinds.specs.Stands.{row_in};
ghost use Rattle.fill_shared.specs.Fillable.{Fillable};
ghost use Rattle.fill_shared.specs.Placed.{over};
ghost use Rattle.fill_pointwise.specs.Decided.{kind_of};
ghost use Rattle.match_shared.specs.Matching.{matched_as};
ghost use Rattle.match_shared.specs.Claims.{Claimed};

use calendar::Refusal;
use fill_pointwise::{Pointwise, Scanning};
use fill_shared::last_before;
use fill_stretches::in_limits;
use kinds::Operand;
use match_shared::{begin, cells_of, compared, outcome};

// What the claimed row r is beside the working row.
pub fn match_pointwise(
    by: Pointwise,
    span: i64,
    period: usize,
    pool: &[i32],
    a: Operand,
    b: Operand,
    r: Operand,
) -> Result<bool, Refusal>
    requires fillable { Fillable (kind_of by) (row_in pool.now a) (row_in pool.now b) }
    requires claimed { Claimed (kind_of by) a b r span period pool.now }
    ensures { result ≡ matched_as (over (kind_of by) pool.now a b) (row_in pool.now r) }
{
    let a_cells = cells_of(pool, a);
    let b_cells = cells_of(pool, b);
    let mut s = Scanning {
        a: cursors::cursor_at(a_cells, a.period, a.distance, 0),
        b: cursors::cursor_at(b_cells, b.period, b.distance, 0),
        last: last_before(b_cells, b.period, b.distance),
    };
    let mut seen = begin();
    for t in 0..period {
        let stepped = fill_pointwise::step(
            by, s, t as i64, a_cells, a.period, a.distance, b_cells, b.period, b.distance,
        );
        let label = stepped.label;
        if !in_limits(label) {
            return Err(Refusal::LabelOutsideLimits);
        }
        seen = compared(label, pool, r, seen);
        s = stepped.next;
    }
    outcome(seen.labelled, seen.same)
}
