// Bottom: a working turn of one instant, whose label is 0.

ghost use Rattle.std.specs.Prelude.{◌≡◌, pos, ◌≤ℤ◌};
ghost use Rattle.calendar.specs.Operation.Operation.{bottom};
ghost use Rattle.kinds.specs.Stands.{row_in, Stands};
ghost use Rattle.match_shared.specs.Matching.{matched_as};

use calendar::{Calendar, Refusal};
use kinds::Operand;
use match_shared::{begin, compared, outcome};

// Compares the row r with the working row of bottom.
pub fn match_bottom(pool: &[i32], r: Operand) -> Result<bool, Refusal>
    requires pos_bound { pos 0 ≤ℤ r.period }
    requires stands { Stands pool.now r }
    ensures { result ≡ matched_as bottom (row_in pool.now r) }
{
    let label = Some(Calendar::BOTTOM_LABEL as i64);
    let seen = compared(label, pool, r, begin());
    outcome(seen.labelled, seen.same)
}
