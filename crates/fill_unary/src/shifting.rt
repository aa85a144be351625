// Shift: each label plus x. The working row is a turn of the operand, cell for cell.

ghost use Rattle.kinds.specs.declared.Kind.TheVariants.{Shift};
ghost use Rattle.kinds.specs.Stands.{row_in};
ghost use Rattle.fill_shared.specs.Fillable.{Fillable};
ghost use Rattle.fill_shared.specs.Placed.{Placed, over, Fills};

use calendar::Refusal;
use kinds::Operand;
use pieces::{is_outside, raised};

// Fills the working row of a shift. The cells outside the limits are counted: a count is kept several cells at a time.
pub fn fill_shift(
    x: i64,
    span: i64,
    at: usize,
    period: usize,
    pool: &mut [i32],
    a: Operand,
    b: Operand,
) -> Result<(), Refusal>
    requires fillable { Fillable (Shift x) (row_in pool.old a) (row_in pool.old b) }
    requires placed { Placed (Shift x) a b span at period pool.old }
    ensures { Fills (over (Shift x) pool.old a b) at period pool.old pool.new result }
{
    let start = a.start;
    let by = x as i32;
    let mut outside: usize = 0;
    for t in 0..period {
        let cell = raised(pool[start + t], by);
        pool[at + t] = cell;
        if is_outside(cell) {
            outside += 1;
        }
    }
    if outside > 0 {
        Err(Refusal::LabelOutsideLimits)
    } else {
        Ok(())
    }
}
