// Bottom: one cell, whose label is 0.

ghost use Rattle.kinds.specs.declared.Kind.TheVariants.{Bottom};
ghost use Rattle.fill_shared.specs.Placed.{Placed, over, Fills};

use calendar::{Calendar, Refusal};
use kinds::Operand;

// Fills the working row of bottom.
pub fn fill_bottom(
    span: i64,
    at: usize,
    period: usize,
    pool: &mut [i32],
    a: Operand,
    b: Operand,
) -> Result<(), Refusal>
    requires { Placed Bottom a b span at period pool.old }
    ensures { Fills (over Bottom pool.old a b) at period pool.old pool.new result }
{
    pool[at] = Calendar::BOTTOM_LABEL;
    Ok(())
}
