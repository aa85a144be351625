// The working row of any kind, filled in behind the rows that stand in the pool already.

#![tactic(auto)]

ghost use Rattle.kinds.specs.Stands.{row_in};
ghost use Rattle.fill_shared.specs.Fillable.{Fillable};
ghost use Rattle.fill_shared.specs.Placed.{Placed, over, Fills};

use calendar::Refusal;
use fill_pointwise::Pointwise;
use kinds::{Kind, Operand};

mod bottom;

// Fills the cells from `at` on with the working row, as many as its period; stops at a label outside the limits.
pub fn fill(
    kind: Kind,
    span: i64,
    at: usize,
    period: usize,
    pool: &mut [i32],
    a: Operand,
    b: Operand,
) -> Result<(), Refusal>
    requires fillable { Fillable kind (row_in pool.old a) (row_in pool.old b) }
    requires placed { Placed kind a b span at period pool.old }
    ensures { Fills (over kind pool.old a b) at period pool.old pool.new result }
{
    match kind {
        Kind::Group(x) => fill_unary::grouping::fill_group(x, span, at, period, pool, a, b),
        Kind::Shift(x) => fill_unary::shifting::fill_shift(x, span, at, period, pool, a, b),
        Kind::Renumber(x) => fill_unary::renumbering::fill_renumber(
            x, span, at, period, pool, a, b,
        ),
        Kind::Alter(by) => fill_alter::fill_alter(by, span, at, period, pool, a, b),
        Kind::Combine => fill_by_granule::combining::fill_combine(span, at, period, pool, a, b),
        Kind::Anchor => fill_pointwise::fill_pointwise(
            Pointwise::Anchor,
            span,
            at,
            period,
            pool,
            a,
            b,
        ),
        Kind::Select(by) => fill_by_granule::selecting::fill_select(
            by, span, at, period, pool, a, b,
        ),
        Kind::ByLabels(by) => fill_pointwise::fill_pointwise(
            Pointwise::ByLabels(by),
            span,
            at,
            period,
            pool,
            a,
            b,
        ),
        Kind::Bottom => bottom::fill_bottom(span, at, period, pool, a, b),
    }
}
