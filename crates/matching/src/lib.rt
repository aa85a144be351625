// A claimed row beside the working row of any kind: whether it has the same labels, and what checks 12 and 11 say. Nothing is written.

#![tactic(auto)]

ghost use Rattle.std.specs.Prelude.{◌≡◌};
ghost use Rattle.kinds.specs.Stands.{row_in};
ghost use Rattle.fill_shared.specs.Fillable.{Fillable};
ghost use Rattle.fill_shared.specs.Placed.{over};
ghost use Rattle.match_shared.specs.Claims.{Claimed};
ghost use Rattle.match_shared.specs.Matching.{matched_as};

use calendar::Refusal;
use fill_pointwise::Pointwise;
use kinds::{Kind, Operand};
use match_unary::Unary;

mod bottom;

// Compares the row r, at each instant of the working turn, with the labels that the operation gives there.
pub fn compare(
    kind: Kind,
    span: i64,
    period: usize,
    pool: &[i32],
    a: Operand,
    b: Operand,
    r: Operand,
) -> Result<bool, Refusal>
    requires fillable { Fillable kind (row_in pool.now a) (row_in pool.now b) }
    requires claimed { Claimed kind a b r span period pool.now }
    ensures { result ≡ matched_as (over kind pool.now a b) (row_in pool.now r) }
{
    match kind {
        Kind::Group(x) => match_unary::match_unary(Unary::Group(x), span, period, pool, a, b, r),
        Kind::Shift(x) => match_unary::match_unary(Unary::Shift(x), span, period, pool, a, b, r),
        Kind::Renumber(x) => match_unary::match_unary(
            Unary::Renumber(x),
            span,
            period,
            pool,
            a,
            b,
            r,
        ),
        Kind::Alter(by) => match_alter::match_alter(by, span, period, pool, a, b, r),
        Kind::Combine => match_by_granule::combining::match_combine(span, period, pool, a, b, r),
        Kind::Anchor => match_pointwise::match_pointwise(
            Pointwise::Anchor,
            span,
            period,
            pool,
            a,
            b,
            r,
        ),
        Kind::Select(by) => match_by_granule::selecting::match_select(
            by, span, period, pool, a, b, r,
        ),
        Kind::ByLabels(by) => match_pointwise::match_pointwise(
            Pointwise::ByLabels(by),
            span,
            period,
            pool,
            a,
            b,
            r,
        ),
        Kind::Bottom => bottom::match_bottom(pool, r),
    }
}
