// The span of two operands, and the checks of the kinds whose working period it is.

ghost use Rattle.std.specs.Prelude.{◌≡◌, pos, ◌≤ℤ◌};
ghost use Rattle.integers.specs.Parts.{up};
ghost use Rattle.integers.specs.Capped.{capped_at};
ghost use Rattle.calendar.specs.Size.{span_of};
ghost use Rattle.calendar.specs.Limits.{pool_limit};
ghost use Rattle.calendar.specs.Questions.{given};
ghost use Rattle.sizes.specs.Stored.{turn_of};
ghost use Rattle.cursors.specs.Found.{Sound};
ghost use Rattle.alignment.specs.Pass.{Limited};
ghost use Rattle.operand_checks.specs.Admission.{checked_reply};
ghost use Rattle.operand_checks.specs.Shared as Shared;
ghost use Rattle.alignment.specs.Fits.{alignment_of};
ghost use Rattle.operand_checks.specs.Shared.{IsRoom, turn_for, over_span};

use super::Extent;
use alignment::Alignment;
use calendar::Refusal;
use sizes::Turn;

// The turn of a row.
pub fn turn_of(period: i64, distance: i64) -> Turn
    requires { Limited period distance }
    ensures { result ≡ turn_for period distance }
{
    Turn {
        period: period as u64,
        distance: distance as u64,
    }
}

// The span of two operands, where it is at most the room.
pub fn span_of(
    room: i64,
    a_period: i64,
    a_distance: i64,
    b_period: i64,
    b_distance: i64,
) -> Option<u64>
    requires room { IsRoom room }
    requires limited { Limited a_period a_distance }
    requires limited_2 { Limited b_period b_distance }
    ensures { result ≡ capped_at (up room) (span_of (turn_of (turn_for a_period a_distance)) (turn_of (turn_for b_period b_distance))) }
{
    let a = turn_of(a_period, a_distance);
    let b = turn_of(b_period, b_distance);
    sizes::span(a, b, room as u64)
}

// How far a working row reaches whose period is the span.
fn over_span(span: i64, period: i64, distance: i64) -> Extent
    requires limited { Limited period distance }
    requires pos_bound { (pos 0 ≤ℤ span) × (span ≤ℤ pos pool_limit) }
    ensures { result ≡ over_span (turn_of (turn_for period distance)) (up span) }
{
    let a = turn_of(period, distance);
    let rise = sizes::rise(a, span as u64);
    Extent {
        span,
        period: span,
        distance: rise as i64,
    }
}

// 8 for the span and 9, where the working period is the span.
pub fn spanned(
    k: Alignment,
    room: i64,
    a_cells: &[i32],
    a_period: i64,
    a_distance: i64,
    b_cells: &[i32],
    b_period: i64,
    b_distance: i64,
) -> Result<Extent, Refusal>
    requires sound { Sound a_period a_distance a_cells.now }
    requires sound_2 { Sound b_period b_distance b_cells.now }
    requires room { IsRoom room }
    ensures { checked_reply result ≡ Shared.spanned (alignment_of k) (given a_period a_distance a_cells.now) (given b_period b_distance b_cells.now) (up room) }
{
    let capped = span_of(room, a_period, a_distance, b_period, b_distance);
    let Some(s) = capped else {
        return Err(Refusal::TooLong);
    };
    let span = s as i64;
    if alignment::aligned(
        k, span, a_cells, a_period, a_distance, b_cells, b_period, b_distance,
    ) {
        Ok(over_span(span, a_period, a_distance))
    } else {
        Err(Refusal::NotAligned)
    }
}
