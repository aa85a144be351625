// The checks of alter.

ghost use Rattle.std.specs.Prelude.{◌≡◌, true, pos, ◌≤ℤ◌};
ghost use Rattle.integers.specs.Parts.{up};
ghost use Rattle.calendar.specs.Size as Size;
ghost use Rattle.calendar.specs.Size.{span_of, alter_turn};
ghost use Rattle.calendar.specs.Granules.{full};
ghost use Rattle.calendar.specs.Limits.{pool_limit};
ghost use Rattle.calendar.specs.Questions.{given};
ghost use Rattle.sizes.specs.Stored.{turn_of};
ghost use Rattle.cursors.specs.Found.{Sound};
ghost use Rattle.alignment.specs.Pass.{Spanned, Limited};
ghost use Rattle.kinds.specs.Limits.{Limits};
ghost use Rattle.alter_granules.specs.Given.{altering};
ghost use Rattle.operand_checks.specs.Admission.{admission, checked_reply};
ghost use Rattle.operand_checks.specs.Shared.{IsRoom, turn_for, fitted, alter_extent, behind_span};

use super::Extent;
use calendar::Refusal;
use kinds::Alteration;

// 8 for the working period, once no granule is emptied: D is at least 1, and at least n.
fn sized(
    by: Alteration,
    room: i64,
    span: i64,
    a_period: i64,
    a_distance: i64,
    b_period: i64,
    b_distance: i64,
) -> Result<Extent, Refusal>
    requires limits { Limits by }
    requires room { IsRoom room }
    requires limited { Limited a_period a_distance }
    requires limited_2 { Limited b_period b_distance }
    requires span_value { span ≡ pos (span_of (turn_of (turn_for a_period a_distance)) (turn_of (turn_for b_period b_distance))) }
    requires span_bound { span ≤ℤ pos pool_limit }
    requires pos_bound { pos 1 ≤ℤ Size.fine (turn_of (turn_for a_period a_distance)) (turn_of (turn_for b_period b_distance)) (up by.x) by.z }
    requires x_bound { pos (Size.coarse (turn_of (turn_for a_period a_distance)) (turn_of (turn_for b_period b_distance)) (up by.x)) ≤ℤ Size.fine (turn_of (turn_for a_period a_distance)) (turn_of (turn_for b_period b_distance)) (up by.x) by.z }
    ensures { checked_reply result ≡ fitted (alter_extent span (alter_turn (turn_of (turn_for a_period a_distance)) (turn_of (turn_for b_period b_distance)) (up by.x) by.z)) (up room) }
{
    let a = super::spanning::turn_of(a_period, a_distance);
    let b = super::spanning::turn_of(b_period, b_distance);
    let n = sizes::altering_of(a, b, by.x as u64, by.z, span as u64);
    let working = sizes::alter_period(a, n.fine, room as u64);
    let Some(period) = working else {
        return Err(Refusal::TooLong);
    };
    let distance = sizes::alter_distance(a, n.coarse, n.fine);
    Ok(Extent {
        span,
        period: period as i64,
        distance: distance as i64,
    })
}

// 9, 10 and 8 for the working period, of full operands.
fn aligned(
    by: Alteration,
    room: i64,
    span: i64,
    a_cells: &[i32],
    a_period: i64,
    a_distance: i64,
    b_cells: &[i32],
    b_period: i64,
    b_distance: i64,
) -> Result<Extent, Refusal>
    requires limits { Limits by }
    requires room { IsRoom room }
    requires sound { Sound a_period a_distance a_cells.now }
    requires sound_2 { Sound b_period b_distance b_cells.now }
    requires a_cells_value { full (given a_period a_distance a_cells.now) ≡ true }
    requires b_cells_value { full (given b_period b_distance b_cells.now) ≡ true }
    requires spanned { Spanned (given a_period a_distance a_cells.now) (given b_period b_distance b_cells.now) span }
    ensures { checked_reply result ≡ behind_span (altering by (given a_period a_distance a_cells.now) (given b_period b_distance b_cells.now)) (up room) }
{
    if !alignment::partitions(
        a_cells, a_period, a_distance, b_cells, b_period, b_distance, span,
    ) {
        return Err(Refusal::NotAligned);
    }
    if alter_granules::emptied(
        by, span, a_cells, a_period, a_distance, b_cells, b_period, b_distance,
    ) {
        return Err(Refusal::GranuleEmptied);
    }
    sized(by, room, span, a_period, a_distance, b_period, b_distance)
}

// The checks of alter behind 7, of full operands.
pub fn alter(
    by: Alteration,
    room: i64,
    a_cells: &[i32],
    a_period: i64,
    a_distance: i64,
    b_cells: &[i32],
    b_period: i64,
    b_distance: i64,
) -> Result<Extent, Refusal>
    requires limits { Limits by }
    requires room { IsRoom room }
    requires sound { Sound a_period a_distance a_cells.now }
    requires sound_2 { Sound b_period b_distance b_cells.now }
    requires a_cells_value { full (given a_period a_distance a_cells.now) ≡ true }
    requires b_cells_value { full (given b_period b_distance b_cells.now) ≡ true }
    ensures { checked_reply result ≡ admission (altering by (given a_period a_distance a_cells.now) (given b_period b_distance b_cells.now)) (up room) }
{
    let capped = super::spanning::span_of(room, a_period, a_distance, b_period, b_distance);
    let Some(s) = capped else {
        return Err(Refusal::TooLong);
    };
    aligned(
        by, room, s as i64, a_cells, a_period, a_distance, b_cells, b_period, b_distance,
    )
}
