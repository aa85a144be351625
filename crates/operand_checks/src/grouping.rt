// The checks of group behind 7.

ghost use Rattle.std.specs.Prelude.{◌≡◌, pos, ◌≤ℤ◌};
ghost use Rattle.integers.specs.Parts.{up};
ghost use Rattle.sizes.specs.Stored.{turn_of};
ghost use Rattle.alignment.specs.Pass.{Limited};
ghost use Rattle.operand_checks.specs.Admission.{checked_reply};
ghost use Rattle.operand_checks.specs.Shared as Shared;
ghost use Rattle.operand_checks.specs.Shared.{IsRoom, turn_for};

use super::Extent;
use calendar::Refusal;

// 8 for the span and for the working period, which is no shorter.
pub fn grouped(x: i64, room: i64, period: i64, distance: i64) -> Result<Extent, Refusal>
    requires pos_bound { pos 1 ≤ℤ x }
    requires room { IsRoom room }
    requires limited { Limited period distance }
    ensures { checked_reply result ≡ Shared.grouped (up x) (turn_of (turn_for period distance)) (up room) }
{
    let a = super::spanning::turn_of(period, distance);
    let times = x as u64;
    let working = sizes::group_period(a, times, room as u64);
    let Some(p) = working else {
        return Err(Refusal::TooLong);
    };
    let common = integers::gcd(times, a.distance);
    Ok(Extent {
        span: period,
        period: p as i64,
        distance: (a.distance / common) as i64,
    })
}
