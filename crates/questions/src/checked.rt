// Questions to a row that has passed rule 13, for one question and for many: what is left of each.

ghost use Rattle.std.specs.Prelude.{◌≡◌, true, ◌^◌, ℤ, pos};
ghost use Rattle.std.proofs.Math.Option.{some};
ghost use Rattle.integers.specs.Parts.{up};
ghost use Rattle.calendar.specs.Meaning.{meant};
ghost use Rattle.calendar.specs.Reply.{require};
ghost use Rattle.calendar.specs.Reply.Reply.{answer};
ghost use Rattle.calendar.specs.Granules.{has};
ghost use Rattle.calendar.specs.Limits.{between, late_limit};
ghost use Rattle.calendar.specs.Questions as Q;
ghost use Rattle.calendar.specs.Questions.{given, up_from_instant, up_from_granule};
ghost use Rattle.floats.specs.Allowance as F;
ghost use Rattle.cursors.specs.Found.{Sound, Within, Labelled};
ghost use Rattle.questions.specs.Answers.{placed_reply, up_reply, late_reply, may_be_late};

use calendar::{Calendar, LATE_LIMIT, Refusal};
use floats::Allowance;

// The label of the instant t and its place in that slot, or none. Refuses 14. Costs a walk over the slot up to t.
pub fn up_instant(
    t: i64,
    cells: &[i32],
    period: i64,
    distance: i64,
) -> Result<Option<(i64, u64)>, Refusal>
    requires { Sound period distance cells.now }
    ensures { placed_reply result ≡ up_from_instant (given period distance cells.now) t }
{
    if !Calendar::in_range(t) {
        return Err(Refusal::ArgumentOutsideLimits);
    }
    let label = cursors::label_at(cells, period, distance, t);
    match label {
        Some(j) => {
            let place = granule_ends::place(cells, period, distance, t);
            Ok(Some((j, place)))
        }
        None => Ok(None),
    }
}

// The label of the slot of h that contains the whole slot z of g, or none. Refuses 14, 15. Costs at most two passes over
// g's row, to find the slot, and a walk over the slot.
pub fn up_granule(
    z: i64,
    g_cells: &[i32],
    g_period: i64,
    g_distance: i64,
    h_cells: &[i32],
    h_period: i64,
    h_distance: i64,
) -> Result<Option<i64>, Refusal>
    requires sound { Sound g_period g_distance g_cells.now }
    requires sound_2 { Sound h_period h_distance h_cells.now }
    ensures { up_reply result ≡ up_from_granule (given g_period g_distance g_cells.now) (given h_period h_distance h_cells.now) z }
{
    if !Calendar::in_range(z) {
        return Err(Refusal::ArgumentOutsideLimits);
    }
    let at = row_check::instant_of(g_cells, g_period, g_distance, z);
    let Some(t) = at else {
        return Err(Refusal::NotALabel);
    };
    let label = containment::holder(
        g_cells, g_period, g_distance, h_cells, h_period, h_distance, t,
    );
    Ok(label)
}

// d may be a lateness.
fn is_lateness(d: i64) -> bool
    ensures { result ≡ between (pos 0) (pos late_limit) d }
{
    0 <= d && d <= LATE_LIMIT
}

// The length of the slot of t, the number of its own instants: the place of its last instant.
fn granule_length(cells: &[i32], period: i64, distance: i64, t: i64) -> u64
    requires sound { Sound period distance cells.now }
    requires labelled { Labelled (given period distance cells.now) t }
    requires within { Within (2 ^ 58) t }
    ensures { (j : ℤ) → meant (given period distance cells.now) t ≡ some j → result ≡ Q.granule_length (given period distance cells.now) j }
{
    let last = granule_ends::last_instant(cells, period, distance, t);
    granule_ends::place(cells, period, distance, last)
}

// Whether a delivery may be d instants late on z, of a sound row and with numbers within the limits: z may still be
// no label.
fn judged(
    z: i64,
    d: i64,
    allowance: Allowance,
    cells: &[i32],
    period: i64,
    distance: i64,
) -> Result<bool, Refusal>
    requires sound { Sound period distance cells.now }
    requires within { Within 1000000000 z }
    requires d_value { between (pos 0) (pos late_limit) d ≡ true }
    requires allowance_value { F.is_allowed allowance ≡ true }
    ensures { late_reply result ≡ require 15 (has (given period distance cells.now) z) (answer (F.may_be_late (up d) (Q.granule_length (given period distance cells.now) z) allowance)) }
{
    let at = row_check::instant_of(cells, period, distance, z);
    let Some(t) = at else {
        return Err(Refusal::NotALabel);
    };
    let length = granule_length(cells, period, distance, t);
    if floats::may_be_late(d as u64, length, allowance) {
        Ok(true)
    } else {
        Ok(false)
    }
}

// Whether a delivery may be d instants late on the slot z. Refuses 14, 18, 15. Costs at most two passes over the row, to
// find the slot, and two walks over the slot.
pub fn may_be_late(
    z: i64,
    d: i64,
    allowance: Allowance,
    cells: &[i32],
    period: i64,
    distance: i64,
) -> Result<bool, Refusal>
    requires { Sound period distance cells.now }
    ensures { late_reply result ≡ may_be_late (given period distance cells.now) z d allowance }
{
    if !Calendar::in_range(z) {
        return Err(Refusal::ArgumentOutsideLimits);
    }
    if !is_lateness(d) {
        return Err(Refusal::ArgumentOutsideLimits);
    }
    if !floats::allowed(allowance) {
        return Err(Refusal::AllowanceNotAllowed);
    }
    judged(z, d, allowance, cells, period, distance)
}
