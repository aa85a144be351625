// Questions to a row that is handed in with its period and distance: up, figures, the least period and lateness; down
// is in its own file. Nothing is asked of the caller: any slice and any numbers have an answer or one numbered refusal. What a
// question asks stands before the row, so that a reader of a row can hand on its fields.

#![tactic(auto)]

ghost use Rattle.std.specs.Prelude.{◌≡◌};
ghost use Rattle.calendar.specs.Questions.{given, up_from_instant, up_from_granule};
ghost use Rattle.questions.specs.Answers.{placed_reply, up_reply, FiguresOf, least_period, shortening_reply, late_reply, may_be_late};

use calendar::Refusal;
use floats::{Allowance, Figures};
use least_form::Shortest;

pub mod checked;
pub mod down;

// The label of the instant t and its place in that slot, or none. Refuses 13, 14. Costs one pass over the row, for
// check 13, and a walk over the slot up to t.
pub fn up_instant(
    t: i64,
    cells: &[i32],
    period: i64,
    distance: i64,
) -> Result<Option<(i64, u64)>, Refusal>
    ensures { placed_reply result ≡ up_from_instant (given period distance cells.now) t }
{
    if !row_check::sound(cells, period, distance) {
        return Err(Refusal::RowNotSound);
    }
    checked::up_instant(t, cells, period, distance)
}

// The label of the slot of h that contains the whole slot z of g, or none. Refuses 13 for g and for h, 14, 15. Costs
// one pass over each row, for check 13, at most two more over g's, to find the slot, and a walk over the slot.
pub fn up_granule(
    z: i64,
    g_cells: &[i32],
    g_period: i64,
    g_distance: i64,
    h_cells: &[i32],
    h_period: i64,
    h_distance: i64,
) -> Result<Option<i64>, Refusal>
    ensures { up_reply result ≡ up_from_granule (given g_period g_distance g_cells.now) (given h_period h_distance h_cells.now) z }
{
    if !row_check::sound(g_cells, g_period, g_distance) {
        return Err(Refusal::RowNotSound);
    }
    if !row_check::sound(h_cells, h_period, h_distance) {
        return Err(Refusal::RowNotSound);
    }
    checked::up_granule(
        z, g_cells, g_period, g_distance, h_cells, h_period, h_distance,
    )
}

// Openness, mean length of a slot and mean spacing of a row that has so many granules in its period. Refuses 13, also where
// it has not. Costs three passes over the row, one of them for check 13 and one for its granules.
pub fn figures(granules: i64, cells: &[i32], period: i64, distance: i64) -> Result<Figures, Refusal>
    ensures { FiguresOf (given period distance cells.now) granules result }
{
    if !row_check::sound(cells, period, distance) {
        return Err(Refusal::RowNotSound);
    }
    if counts::granules(cells, period, distance) != granules {
        return Err(Refusal::RowNotSound);
    }
    let labelled = counts::labelled_instants(cells);
    let shown = floats::figures_of(labelled as u64, period as u64, granules as u64);
    Ok(shown)
}

// The least period of the row, and how many common divisors of period, distance and granules were tried for it, the
// greatest first. Refuses 13. Costs three passes over the row, one of them for check 13, and at most one for each try.
pub fn least_period(cells: &[i32], period: i64, distance: i64) -> Result<Shortest, Refusal>
    ensures { shortening_reply result ≡ least_period (given period distance cells.now) }
{
    if !row_check::sound(cells, period, distance) {
        return Err(Refusal::RowNotSound);
    }
    let granules = counts::granules(cells, period, distance);
    let shortest = least_form::least_period(cells, period, distance, granules);
    Ok(shortest)
}

// Whether a delivery may be d instants late on the slot z. Refuses 13, 14, 18, 15. Costs one pass over the row, for
// check 13, at most two more, to find the slot, and two walks over the slot.
pub fn may_be_late(
    z: i64,
    d: i64,
    allowance: Allowance,
    cells: &[i32],
    period: i64,
    distance: i64,
) -> Result<bool, Refusal>
    ensures { late_reply result ≡ may_be_late (given period distance cells.now) z d allowance }
{
    if !row_check::sound(cells, period, distance) {
        return Err(Refusal::RowNotSound);
    }
    checked::may_be_late(z, d, allowance, cells, period, distance)
}
