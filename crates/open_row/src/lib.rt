// So many open instants on from an instant or back, and how many there are between two: by a row that is handed in.
// Any slice and any numbers have an answer or one numbered refusal. What a question asks stands before the row, so that
// a reader of a row can hand on its fields.

#![tactic(auto)]

ghost use Rattle.std.specs.Prelude.{◌≡◌};
ghost use Rattle.calendar.specs.Questions.{given};
ghost use Rattle.open_map.specs.Answers.{number_reply};
ghost use Rattle.open_steps.specs.Answers.{step_reply};
ghost use Rattle.open_row.specs.Inquiries.{nth_reply, between_reply};

use calendar::Refusal;

mod labels;
mod steps;

// So many steps on from x, or back for `steps` below 0, each to the next open instant; for 0 it is x where x is open,
// and else none. Refuses 13, then 14. Costs two divisions, and four passes over the row at the most, one of them for
// check 13.
pub fn nth_open(
    x: i64,
    steps: i64,
    cells: &[i32],
    period: i64,
    distance: i64,
) -> Result<Option<i64>, Refusal>
    ensures { step_reply result ≡ nth_reply (given period distance cells.now) x steps }
{
    if !row_check::sound(cells, period, distance) {
        return Err(Refusal::RowNotSound);
    }
    if !open_steps::steps::may_step(x, steps) {
        return Err(Refusal::ArgumentOutsideLimits);
    }
    Ok(steps::nth_of(cells, period, distance, x, steps))
}

// How many open instants t there are with x < t ≤ y, and minus that for the pair the other way round. Refuses 13,
// then 14. Costs two divisions, and four passes over the row at the most, one of them for check 13.
pub fn between(x: i64, y: i64, cells: &[i32], period: i64, distance: i64) -> Result<i64, Refusal>
    ensures { number_reply result ≡ between_reply (given period distance cells.now) x y }
{
    if !row_check::sound(cells, period, distance) {
        return Err(Refusal::RowNotSound);
    }
    if !open_steps::steps::both_in_range(x, y) {
        return Err(Refusal::ArgumentOutsideLimits);
    }
    Ok(steps::between_of(cells, period, distance, x, y))
}
