// Lateness on many slots.

ghost use Rattle.std.specs.Prelude.{◌≡◌, [], ◌∷◌, ◌≤◌, length};
ghost use Rattle.calendar.specs.Sound as S;
ghost use Rattle.calendar.specs.Questions.{given};
ghost use Rattle.questions.specs.Answers.{late_reply, may_be_late};
ghost use Rattle.questions_api.specs.Codes.{late_code};
ghost use Rattle.batches.specs.Left.{room, batch_code, answers_left};
ghost use Rattle.batches.specs.Front.{front};

use calendar::Refusal;
use floats::Allowance;
use questions::{checked, down};
use questions_api::told;

// The answer to one slot, where it is known whether the row is sound.
fn asked(
    z: i64,
    d: i64,
    allowance: Allowance,
    sound: bool,
    cells: &[i32],
    period: i64,
    distance: i64,
) -> Result<bool, Refusal>
    requires { sound ≡ S.sound (given period distance cells.now) }
    ensures { late_reply result ≡ may_be_late (given period distance cells.now) z d allowance }
{
    if !sound {
        return Err(Refusal::RowNotSound);
    }
    checked::may_be_late(z, d, allowance, cells, period, distance)
}

// Writes the answers over the front of the list, which has room for them.
fn answer_all(
    zs: &[i64],
    d: i64,
    allowance: Allowance,
    answers: &mut [i64],
    cells: &[i32],
    period: i64,
    distance: i64,
)
    requires { length zs.now ≤ length answers.old }
    ensures { answers.new ≡ front (λ z. late_code (may_be_late (given period distance cells.now) z d allowance)) zs.now answers.old }
{
    let sound = row_check::sound(cells, period, distance);
    for (i, z) in zs.iter().enumerate() {
        let late = asked(*z, d, allowance, sound, cells, period, distance);
        answers[i] = told::of_late(late);
    }
}

// Whether a delivery may be d instants late, on each slot: in `codes` 1 for yes, 0 for no, or -13, -14, -18 or -15. Costs
// one pass over the row, for check 13, and for each slot at most two more, to find it, and two walks over it.
pub fn may_be_late_each(
    zs: &[i64],
    d: i64,
    allowance: Allowance,
    codes: &mut [i64],
    cells: &[i32],
    period: i64,
    distance: i64,
) -> i64
    ensures answer { result ≡ batch_code (room (length zs.now) (length codes.old ∷ [])) zs.now }
    ensures codes { codes.new ≡ answers_left (room (length zs.now) (length codes.old ∷ [])) (length codes.old) (λ z. late_code (may_be_late (given period distance cells.now) z d allowance)) zs.now }
{
    down::clear(&mut *codes);
    if codes.len() < zs.len() {
        return codes::refusal_code(Refusal::ListTooShort);
    }
    answer_all(zs, d, allowance, &mut *codes, cells, period, distance);
    zs.len() as i64
}
