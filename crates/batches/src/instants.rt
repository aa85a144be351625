// Up from many instants.

ghost use Rattle.std.specs.Prelude.{◌≡◌, [], ◌∷◌, ◌≤◌, length};
ghost use Rattle.calendar.specs.Sound as S;
ghost use Rattle.calendar.specs.Questions.{given, up_from_instant};
ghost use Rattle.questions.specs.Answers.{placed_reply};
ghost use Rattle.questions_api.specs.Codes.{placed_code, placed_label, placed_place};
ghost use Rattle.batches.specs.Left.{room, batch_code, answers_left};
ghost use Rattle.batches.specs.Front.{front};

use calendar::Refusal;
use questions::{checked, down};
use questions_api::told;

// The answer to one instant, where it is known whether the row is sound.
fn asked(
    t: i64,
    sound: bool,
    cells: &[i32],
    period: i64,
    distance: i64,
) -> Result<Option<(i64, u64)>, Refusal>
    requires { sound ≡ S.sound (given period distance cells.now) }
    ensures { placed_reply result ≡ up_from_instant (given period distance cells.now) t }
{
    if !sound {
        return Err(Refusal::RowNotSound);
    }
    checked::up_instant(t, cells, period, distance)
}

// Writes the answers over the front of the lists, which have room for them.
fn answer_all(
    ts: &[i64],
    answers: &mut [i64],
    labels: &mut [i64],
    places: &mut [i64],
    cells: &[i32],
    period: i64,
    distance: i64,
)
    requires ts_in_bounds { length ts.now ≤ length answers.old }
    requires ts_in_bounds_2 { length ts.now ≤ length labels.old }
    requires ts_in_bounds_3 { length ts.now ≤ length places.old }
    ensures answers { answers.new ≡ front (λ t. placed_code (up_from_instant (given period distance cells.now) t)) ts.now answers.old }
    ensures labels { labels.new ≡ front (λ t. placed_label (up_from_instant (given period distance cells.now) t)) ts.now labels.old }
    ensures places { places.new ≡ front (λ t. placed_place (up_from_instant (given period distance cells.now) t)) ts.now places.old }
{
    let sound = row_check::sound(cells, period, distance);
    for (i, t) in ts.iter().enumerate() {
        let placing = asked(*t, sound, cells, period, distance);
        answers[i] = told::of_placing(placing, &mut labels[i], &mut places[i]);
    }
}

// The label of each instant and its place in that slot: in `codes` 1, or 0 where it has none, or -13 or -14; label and
// place are 0 then. Costs one pass over the row, for check 13, and for each instant a walk over the slot up to it.
pub fn up_instants(
    ts: &[i64],
    codes: &mut [i64],
    labels: &mut [i64],
    places: &mut [i64],
    cells: &[i32],
    period: i64,
    distance: i64,
) -> i64
    ensures answer { result ≡ batch_code (room (length ts.now) (length codes.old ∷ length labels.old ∷ length places.old ∷ [])) ts.now }
    ensures codes { codes.new ≡ answers_left (room (length ts.now) (length codes.old ∷ length labels.old ∷ length places.old ∷ [])) (length codes.old) (λ t. placed_code (up_from_instant (given period distance cells.now) t)) ts.now }
    ensures labels { labels.new ≡ answers_left (room (length ts.now) (length codes.old ∷ length labels.old ∷ length places.old ∷ [])) (length labels.old) (λ t. placed_label (up_from_instant (given period distance cells.now) t)) ts.now }
    ensures places { places.new ≡ answers_left (room (length ts.now) (length codes.old ∷ length labels.old ∷ length places.old ∷ [])) (length places.old) (λ t. placed_place (up_from_instant (given period distance cells.now) t)) ts.now }
{
    down::clear(&mut *codes);
    down::clear(&mut *labels);
    down::clear(&mut *places);
    if codes.len() < ts.len() {
        return codes::refusal_code(Refusal::ListTooShort);
    }
    if labels.len() < ts.len() {
        return codes::refusal_code(Refusal::ListTooShort);
    }
    if places.len() < ts.len() {
        return codes::refusal_code(Refusal::ListTooShort);
    }
    answer_all(
        ts,
        &mut *codes,
        &mut *labels,
        &mut *places,
        cells,
        period,
        distance,
    );
    ts.len() as i64
}
