// Up from many slots.

ghost use Rattle.std.specs.Prelude.{◌≡◌, ◌&&◌, [], ◌∷◌, ◌≤◌, length};
ghost use Rattle.calendar.specs.Sound as S;
ghost use Rattle.calendar.specs.Questions.{given, up_from_granule};
ghost use Rattle.questions.specs.Answers.{up_reply};
ghost use Rattle.questions_api.specs.Codes.{up_code, up_label};
ghost use Rattle.batches.specs.Left.{room, batch_code, answers_left};
ghost use Rattle.batches.specs.Front.{front};

use calendar::Refusal;
use questions::{checked, down};
use questions_api::told;

// Rule 13 for both rows.
fn both_sound(
    g_cells: &[i32],
    g_period: i64,
    g_distance: i64,
    h_cells: &[i32],
    h_period: i64,
    h_distance: i64,
) -> bool
    ensures { result ≡ S.sound (given g_period g_distance g_cells.now) && S.sound (given h_period h_distance h_cells.now) }
{
    if !row_check::sound(g_cells, g_period, g_distance) {
        return false;
    }
    row_check::sound(h_cells, h_period, h_distance)
}

// The answer to one slot, where it is known whether both rows are sound.
fn asked(
    z: i64,
    sound: bool,
    g_cells: &[i32],
    g_period: i64,
    g_distance: i64,
    h_cells: &[i32],
    h_period: i64,
    h_distance: i64,
) -> Result<Option<i64>, Refusal>
    requires { sound ≡ S.sound (given g_period g_distance g_cells.now) && S.sound (given h_period h_distance h_cells.now) }
    ensures { up_reply result ≡ up_from_granule (given g_period g_distance g_cells.now) (given h_period h_distance h_cells.now) z }
{
    if !sound {
        return Err(Refusal::RowNotSound);
    }
    checked::up_granule(
        z, g_cells, g_period, g_distance, h_cells, h_period, h_distance,
    )
}

// Writes the answers over the front of the lists, which have room for them.
fn answer_all(
    zs: &[i64],
    answers: &mut [i64],
    labels: &mut [i64],
    g_cells: &[i32],
    g_period: i64,
    g_distance: i64,
    h_cells: &[i32],
    h_period: i64,
    h_distance: i64,
)
    requires zs_in_bounds { length zs.now ≤ length answers.old }
    requires zs_in_bounds_2 { length zs.now ≤ length labels.old }
    ensures answers { answers.new ≡ front (λ z. up_code (up_from_granule (given g_period g_distance g_cells.now) (given h_period h_distance h_cells.now) z)) zs.now answers.old }
    ensures labels { labels.new ≡ front (λ z. up_label (up_from_granule (given g_period g_distance g_cells.now) (given h_period h_distance h_cells.now) z)) zs.now labels.old }
{
    let sound = both_sound(g_cells, g_period, g_distance, h_cells, h_period, h_distance);
    for (i, z) in zs.iter().enumerate() {
        let up = asked(
            *z, sound, g_cells, g_period, g_distance, h_cells, h_period, h_distance,
        );
        answers[i] = told::of_up(up, &mut labels[i]);
    }
}

// The label of the slot of h that contains the whole slot of g, for each slot: in `codes` 1, or 0 where there is none, or
// -13, -14 or -15; the label is 0 then. Costs one pass over each row, for check 13, and for each slot at most two more
// over g's, to find it, and a walk over it.
pub fn up_granules(
    zs: &[i64],
    codes: &mut [i64],
    labels: &mut [i64],
    g_cells: &[i32],
    g_period: i64,
    g_distance: i64,
    h_cells: &[i32],
    h_period: i64,
    h_distance: i64,
) -> i64
    ensures answer { result ≡ batch_code (room (length zs.now) (length codes.old ∷ length labels.old ∷ [])) zs.now }
    ensures codes { codes.new ≡ answers_left (room (length zs.now) (length codes.old ∷ length labels.old ∷ [])) (length codes.old) (λ z. up_code (up_from_granule (given g_period g_distance g_cells.now) (given h_period h_distance h_cells.now) z)) zs.now }
    ensures labels { labels.new ≡ answers_left (room (length zs.now) (length codes.old ∷ length labels.old ∷ [])) (length labels.old) (λ z. up_label (up_from_granule (given g_period g_distance g_cells.now) (given h_period h_distance h_cells.now) z)) zs.now }
{
    down::clear(&mut *codes);
    down::clear(&mut *labels);
    if codes.len() < zs.len() {
        return codes::refusal_code(Refusal::ListTooShort);
    }
    if labels.len() < zs.len() {
        return codes::refusal_code(Refusal::ListTooShort);
    }
    answer_all(
        zs,
        &mut *codes,
        &mut *labels,
        g_cells,
        g_period,
        g_distance,
        h_cells,
        h_period,
        h_distance,
    );
    zs.len() as i64
}
