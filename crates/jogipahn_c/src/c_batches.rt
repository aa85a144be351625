// Questions in batches, for C: include/jogipahn.h declares the functions. Each answers how many questions there are, or 17
// below zero where a list is too short; the answers are left in the lists.

ghost use Rattle.std.specs.Prelude.{◌≡◌, [], ◌∷◌, length};
ghost use Rattle.calendar.specs.Questions.{given, up_from_instant, up_from_granule};
ghost use Rattle.questions.specs.Answers.{may_be_late};
ghost use Rattle.questions_api.specs.Codes.{placed_code, placed_label, placed_place, up_code, up_label, late_code, allowance_of};
ghost use Rattle.batches.specs.Left.{room, batch_code, answers_left};

// The label of each instant, and its place among the slot's own instants.
#[unsafe(no_mangle)]
pub extern "C" fn jogipahn_up_instants(
    cells: &[i32],
    period: i64,
    distance: i64,
    ts: &[i64],
    codes: &mut [i64],
    labels: &mut [i64],
    places: &mut [i64],
) -> i64
    ensures answer { result ≡ batch_code (room (length ts.now) (length codes.old ∷ length labels.old ∷ length places.old ∷ [])) ts.now }
    ensures codes { codes.new ≡ answers_left (room (length ts.now) (length codes.old ∷ length labels.old ∷ length places.old ∷ [])) (length codes.old) (λ t. placed_code (up_from_instant (given period distance cells.now) t)) ts.now }
    ensures labels { labels.new ≡ answers_left (room (length ts.now) (length codes.old ∷ length labels.old ∷ length places.old ∷ [])) (length labels.old) (λ t. placed_label (up_from_instant (given period distance cells.now) t)) ts.now }
    ensures places { places.new ≡ answers_left (room (length ts.now) (length codes.old ∷ length labels.old ∷ length places.old ∷ [])) (length places.old) (λ t. placed_place (up_from_instant (given period distance cells.now) t)) ts.now }
{
    batches::instants::up_instants(ts, codes, labels, places, cells, period, distance)
}

// The label of the slot of h that contains the whole slot of g, for each slot of g.
#[unsafe(no_mangle)]
pub extern "C" fn jogipahn_up_granules(
    g_cells: &[i32],
    g_period: i64,
    g_distance: i64,
    h_cells: &[i32],
    h_period: i64,
    h_distance: i64,
    zs: &[i64],
    codes: &mut [i64],
    labels: &mut [i64],
) -> i64
    ensures answer { result ≡ batch_code (room (length zs.now) (length codes.old ∷ length labels.old ∷ [])) zs.now }
    ensures codes { codes.new ≡ answers_left (room (length zs.now) (length codes.old ∷ length labels.old ∷ [])) (length codes.old) (λ z. up_code (up_from_granule (given g_period g_distance g_cells.now) (given h_period h_distance h_cells.now) z)) zs.now }
    ensures labels { labels.new ≡ answers_left (room (length zs.now) (length codes.old ∷ length labels.old ∷ [])) (length labels.old) (λ z. up_label (up_from_granule (given g_period g_distance g_cells.now) (given h_period h_distance h_cells.now) z)) zs.now }
{
    batches::slots::up_granules(
        zs, codes, labels, g_cells, g_period, g_distance, h_cells, h_period, h_distance,
    )
}

// Whether a delivery may be d instants late, on each slot.
#[unsafe(no_mangle)]
pub extern "C" fn jogipahn_may_be_late_each(
    cells: &[i32],
    period: i64,
    distance: i64,
    zs: &[i64],
    d: i64,
    rule: i64,
    amount: f64,
    codes: &mut [i64],
) -> i64
    ensures answer { result ≡ batch_code (room (length zs.now) (length codes.old ∷ [])) zs.now }
    ensures codes { codes.new ≡ answers_left (room (length zs.now) (length codes.old ∷ [])) (length codes.old) (λ z. late_code (may_be_late (given period distance cells.now) z d (allowance_of rule amount))) zs.now }
{
    let allowance = questions_api::allowance_of(rule, amount);
    batches::lateness::may_be_late_each(zs, d, allowance, codes, cells, period, distance)
}
