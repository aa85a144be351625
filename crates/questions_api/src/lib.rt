// Questions to a row in plain numbers, as C takes them: `jogipahn_c` hands each function on under its name for C. Each answers
// with one number, a refusal's being below zero; what else there is to say is left in the lists and behind the references.

#![tactic(auto)]

ghost use Rattle.std.specs.Prelude.{◌≡◌, length};
ghost use Rattle.calendar.specs.Questions.{given};
ghost use Rattle.calendar.specs.Questions as Q;
ghost use Rattle.questions.specs.Answers.{counted, parts_after, least_period, may_be_late};
ghost use Rattle.questions_api.specs.Codes.{placed_code, placed_label, placed_place, up_code, up_label, down_code, FiguresLeft, least_code, tried_left, late_code, allowance_of};

use floats::Allowance;

pub mod told;

// The label of the instant t, in `label`, and its place among the slot's own instants, in `place`: 1; or 0 if it has
// none.
pub fn up_instant(
    cells: &[i32],
    period: i64,
    distance: i64,
    t: i64,
    label: &mut i64,
    place: &mut i64,
) -> i64
    ensures code { result ≡ placed_code (Q.up_from_instant (given period distance cells.now) t) }
    ensures label { label.new ≡ placed_label (Q.up_from_instant (given period distance cells.now) t) }
    ensures place { place.new ≡ placed_place (Q.up_from_instant (given period distance cells.now) t) }
{
    let placing = questions::up_instant(t, cells, period, distance);
    told::of_placing(placing, label, place)
}

// The label of the slot of h that contains the whole slot z of g, in `label`: 1; or 0 if there is none.
pub fn up_granule(
    g_cells: &[i32],
    g_period: i64,
    g_distance: i64,
    h_cells: &[i32],
    h_period: i64,
    h_distance: i64,
    z: i64,
    label: &mut i64,
) -> i64
    ensures code { result ≡ up_code (Q.up_from_granule (given g_period g_distance g_cells.now) (given h_period h_distance h_cells.now) z) }
    ensures label { label.new ≡ up_label (Q.up_from_granule (given g_period g_distance g_cells.now) (given h_period h_distance h_cells.now) z) }
{
    let up = questions::up_granule(
        z, g_cells, g_period, g_distance, h_cells, h_period, h_distance,
    );
    told::of_up(up, label)
}

// The labels of g's slots that make up the slot z of h, rising, in `parts`, with zeros behind them: how many there
// are.
pub fn down(
    h_cells: &[i32],
    h_period: i64,
    h_distance: i64,
    g_cells: &[i32],
    g_period: i64,
    g_distance: i64,
    z: i64,
    parts: &mut [i64],
) -> i64
    ensures code { result ≡ down_code (counted (Q.down (given h_period h_distance h_cells.now) (given g_period g_distance g_cells.now) z (length parts.old))) }
    ensures list { parts.new ≡ parts_after (length parts.old) (Q.down (given h_period h_distance h_cells.now) (given g_period g_distance g_cells.now) z (length parts.old)) }
{
    let parted = questions::down::down(
        z,
        &mut *parts,
        h_cells,
        h_period,
        h_distance,
        g_cells,
        g_period,
        g_distance,
    );
    match parted {
        Ok(n) => n as i64,
        Err(x) => codes::refusal_code(x),
    }
}

// The open part of a row with so many slots in its period, the mean length of its slots and their mean spacing: 0.
pub fn figures(
    cells: &[i32],
    period: i64,
    distance: i64,
    granules: i64,
    openness: &mut f64,
    mean_length: &mut f64,
    mean_spacing: &mut f64,
) -> i64
    ensures { FiguresLeft (given period distance cells.now) granules result openness.new mean_length.new mean_spacing.new }
{
    let figured = questions::figures(granules, cells, period, distance);
    match figured {
        Ok(v) => {
            *openness = v.openness;
            *mean_length = v.mean_length;
            *mean_spacing = v.mean_spacing;
            0
        }
        Err(x) => {
            *openness = 0.0;
            *mean_length = 0.0;
            *mean_spacing = 0.0;
            codes::refusal_code(x)
        }
    }
}

// The least period of the row; how many divisors were tried for it, in `tried`.
pub fn least_period(cells: &[i32], period: i64, distance: i64, tried: &mut i64) -> i64
    ensures code { result ≡ least_code (least_period (given period distance cells.now)) }
    ensures tried { tried.new ≡ tried_left (least_period (given period distance cells.now)) }
{
    let shortening = questions::least_period(cells, period, distance);
    match shortening {
        Ok(shortest) => {
            *tried = shortest.tried as i64;
            shortest.period
        }
        Err(x) => {
            *tried = 0;
            codes::refusal_code(x)
        }
    }
}

// The allowance of a rule: 0 a fixed number of instants, 1 a share. Any other rule gets one that is never allowed, so
// that it is refused in its turn.
pub fn allowance_of(rule: i64, amount: f64) -> Allowance
    ensures { result ≡ allowance_of rule amount }
{
    match rule {
        0 => Allowance::Fixed(amount),
        1 => Allowance::Share(amount),
        _ => Allowance::Fixed(-1.0),
    }
}

// Whether a delivery may be d instants late on the slot z: 1 for yes, 0 for no.
pub fn may_be_late(
    cells: &[i32],
    period: i64,
    distance: i64,
    z: i64,
    d: i64,
    rule: i64,
    amount: f64,
) -> i64
    ensures { result ≡ late_code (may_be_late (given period distance cells.now) z d (allowance_of rule amount)) }
{
    let late = questions::may_be_late(z, d, allowance_of(rule, amount), cells, period, distance);
    told::of_late(late)
}
