// The conversion of a table, questions to a row and the sheet of a text, for C: include/jogipahn.h declares the functions. Each answers
// with one number; what else there is to say is left in the lists and behind the pointers that are handed in. A
// question's refusal is its number below zero.

ghost use Rattle.std.specs.Prelude.{◌≡◌, length};
ghost use Rattle.calendar.specs.Questions.{given};
ghost use Rattle.calendar.specs.Questions as Q;
ghost use Rattle.questions.specs.Answers.{counted, parts_after, least_period, may_be_late};
ghost use Rattle.questions_api.specs.Codes.{placed_code, placed_label, placed_place, up_code, up_label, down_code, FiguresLeft, least_code, tried_left, late_code, allowance_of};
ghost use Rattle.table_api.specs.LeftCoded.{LeftCoded, SheetCoded};

// The label of the instant t, in `label`, and its place among the slot's own instants, in `place`: 1; or 0 if it has
// none.
#[unsafe(no_mangle)]
pub extern "C" fn jogipahn_up_instant(
    cells: &[i32],
    period: i64,
    distance: i64,
    t: i64,
    label: &mut i64,
    place: &mut i64,
) -> i64
    ensures code { result ≡ placed_code (Q.up_from_instant (given period distance cells.now) t) }
    ensures label { label.new ≡ placed_label (Q.up_from_instant (given period distance cells.now) t) }
    ensures place { place.new ≡ placed_place (Q.up_from_instant (given period distance cells.now) t) }
{
    questions_api::up_instant(cells, period, distance, t, label, place)
}

// The label of the slot of h that contains the whole slot z of g, in `label`: 1; or 0 if there is none.
#[unsafe(no_mangle)]
pub extern "C" fn jogipahn_up_granule(
    g_cells: &[i32],
    g_period: i64,
    g_distance: i64,
    h_cells: &[i32],
    h_period: i64,
    h_distance: i64,
    z: i64,
    label: &mut i64,
) -> i64
    ensures code { result ≡ up_code (Q.up_from_granule (given g_period g_distance g_cells.now) (given h_period h_distance h_cells.now) z) }
    ensures label { label.new ≡ up_label (Q.up_from_granule (given g_period g_distance g_cells.now) (given h_period h_distance h_cells.now) z) }
{
    questions_api::up_granule(
        g_cells, g_period, g_distance, h_cells, h_period, h_distance, z, label,
    )
}

// The labels of g's slots that make up the slot z of h, rising, in `parts`, with zeros behind them: how many there
// are.
#[unsafe(no_mangle)]
pub extern "C" fn jogipahn_down(
    h_cells: &[i32],
    h_period: i64,
    h_distance: i64,
    g_cells: &[i32],
    g_period: i64,
    g_distance: i64,
    z: i64,
    parts: &mut [i64],
) -> i64
    ensures code { result ≡ down_code (counted (Q.down (given h_period h_distance h_cells.now) (given g_period g_distance g_cells.now) z (length parts.old))) }
    ensures list { parts.new ≡ parts_after (length parts.old) (Q.down (given h_period h_distance h_cells.now) (given g_period g_distance g_cells.now) z (length parts.old)) }
{
    questions_api::down(
        h_cells, h_period, h_distance, g_cells, g_period, g_distance, z, parts,
    )
}

// The open part of a row with so many slots in its period, the mean length of its slots and their mean spacing: 0.
#[unsafe(no_mangle)]
pub extern "C" fn jogipahn_figures(
    cells: &[i32],
    period: i64,
    distance: i64,
    granules: i64,
    openness: &mut f64,
    mean_length: &mut f64,
    mean_spacing: &mut f64,
) -> i64
    ensures { FiguresLeft (given period distance cells.now) granules result openness.new mean_length.new mean_spacing.new }
{
    questions_api::figures(
        cells,
        period,
        distance,
        granules,
        openness,
        mean_length,
        mean_spacing,
    )
}

// The least period of the row; how many divisors were tried for it, in `tried`.
#[unsafe(no_mangle)]
pub extern "C" fn jogipahn_least_period(
    cells: &[i32],
    period: i64,
    distance: i64,
    tried: &mut i64,
) -> i64
    ensures code { result ≡ least_code (least_period (given period distance cells.now)) }
    ensures tried { tried.new ≡ tried_left (least_period (given period distance cells.now)) }
{
    questions_api::least_period(cells, period, distance, tried)
}

// Whether a delivery may be d instants late on the slot z: 1 for yes, 0 for no.
#[unsafe(no_mangle)]
pub extern "C" fn jogipahn_may_be_late(
    cells: &[i32],
    period: i64,
    distance: i64,
    z: i64,
    d: i64,
    rule: i64,
    amount: f64,
) -> i64
    ensures { result ≡ late_code (may_be_late (given period distance cells.now) z d (allowance_of rule amount)) }
{
    questions_api::may_be_late(cells, period, distance, z, d, rule, amount)
}

// Converts a table, with four numbers a heading: 0, or 100 times the refusal's number plus its entry.
#[unsafe(no_mangle)]
pub extern "C" fn jogipahn_convert(table: &[i32], headings: &mut [u32], pool: &mut [i32]) -> i64
    ensures { LeftCoded table.now (length headings.old) (length pool.old) result headings.new pool.new }
{
    table_api::convert(table, headings, pool)
}

// Writes the sheet of a table's text into `out`, with zeros behind it: how many bytes it has; or -1 where `out`, then all
// zero, is too short for it.
#[unsafe(no_mangle)]
pub extern "C" fn jogipahn_sheet(text: &[u8], out: &mut [u8]) -> i64
    ensures { SheetCoded text.now (length out.old) result out.new }
{
    table_api::sheet(text, out)
}
