// Whether altering leaves a coarse granule with no fine one. Over the span b's labels rise by A, and the coarse granules i and i + A have as
// many fine ones. Of those that lie whole spans from i one is altered exactly if the greatest common divisor of A and x divides i − y. So
// a pass over A coarse granules decides, however great x is.

ghost use Rattle.std.specs.Prelude.{◌≡◌, ◌*◌, ◌/◌, ◌^◌, pos, ◌≤ℤ◌, ◌<ℤ◌};
ghost use Rattle.std.proofs.Math.Option.{some};
ghost use Rattle.integers.specs.Parts.{up};
ghost use Rattle.integers.specs.Gcd as G;
ghost use Rattle.calendar.specs.Meaning.{meant, Full};
ghost use Rattle.calendar.specs.Lists.{any, from};
ghost use Rattle.calendar.specs.Limits.{pool_limit};
ghost use Rattle.calendar.specs.Questions.{given};
ghost use Rattle.cursors.specs.Found.{Sound, Within};
ghost use Rattle.kinds.specs.Limits.{Limits};
ghost use Rattle.alter_granules.specs.Short.{short_by, short, Passable};

use super::coarse;
use super::coarse::Begin;
use kinds::Alteration;

// How far the labels rise over the span, which is whole periods.
pub fn rise_over(span: i64, period: i64, distance: i64) -> i64
    requires pos_bound { (pos 0 ≤ℤ span) × (span ≤ℤ pos pool_limit) }
    requires pos_bound_2 { pos 0 <ℤ period }
    requires pos_bound_3 { (pos 0 ≤ℤ distance) × (distance ≤ℤ pos pool_limit) }
    ensures { result ≡ pos (up distance * (up span / up period)) }
{
    distance * integers::floor_div(span, period)
}

// The greatest common divisor.
pub fn common(rise: i64, x: i64) -> i64
    requires pos_bound { pos 0 ≤ℤ rise }
    requires pos_bound_2 { pos 0 <ℤ x }
    ensures { result ≡ pos (G.gcd (up rise) (up x)) }
{
    integers::gcd(rise as u64, x as u64) as i64
}

// An instant with the label 0, which a full row has.
pub fn instant_zero(cells: &[i32], period: i64, distance: i64) -> i64
    requires sound { Sound period distance cells.now }
    requires full { Full (meant (given period distance cells.now)) }
    ensures label { meant (given period distance cells.now) result ≡ some (pos 0) }
    ensures near { Within (2 ^ 52) result }
{
    let found = row_check::instant_of(cells, period, distance, 0);
    let Some(t) = found else {
        return 0;
    };
    t
}

// Whether altering would leave none of so many fine granules, and the divisor divides i − y.
fn is_short(by: Alteration, common: i64, i: i64, size: i64) -> bool
    requires limits { Limits by }
    requires pos_bound { pos 0 <ℤ common }
    requires within { Within (2 ^ 60) i }
    requires within_2 { Within (2 ^ 60) size }
    ensures { result ≡ short_by by (up common) i size }
{
    size + by.z < 1 && integers::floor_mod(i - by.y, common) == 0
}

// Whether one of so many granules from the start on is short.
pub fn some_short(
    by: Alteration,
    common: i64,
    count: i64,
    start: Begin,
    a_cells: &[i32],
    a_period: i64,
    a_distance: i64,
    b_cells: &[i32],
    b_period: i64,
    b_distance: i64,
) -> bool
    requires sound { Sound a_period a_distance a_cells.now }
    requires sound_2 { Sound b_period b_distance b_cells.now }
    requires passable { Passable by (given a_period a_distance a_cells.now) (given b_period b_distance b_cells.now) start common count }
    ensures { result ≡ any (short by (given a_period a_distance a_cells.now) (given b_period b_distance b_cells.now) (up common)) (from start.i (up count)) }
{
    let mut c = start;
    for _n in 0..count {
        let next = coarse::following(
            c, a_cells, a_period, a_distance, b_cells, b_period, b_distance,
        );
        let size = next.p - c.p;
        if is_short(by, common, c.i, size) {
            return true;
        }
        c = next;
    }
    false
}
