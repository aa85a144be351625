// Alter: compares a claimed row with the altered granules of the fine labels.

#![tactic(auto)]

ghost use Rattle.std.specs.Prelude.{◌≡◌};
ghost use Rattle.kinds.specs.declared.Kind.TheVariants.{Alter};
ghost use Rattle.kinds.specs.Stands.{row_in, Stands};
ghost use Rattle.alter_granules.specs.Given.{altering, Alterable};
ghost use Rattle.alter_granules.specs.Follows.{Altering, Starts};
ghost use Rattle.fill_shared.specs.Fillable.{Fillable};
ghost use Rattle.fill_shared.specs.Placed.{over};
ghost use Rattle.match_shared.specs.Claims.{Claimed};
ghost use Rattle.match_shared.specs.Matching.{matched_as};
ghost use Rattle.match_alter.specs.Scanning.{origin, Comparable, Seeking, Sought, Walking, FoundAhead, Reading, FoundBehind};

use alter_granules::Repeat;
use alter_granules::ahead::{Walk, advance_to};
use alter_granules::behind::at_least;
use alter_granules::origin::start_walk;
use calendar::Refusal;
use cursors::{Cursor, cursor_label, cursor_next, label_of};
use kinds::{Alteration, Operand};
use match_shared::cells_of;
use match_stretches::{compare_leading, compare_stretch};

// An instant, with its cursors in a and in the claimed row.
#[derive(Clone, Copy)]
pub struct Place {
    pub index: usize,
    pub cursor: Cursor,
    pub claim: Cursor,
}

// Where the comparing is among the altered granules: they are found by a walk over b until the altering has gone round once, and from then on by the
// labels of the claimed row at a place behind. And what was found: the number that the fine granules up to `high` get.
#[derive(Clone, Copy)]
pub struct Scan {
    pub walk: Walk,
    pub place: Place,
    pub number: i64,
    pub high: i64,
}

// Before the instant 0.
fn begin(by: Alteration, repeat: Repeat, pool: &[i32], a: Operand, b: Operand) -> Scan
    requires stands { Stands pool.now a × Stands pool.now b }
    requires alterable { Alterable by repeat (row_in pool.now a) (row_in pool.now b) }
    ensures walk { Starts by (row_in pool.now a) (row_in pool.now b) result.walk }
    ensures place { result.place ≡ origin }
{
    let a_cells = cells_of(pool, a);
    let b_cells = cells_of(pool, b);
    let walk = start_walk(
        by, repeat, a_cells, a.period, a.distance, b_cells, b.period, b.distance,
    );
    let cursor = Cursor { index: 0, rise: 0 };
    let claim = Cursor { index: 0, rise: 0 };
    let place = Place {
        index: 0,
        cursor,
        claim,
    };
    Scan {
        walk,
        place,
        number: 0,
        high: 0,
    }
}

// The number of the fine granule j, by the walk over b.
fn find_ahead(by: Alteration, from: Scan, j: i64, pool: &[i32], a: Operand, b: Operand) -> Scan
    requires stands { Stands pool.now a × Stands pool.now b }
    requires altering { Altering by (row_in pool.now a) (row_in pool.now b) }
    requires walking { Walking by (row_in pool.now a) (row_in pool.now b) j from }
    ensures { FoundAhead by (row_in pool.now a) (row_in pool.now b) j from result }
{
    let a_cells = cells_of(pool, a);
    let b_cells = cells_of(pool, b);
    let walk = advance_to(
        by, from.walk, j, a_cells, a.period, a.distance, b_cells, b.period, b.distance,
    );
    let place = from.place;
    Scan {
        walk,
        place,
        number: walk.label,
        high: walk.next - 1,
    }
}

// On to an instant of a's granule j.
fn seek(from: Place, j: i64, pool: &[i32], a: Operand, r: Operand) -> Place
    requires stands { Stands pool.now a × Stands pool.now r }
    requires seeking { Seeking (row_in pool.now a) (row_in pool.now r) j from }
    ensures { Sought (row_in pool.now a) (row_in pool.now r) j result }
{
    let a_cells = cells_of(pool, a);
    let r_cells = cells_of(pool, r);
    let mut index = from.index;
    let mut cursor = from.cursor;
    let mut claim = from.claim;
    loop {
        let label = cursor_label(a_cells, a.period, a.distance, cursor);
        if at_least(label, j) {
            return Place {
                index,
                cursor,
                claim,
            };
        }
        cursor = cursor_next(a_cells, a.period, a.distance, cursor);
        claim = cursor_next(r_cells, r.period, r.distance, claim);
        index += 1;
    }
}

// The number of the fine granule j, by the claimed row D fine granules before: n more than its label there.
fn find_behind(repeat: Repeat, from: Scan, j: i64, pool: &[i32], a: Operand, r: Operand) -> Scan
    requires stands { Stands pool.now a × Stands pool.now r }
    requires reading { Reading repeat (row_in pool.now a) (row_in pool.now r) j from }
    ensures { FoundBehind repeat (row_in pool.now a) (row_in pool.now r) j from result }
{
    let place = seek(from.place, j - repeat.fine, pool, a, r);
    let r_cells = cells_of(pool, r);
    let label = label_of(r_cells, r.period, r.distance, place.claim);
    let walk = from.walk;
    Scan {
        walk,
        place,
        number: label + repeat.coarse,
        high: j,
    }
}

// Compares a claimed row with a working row whose labels are within the limits. As far as it agrees it has the labels that are read behind, so the
// first difference ends it.
fn compare(
    by: Alteration,
    repeat: Repeat,
    period: usize,
    pool: &[i32],
    a: Operand,
    b: Operand,
    r: Operand,
) -> Result<bool, Refusal>
    requires alterable { Alterable by repeat (row_in pool.now a) (row_in pool.now b) }
    requires comparable { Comparable by a b r period pool.now }
    ensures { result ≡ matched_as (altering by (row_in pool.now a) (row_in pool.now b)) (row_in pool.now r) }
{
    let a_cells = cells_of(pool, a);
    let mut scan = begin(by, repeat, pool, a, b);
    let mut seen = compare_leading(period, pool, a, r);
    while seen.t < period {
        if !seen.same {
            return Ok(false);
        }
        let j = label_of(a_cells, a.period, a.distance, seen.cursor);
        let walk = scan.walk;
        if j < walk.end {
            scan = find_ahead(by, scan, j, pool, a, b);
        } else {
            scan = find_behind(repeat, scan, j, pool, a, r);
        }
        seen = compare_stretch(Some(scan.number), scan.high, seen, period, pool, a, r);
    }
    if seen.same { Ok(true) } else { Ok(false) }
}

// Compares a claimed row with the working row of an alteration. Check 11 is decided first.
pub fn match_alter(
    by: Alteration,
    span: i64,
    period: usize,
    pool: &[i32],
    a: Operand,
    b: Operand,
    r: Operand,
) -> Result<bool, Refusal>
    requires fillable { Fillable (Alter by) (row_in pool.now a) (row_in pool.now b) }
    requires claimed { Claimed (Alter by) a b r span period pool.now }
    ensures { result ≡ matched_as (over (Alter by) pool.now a b) (row_in pool.now r) }
{
    let a_cells = cells_of(pool, a);
    let b_cells = cells_of(pool, b);
    let repeat = fill_alter::repeat_of(
        by, span, a_cells, a.period, a.distance, b_cells, b.period, b.distance,
    );
    if !alter_ends::in_limits(by, repeat, pool, a, b) {
        return Err(Refusal::LabelOutsideLimits);
    }
    compare(by, repeat, period, pool, a, b, r)
}
