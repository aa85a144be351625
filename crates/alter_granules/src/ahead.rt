// A walk over the coarse granules, one behind the other, that counts the altered ones with them.

ghost use Rattle.std.specs.Prelude.{◌≡◌, cond, ℕ, eqb, ℤ, pos, ◌+ℤ◌, ◌≤ℤ◌, ◌<ℤ◌};
ghost use Rattle.integers.specs.Parts.{up};
ghost use Rattle.integers.specs.Floor.{floor_mod};
ghost use Rattle.calendar.specs.Meaning.{Row};
ghost use Rattle.calendar.specs.Questions.{given};
ghost use Rattle.cursors.specs.Found.{Sound};
ghost use Rattle.alter_granules.specs.Follows.{Altering, begins, Holds, CoarseWalk, Steps, Stepped};

use super::coarse;
use super::coarse::Begin;
use kinds::Alteration;

// Where the walk is.
#[derive(Clone, Copy)]
pub struct Walk {
    // The altered granule at hand, and the first fine granule of the next one.
    pub label: i64,
    pub next: i64,
    // Where the next one begins in b, less whole turns of the altering; and its label there less y, modulo x.
    pub begin: Begin,
    pub residue: i64,
    // The walk is over the fine granules below it.
    pub end: i64,
}

// How many fine granules more the altered granule gets whose label less y is this modulo x.
fn more(by: Alteration, residue: i64) -> i64
    ensures { (m : ℕ) → residue ≡ pos m → result ≡ cond (eqb m 0) by.z (pos 0) }
{
    if residue == 0 { by.z } else { 0 }
}

// The next label less y, modulo x.
fn residue_after(residue: i64, x: i64) -> i64
    requires { (pos 0 ≤ℤ residue) × (residue <ℤ x) }
    ensures { (t : ℤ) → residue ≡ pos (floor_mod t (up x)) → result ≡ pos (floor_mod (t +ℤ pos 1) (up x)) }
{
    let r = residue + 1;
    if r == x { 0 } else { r }
}

// One altered granule on, where the next one begins there in b.
fn stepped(by: Alteration, s: Walk, begin: Begin) -> Walk
    requires { (a : Row) × (b : Row) × Steps by a b s begin }
    ensures { (a b : Row) → Steps by a b s begin → Stepped by a b s result }
{
    let from = s.begin;
    let size = begin.p - from.p + more(by, s.residue);
    Walk {
        label: s.label + 1,
        next: s.next + size,
        begin,
        residue: residue_after(s.residue, by.x),
        end: s.end,
    }
}

// On to the altered granule that has the fine granule j, which is in the one at hand or the first one behind it. The loop that fills a row is to
// be its one caller, so that it is compiled into it.
pub fn advance(
    by: Alteration,
    from: Walk,
    j: i64,
    a_cells: &[i32],
    a_period: i64,
    a_distance: i64,
    b_cells: &[i32],
    b_period: i64,
    b_distance: i64,
) -> Walk
    requires sound { Sound a_period a_distance a_cells.now }
    requires sound_2 { Sound b_period b_distance b_cells.now }
    requires altering { Altering by (given a_period a_distance a_cells.now) (given b_period b_distance b_cells.now) }
    requires coarse_walk { CoarseWalk by (given a_period a_distance a_cells.now) (given b_period b_distance b_cells.now) from }
    requires label_bound { (begins by (given a_period a_distance a_cells.now) (given b_period b_distance b_cells.now) from.label ≤ℤ j) × (j <ℤ from.end) }
    requires j_le_next { j ≤ℤ from.next }
    ensures walks { CoarseWalk by (given a_period a_distance a_cells.now) (given b_period b_distance b_cells.now) result }
    ensures has { Holds by (given a_period a_distance a_cells.now) (given b_period b_distance b_cells.now) j result.label }
    ensures end { result.end ≡ from.end }
{
    if j < from.next {
        return from;
    }
    let begin = coarse::following(
        from.begin, a_cells, a_period, a_distance, b_cells, b_period, b_distance,
    );
    stepped(by, from, begin)
}

// On to the altered granule that has the fine granule j, which is not before the one at hand.
pub fn advance_to(
    by: Alteration,
    from: Walk,
    j: i64,
    a_cells: &[i32],
    a_period: i64,
    a_distance: i64,
    b_cells: &[i32],
    b_period: i64,
    b_distance: i64,
) -> Walk
    requires sound { Sound a_period a_distance a_cells.now }
    requires sound_2 { Sound b_period b_distance b_cells.now }
    requires altering { Altering by (given a_period a_distance a_cells.now) (given b_period b_distance b_cells.now) }
    requires coarse_walk { CoarseWalk by (given a_period a_distance a_cells.now) (given b_period b_distance b_cells.now) from }
    requires label_bound { (begins by (given a_period a_distance a_cells.now) (given b_period b_distance b_cells.now) from.label ≤ℤ j) × (j <ℤ from.end) }
    ensures walks { CoarseWalk by (given a_period a_distance a_cells.now) (given b_period b_distance b_cells.now) result }
    ensures has { Holds by (given a_period a_distance a_cells.now) (given b_period b_distance b_cells.now) j result.label }
    ensures end { result.end ≡ from.end }
{
    let mut s = from;
    while s.next <= j {
        let begin = coarse::following(
            s.begin, a_cells, a_period, a_distance, b_cells, b_period, b_distance,
        );
        s = stepped(by, s, begin);
    }
    s
}
