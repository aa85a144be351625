// Where a scan from the instant 0 on begins among the altered granules.

ghost use Rattle.std.specs.Prelude.{◌≡◌, ◌^◌, pos, ◌+ℤ◌, ◌-ℤ◌, ◌*ℤ◌};
ghost use Rattle.integers.specs.Parts.{up};
ghost use Rattle.calendar.specs.Meaning.{Row};
ghost use Rattle.calendar.specs.Algebra.{changes};
ghost use Rattle.calendar.specs.Questions.{given};
ghost use Rattle.cursors.specs.Found.{Sound, Within};
ghost use Rattle.kinds.specs.Limits.{Limits};
ghost use Rattle.alter_granules.specs.Given.{Alterable};
ghost use Rattle.alter_granules.specs.Follows.{Opens, Opened, Starts};

use super::ahead::Walk;
use super::coarse::Begin;
use super::{Repeat, coarse};
use kinds::Alteration;
use row_check::scan;

// A labelled instant, with its label.
#[derive(Clone, Copy)]
pub struct Labelled {
    pub t: i64,
    pub j: i64,
}

// The first labelled instant from 0 on.
pub fn first_labelled(cells: &[i32], period: i64, distance: i64) -> Labelled
    requires { Sound period distance cells.now }
    ensures { Opens (given period distance cells.now) result }
{
    let i = scan::leading(cells);
    Labelled {
        t: i as i64,
        j: scan::wide(cells, i),
    }
}

// The first fine granule of the altered granule i, of which p is the first before: z is added for each change up to the granule i - 1.
fn first_fine(by: Alteration, i: i64, p: i64) -> i64
    requires limits { Limits by }
    requires within { Within (2 ^ 32) i × Within (2 ^ 34) p }
    ensures { result ≡ p +ℤ changes (up by.x) (up by.y) (i -ℤ pos 1) *ℤ by.z }
{
    let changes = integers::floor_div(i - 1 - by.y, by.x) + 1;
    p + changes * by.z
}

// The walk from the altered granule that has the fine one of that instant: b's granules from there on, as many turns on as reach it.
fn walk_at(by: Alteration, repeat: Repeat, first: Labelled, from: Begin, begin: Begin) -> Walk
    requires { (a : Row) × (b : Row) × Opened by repeat a b first from begin }
    ensures { (a b : Row) → Opened by repeat a b first from begin → Starts by a b result }
{
    let f = first_fine(by, from.i, from.p);
    let turns = integers::floor_div(first.j - f, repeat.fine);
    Walk {
        label: from.i + turns * repeat.coarse,
        next: first_fine(by, begin.i, begin.p) + turns * repeat.fine,
        begin,
        residue: integers::floor_mod(begin.i - by.y, by.x),
        end: first.j + repeat.fine,
    }
}

// The walk before the instant 0: from the altered granule that has the first fine granule from there on.
pub fn start_walk(
    by: Alteration,
    repeat: Repeat,
    a_cells: &[i32],
    a_period: i64,
    a_distance: i64,
    b_cells: &[i32],
    b_period: i64,
    b_distance: i64,
) -> Walk
    requires sound { Sound a_period a_distance a_cells.now }
    requires sound_2 { Sound b_period b_distance b_cells.now }
    requires alterable { Alterable by repeat (given a_period a_distance a_cells.now) (given b_period b_distance b_cells.now) }
    ensures { Starts by (given a_period a_distance a_cells.now) (given b_period b_distance b_cells.now) result }
{
    let first = first_labelled(a_cells, a_period, a_distance);
    let from = coarse::begin_at(
        first.t, a_cells, a_period, a_distance, b_cells, b_period, b_distance,
    );
    let begin = coarse::following(
        from, a_cells, a_period, a_distance, b_cells, b_period, b_distance,
    );
    walk_at(by, repeat, first, from, begin)
}
