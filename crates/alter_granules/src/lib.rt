// Alter, document 01's kind 3: a is the fine operand and b the coarse one.

#![tactic(auto)]

ghost use Rattle.std.specs.Prelude.{◌≡◌};
ghost use Rattle.integers.specs.Parts.{up};
ghost use Rattle.calendar.specs.Operation.Operation.{binary};
ghost use Rattle.calendar.specs.Operation.Binary.{alter};
ghost use Rattle.calendar.specs.Checks as Checks;
ghost use Rattle.calendar.specs.Questions.{given};
ghost use Rattle.cursors.specs.Found.{Sound};
ghost use Rattle.alter_granules.specs.Given.{Emptiable, Alterable};
ghost use Rattle.alter_granules.specs.Follows.{Passed, Follows};

use ahead::Walk;
use behind::Instant;
use kinds::Alteration;

pub mod ahead;
pub mod behind;
pub mod coarse;
mod emptying;
pub mod origin;

// After how many coarse granules the altering repeats, and by how many fine ones: document 01's n and D.
#[derive(Clone, Copy)]
pub struct Repeat {
    pub coarse: i64,
    pub fine: i64,
}

// Where a scan is among the altered granules: fine granules are found by a walk over b until the altering has gone round once, and from then on
// by the labels written before.
#[derive(Clone, Copy)]
pub struct Altered {
    pub walk: Walk,
    pub behind: Instant,
}

// Whether some granule is left with fewer than one fine granule: check 10.
pub fn emptied(
    by: Alteration,
    span: i64,
    a_cells: &[i32],
    a_period: i64,
    a_distance: i64,
    b_cells: &[i32],
    b_period: i64,
    b_distance: i64,
) -> bool
    requires sound { Sound a_period a_distance a_cells.now }
    requires sound_2 { Sound b_period b_distance b_cells.now }
    requires emptiable { Emptiable by (given a_period a_distance a_cells.now) (given b_period b_distance b_cells.now) span }
    ensures { result ≡ Checks.emptied (binary (alter (up by.x) (up by.y) by.z) (given a_period a_distance a_cells.now) (given b_period b_distance b_cells.now)) }
{
    if by.z >= 0 {
        return false;
    }
    let rise = emptying::rise_over(span, b_period, b_distance);
    let common = emptying::common(rise, by.x);
    let t = emptying::instant_zero(b_cells, b_period, b_distance);
    let start = coarse::begin_at(
        t, a_cells, a_period, a_distance, b_cells, b_period, b_distance,
    );
    emptying::some_short(
        by, common, rise, start, a_cells, a_period, a_distance, b_cells, b_period, b_distance,
    )
}

// Where the scan is before the instant 0: at the altered granule that has the first fine granule from there on.
pub fn start(
    by: Alteration,
    repeat: Repeat,
    a_cells: &[i32],
    a_period: i64,
    a_distance: i64,
    b_cells: &[i32],
    b_period: i64,
    b_distance: i64,
) -> Altered
    requires sound { Sound a_period a_distance a_cells.now }
    requires sound_2 { Sound b_period b_distance b_cells.now }
    requires alterable { Alterable by repeat (given a_period a_distance a_cells.now) (given b_period b_distance b_cells.now) }
    ensures follows { Follows by repeat (given a_period a_distance a_cells.now) (given b_period b_distance b_cells.now) 0 result }
    ensures passed { Passed (given a_period a_distance a_cells.now) 0 result.walk }
{
    let start = origin::start_walk(
        by, repeat, a_cells, a_period, a_distance, b_cells, b_period, b_distance,
    );
    let walk = ahead::advance_to(
        by,
        start,
        origin::first_labelled(a_cells, a_period, a_distance).j,
        a_cells,
        a_period,
        a_distance,
        b_cells,
        b_period,
        b_distance,
    );
    let behind = Instant {
        index: 0,
        cursor: cursors::cursor_at(a_cells, a_period, a_distance, 0),
    };
    Altered { walk, behind }
}
