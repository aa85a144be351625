// Select-up: whether a granule of a holds a whole granule of b.

ghost use Rattle.std.specs.Prelude.{◌≡◌, true, ◌^◌};
ghost use Rattle.std.proofs.Math.Option.{some};
ghost use Rattle.calendar.specs.Meaning.{meant};
ghost use Rattle.calendar.specs.Operation.Selection.{select-up};
ghost use Rattle.calendar.specs.Lists as L;
ghost use Rattle.calendar.specs.Granules.{granule};
ghost use Rattle.calendar.specs.Compute.{selects};
ghost use Rattle.calendar.specs.Questions.{given};
ghost use Rattle.cursors.specs.Found.{Sound, Within};
ghost use Rattle.cursors.specs.Cursor.{cursor_at};

use cursors::Cursor;

// Whether a's granule j, of which t is an instant, holds a whole granule of b: a walk over the granule, as far as the first that it holds.
pub fn holds_granule(
    fresh: bool,
    j: i64,
    t: i64,
    a: Cursor,
    b: Cursor,
    a_cells: &[i32],
    a_period: i64,
    a_distance: i64,
    b_cells: &[i32],
    b_period: i64,
    b_distance: i64,
) -> bool
    requires sound { Sound a_period a_distance a_cells.now }
    requires sound_2 { Sound b_period b_distance b_cells.now }
    requires within { Within (2 ^ 50) t }
    requires t_value { meant (given a_period a_distance a_cells.now) t ≡ some j }
    requires a_value { a ≡ cursor_at (given a_period a_distance a_cells.now) t }
    requires b_value { b ≡ cursor_at (given b_period b_distance b_cells.now) t }
    requires t_value_2 { fresh ≡ true → t ≡ L.first (granule (given a_period a_distance a_cells.now) j) }
    ensures { result ≡ selects select-up (given a_period a_distance a_cells.now) (given b_period b_distance b_cells.now) j }
{
    let start = candidates::ends::began(
        fresh, j, t, a, b, a_cells, a_period, a_distance, b_cells, b_period, b_distance,
    );
    let tally = candidates::tallied(
        true,
        j,
        start.at,
        start.other,
        start.own,
        1,
        1,
        b_cells,
        b_period,
        b_distance,
        a_cells,
        a_period,
        a_distance,
    );
    tally.low <= tally.high
}
