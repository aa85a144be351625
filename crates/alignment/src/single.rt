// Rows of single instants: where each label of both is its instant plus one number, no span need be gone over.

ghost use Rattle.std.specs.Prelude.{◌≡◌, true, ◌≤◌, length};
ghost use Rattle.calendar.specs.Operation.Alignment.{compatible};
ghost use Rattle.calendar.specs.Limits.{pool_limit};
ghost use Rattle.calendar.specs.Checks.{aligned_as};
ghost use Rattle.calendar.specs.Questions.{given};
ghost use Rattle.cursors.specs.Found.{Sound};
ghost use Rattle.one_cell.specs.Along.{Along};

use calendar::Calendar;
use row_check::scan;

// Whether each label of a row is its instant plus `first`, where that is within the limits.
fn is_own(first: i64, cells: &[i32], period: i64, distance: i64) -> bool
    requires { Sound period distance cells.now }
    ensures even { result ≡ true → distance ≡ period }
    ensures along { result ≡ true → Along first cells.now }
{
    if distance != period {
        return false;
    }
    if !Calendar::in_range(first) {
        return false;
    }
    one_cell::others(first as i32, cells) == 0
}

// The number that the first label of a row is above its instant.
fn first_of(cells: &[i32]) -> i64
    requires { length cells.now ≤ pool_limit }
{
    let i = scan::leading(cells);
    if i < cells.len() {
        cells[i] as i64 - i as i64
    } else {
        0
    }
}

// Whether both rows are found to be of single instants, of one number: then they are aligned as the set operations ask.
pub fn are_own(
    a_cells: &[i32],
    a_period: i64,
    a_distance: i64,
    b_cells: &[i32],
    b_period: i64,
    b_distance: i64,
) -> bool
    requires sound { Sound a_period a_distance a_cells.now }
    requires sound_2 { Sound b_period b_distance b_cells.now }
    ensures { result ≡ true → aligned_as compatible (given a_period a_distance a_cells.now) (given b_period b_distance b_cells.now) ≡ true }
{
    let first = first_of(a_cells);
    if is_own(first, a_cells, a_period, a_distance) {
        is_own(first, b_cells, b_period, b_distance)
    } else {
        false
    }
}
