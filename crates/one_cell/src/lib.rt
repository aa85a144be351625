// A row of one cell, as bottom and its shifts have: each instant has a label, one more than the instant before.

#![tactic(auto)]

ghost use Rattle.std.specs.Prelude.{◌≡◌, true, ◌≤◌, pos, length, get_or};
ghost use Rattle.calendar.specs.Meaning.{empty};
ghost use Rattle.calendar.specs.Limits.{pool_limit};
ghost use Rattle.cursors.specs.Found.{Sound, Within};
ghost use Rattle.one_cell.specs.Along.{Along};
ghost use Rattle.one_cell.specs.Serves.{Serves};

use calendar::Calendar;

// Whether a row has one cell, and its labels over so many instants from 0 on are within the limits.
pub fn serves(row_period: i64, first: i32, period: usize) -> bool
    requires { period ≤ pool_limit }
    ensures { result ≡ true → Serves row_period first period }
{
    if row_period != 1 {
        return false;
    }
    first as i64 + period as i64 <= Calendar::GREATEST_LABEL
}

// How many cells have a label that is not `first` plus their index. They are counted in 32 bits, several at a time.
pub fn others(first: i32, cells: &[i32]) -> u32
    requires within { Within 1000000000 first }
    requires cells_len_bound { length cells.now ≤ pool_limit }
    ensures none { result ≡ 0 → Along first cells.now }
    ensures along { Along first cells.now → result ≡ 0 }
{
    let mut count: u32 = 0;
    let mut label = first;
    for &z in cells {
        if z != label && z != Calendar::EMPTY {
            count += 1;
        }
        label += 1;
    }
    count
}

// Whether each cell of a row has the label of its instant in a row of one cell, or none.
pub fn is_along(
    one_cells: &[i32],
    one_period: i64,
    one_distance: i64,
    cells: &[i32],
    period: i64,
    distance: i64,
) -> bool
    requires sound { Sound one_period one_distance one_cells.now × (one_period ≡ pos 1) }
    requires sound_2 { Sound period distance cells.now }
    ensures is { result ≡ true → Along (get_or one_cells.now 0 empty) cells.now }
    ensures back { Along (get_or one_cells.now 0 empty) cells.now → result ≡ true }
{
    others(one_cells[0], cells) == 0
}
