// The cells of a row that have a label: how many there are, and the one with so many before it.

ghost use Rattle.std.specs.Prelude.{◌≡◌, ◌+◌, ◌≤◌, ◌<◌, length};
ghost use Rattle.open_steps.specs.Ranked.{Nth};
ghost use Rattle.row_maps.specs.Making.{labelled};
ghost use Rattle.open_row.specs.Shown.{labelled_before};

use calendar::Calendar;
use row_check::scan;

// How many cells from `start` up to `end` have a label.
pub fn labelled_in(cells: &[i32], start: usize, end: usize) -> usize
    requires { (start ≤ end) × (end ≤ length cells.now) }
    ensures { labelled_before cells.now end ≡ labelled_before cells.now start + result }
{
    counts::labelled_instants(&cells[start..end]) as usize
}

// The cell with a label and k such cells between `start` and it, cell by cell.
fn nth_from(cells: &[i32], start: usize, k: usize) -> usize
    requires start_in_bounds { start ≤ length cells.now }
    requires k_bound { labelled_before cells.now start + k < labelled_before cells.now (length cells.now) }
    ensures { Nth (labelled cells.now) (labelled_before cells.now start + k) result }
{
    let mut left = k;
    for i in start..cells.len() {
        if cells[i] != Calendar::EMPTY {
            if left == 0 {
                return i;
            }
            left -= 1;
        }
    }
    cells.len()
}

// The cell with a label and k such cells before it: block by block, then in the block that has it.
pub fn nth_cell(cells: &[i32], k: usize) -> usize
    requires { k < labelled_before cells.now (length cells.now) }
    ensures { Nth (labelled cells.now) k result }
{
    let mut left = k;
    let mut i = 0;
    while i < cells.len() {
        let end = scan::block_end(i, cells.len());
        let here = labelled_in(cells, i, end);
        if left < here {
            return nth_from(cells, i, left);
        }
        left -= here;
        i = end;
    }
    i
}
