// Passes over the cells of a row.

ghost use Rattle.std.specs.Prelude.{◌≡◌, ◌<◌, ◌≤◌, length, get_or, drop};
ghost use Rattle.std.specs.Int.{w32};
ghost use Rattle.std.proofs.Common.{SFits};
ghost use Rattle.calendar.specs.Meaning.{empty};
ghost use Rattle.calendar.specs.Granules.{first_label};
ghost use Rattle.cursors.specs.Found.{found};
ghost use Rattle.cursors.specs.Search as S;
ghost use Rattle.row_check.specs.Blocks.{Block};
ghost use Rattle.row_check.specs.Order.{risen, risen_from, risen_behind};

use calendar::Calendar;

// The cell at the index i, which is a number of 32 bits.
pub fn wide(cells: &[i32], i: usize) -> i64
    requires { i < length cells.now }
    ensures { (result ≡ get_or cells.now i empty) × SFits w32 result }
{
    cells[i] as i64
}

// How many cells stand before the first label.
pub fn leading(cells: &[i32]) -> usize
    ensures { result ≡ S.leading cells.now }
{
    cells
        .iter()
        .position(|y| *y != Calendar::EMPTY)
        .unwrap_or(cells.len())
}

// The first label of a row that has one.
pub fn first_label(cells: &[i32]) -> i64
    requires { S.leading cells.now < length cells.now }
    ensures { result ≡ first_label cells.now }
{
    let i = leading(cells);
    wide(cells, i)
}

// The index of the first cell that is z, or the number of cells.
pub fn position(cells: &[i32], z: i32) -> usize
    ensures { result ≡ S.position z cells.now }
{
    cells.iter().position(|y| *y == z).unwrap_or(cells.len())
}

// The most cells that are counted at a time, in a number of 32 bits: those of a cell's width are counted several at once.
const BLOCK: usize = 1024;

// Fewer cells than this are passed one by one.
const SHORT: usize = 32;

// The end of the block that begins at `start`, of a row with `len` cells.
pub fn block_end(start: usize, len: usize) -> usize
    requires { start < len }
    ensures { Block start result len × (start < result) }
{
    if len - start > BLOCK {
        start + BLOCK
    } else {
        len
    }
}

// How many cells from `start` up to `end` are below the one before. Where none is, the labels go on from the last of
// them. An empty cell behind a label is below it.
fn falls_in(cells: &[i32], start: usize, end: usize) -> u32
    requires { Block start end (length cells.now) × (1 ≤ start) }
    ensures { result ≡ 0 → risen_behind cells.now start ≡ risen_behind cells.now end }
{
    let mut count: u32 = 0;
    for i in start..end {
        if cells[i] < cells[i - 1] {
            count += 1;
        }
    }
    count
}

// An index up to which no cell from `start` on is below the one before: the last, or the one before the first block with
// such a cell.
fn rising_to(cells: &[i32], start: usize) -> usize
    requires { start < length cells.now }
    ensures within { result < length cells.now }
    ensures start_value { risen_from cells.now start ≡ risen_from cells.now result }
{
    let mut i = start + 1;
    while i < cells.len() {
        let end = block_end(i, cells.len());
        if falls_in(cells, i, end) != 0 {
            return i - 1;
        }
        i = end;
    }
    i - 1
}

// The last label from that of the cell at `start` on; nothing where labels fall. An empty cell is below every label.
// A turn looks at two cells; where their number is odd, the first, which has the label itself, is left out.
fn last_stepped(cells: &[i32], start: usize) -> Option<i64>
    requires { start < length cells.now }
    ensures { found result ≡ risen_from cells.now start }
{
    let mut last = cells[start];
    let mut i = start + (cells.len() - start) % 2;
    while i < cells.len() {
        let y = cells[i];
        if y >= last {
            last = y;
        } else if y != Calendar::EMPTY {
            return None;
        }
        let z = cells[i + 1];
        if z >= last {
            last = z;
        } else if z != Calendar::EMPTY {
            return None;
        }
        i += 2;
    }
    Some(last as i64)
}

// The last label from the first on, which stands at `start`; nothing where labels fall. Cells that never fall have no gap,
// and are passed many at a time; a short row is not worth it.
pub fn last_label(cells: &[i32], start: usize) -> Option<i64>
    requires { start < length cells.now }
    ensures { found result ≡ risen (get_or cells.now start empty) (drop start cells.now) }
{
    if cells.len() - start < SHORT {
        return last_stepped(cells, start);
    }
    let from = rising_to(cells, start);
    last_stepped(cells, from)
}
