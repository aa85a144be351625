// A set operation over a piece of both rows: each instant's label by the cells of the two, raised by one number a row.

ghost use Rattle.std.specs.Prelude.{◌≡◌, cond};
ghost use Rattle.calendar.specs.Meaning.{label_of, empty};
ghost use Rattle.calendar.specs.Lists.{is_some};
ghost use Rattle.fill_pointwise.specs.Pieces.{is_outside, chosen_cell, label_cells, label_count, piece_label, PieceRoom};

use super::beside::{keeps_first, keeps_second, keeps_shared};
use calendar::Calendar;
use kinds::SetOperation;
use pieces::{Place, is_outside, raised};

// How many instants have a label, and how many of the labels are outside the limits.
#[derive(Clone, Copy)]
pub struct Counts {
    pub labelled: u32,
    pub outside: u32,
}

// The cell where it is kept.
fn only_if(keep: bool, cell: i32) -> i32
    ensures { result ≡ cond keep cell empty }
{
    if keep { cell } else { Calendar::EMPTY }
}

// The cell of an instant with the cells x in a and y in b: a's is kept where b has no label, or where both have one, b's where a has none.
// Each choice is between two cells at hand, so that several instants are chosen for at a time.
fn chosen(first: bool, shared: bool, second: bool, x: i32, y: i32) -> i32
    ensures { result ≡ chosen_cell first shared second x y }
{
    let bare = only_if(first, x);
    let both = only_if(shared, x);
    let other = only_if(second, y);
    let own = if y == Calendar::EMPTY { bare } else { both };
    if x == Calendar::EMPTY { other } else { own }
}

// 1 for a label, and 1 for one outside the limits.
fn counted(cell: i32) -> Counts
    ensures labelled { result.labelled ≡ cond (is_some (label_of cell)) 1 0 }
    ensures outside { result.outside ≡ cond (is_outside (label_of cell)) 1 0 }
{
    Counts {
        labelled: if cell == Calendar::EMPTY { 0 } else { 1 },
        outside: if is_outside(cell) { 1 } else { 0 },
    }
}

// Fills the cells of `count` instants from `to` on with the labels of a set operation over rows whose cells stand from the cells of the
// places on.
pub fn fill_piece(
    set: SetOperation,
    a: Place,
    b: Place,
    to: usize,
    count: usize,
    pool: &mut [i32],
) -> Counts
    requires { PieceRoom a b to count pool.old }
    ensures cells { pool.new ≡ label_cells (piece_label set a b pool.old) to count pool.old }
    ensures labelled { result.labelled ≡ label_count is_some (piece_label set a b pool.old) count }
    ensures outside { result.outside ≡ label_count is_outside (piece_label set a b pool.old) count }
{
    let first = keeps_first(set);
    let shared = keeps_shared(set);
    let second = keeps_second(set);
    let a_cell = a.cell;
    let a_rise = a.rise as i32;
    let b_cell = b.cell;
    let b_rise = b.rise as i32;
    let mut labelled: u32 = 0;
    let mut outside: u32 = 0;
    for i in 0..count {
        let x = raised(pool[a_cell + i], a_rise);
        let y = raised(pool[b_cell + i], b_rise);
        let cell = chosen(first, shared, second, x, y);
        pool[to + i] = cell;
        let counts = counted(cell);
        labelled += counts.labelled;
        outside += counts.outside;
    }
    Counts { labelled, outside }
}
