// Two rows gone over piece by piece. In a piece the cells of each row follow one another, so that one number raises all its
// labels: a loop over a piece is a plain loop over cells of 32 bits.

#![tactic(auto)]

ghost use Rattle.std.specs.Prelude.{◌≡◌, not, ◌+◌, ◌≤◌, min, ℤ};
ghost use Rattle.std.proofs.Math.Option.{some};
ghost use Rattle.calendar.specs.Meaning.{label_of, raise};
ghost use Rattle.calendar.specs.Lists.{if_label};
ghost use Rattle.calendar.specs.Limits.{pool_limit, in_range};
ghost use Rattle.cursors.specs.Found.{Within, Near};
ghost use Rattle.pieces.specs.Places.{place_from, place_on};

use calendar::Calendar;

// The place of an instant in a row: its cell, and how far the labels of its turn are above those of the first turn.
#[derive(Clone, Copy)]
pub struct Place {
    pub cell: usize,
    pub rise: i64,
}

// The place so many instants on, which are at most those up to the end of the turn.
pub fn place_on(p: Place, count: usize, period: usize, distance: i64) -> Place
    requires count_bound { p.cell + count ≤ period }
    requires near { Near p.rise × Near distance }
    ensures { result ≡ place_on p count period distance }
{
    let cell = p.cell + count;
    if cell < period {
        Place { cell, rise: p.rise }
    } else {
        Place {
            cell: 0,
            rise: p.rise + distance,
        }
    }
}

// The place in a list in which the row's cells stand from `start` on.
pub fn place_from(start: usize, p: Place) -> Place
    requires { start + p.cell ≤ pool_limit }
    ensures { result ≡ place_from start p }
{
    Place {
        cell: start + p.cell,
        rise: p.rise,
    }
}

// The lesser of two.
pub fn lesser(x: usize, y: usize) -> usize
    ensures { result ≡ min x y }
{
    if x < y { x } else { y }
}

// The cell of a label plus a number, or the empty mark.
pub fn raised(cell: i32, rise: i32) -> i32
    requires within { (j : ℤ) → label_of cell ≡ some j → Within 1000000000 j }
    requires within_2 { Within 1000000000 rise }
    ensures { label_of result ≡ raise rise (label_of cell) }
{
    if cell == Calendar::EMPTY {
        cell
    } else {
        cell + rise
    }
}

// Whether the cell has a label outside the limits.
pub fn is_outside(cell: i32) -> bool
    ensures { result ≡ not (if_label (label_of cell) in_range) }
{
    if cell == Calendar::EMPTY {
        false
    } else {
        cell > Calendar::GREATEST_LABEL as i32 || cell < Calendar::LEAST_LABEL as i32
    }
}
