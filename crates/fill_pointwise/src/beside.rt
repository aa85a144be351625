// A set operation with a row of one cell: each instant t has a label in it, `first` + t, and the other row, of which the
// working row is a turn, tells whether it is kept.

ghost use Rattle.std.specs.Prelude.{◌≡◌};
ghost use Rattle.calendar.specs.Meaning.{label_of};
ghost use Rattle.fill_pointwise.specs.Beside.{keeps_shared, keeps_first, keeps_second, kept_by, kept_cells, kept_count, BesideRoom};

use calendar::Calendar;
use kinds::SetOperation;

// Whether a set operation keeps the label where the other row has one too.
pub fn keeps_shared(set: SetOperation) -> bool
    ensures { result ≡ keeps_shared set }
{
    match set {
        SetOperation::Union => true,
        SetOperation::Intersection => true,
        SetOperation::Difference => false,
    }
}

// Whether it keeps the label of a where b has none.
pub fn keeps_first(set: SetOperation) -> bool
    ensures { result ≡ keeps_first set }
{
    match set {
        SetOperation::Union => true,
        SetOperation::Intersection => false,
        SetOperation::Difference => true,
    }
}

// Whether it keeps the label of b where a has none.
pub fn keeps_second(set: SetOperation) -> bool
    ensures { result ≡ keeps_second set }
{
    match set {
        SetOperation::Union => true,
        SetOperation::Intersection => false,
        SetOperation::Difference => false,
    }
}

// Whether a label is kept, by the other row's cell.
fn kept(cell: i32, bare: bool, shared: bool) -> bool
    ensures { result ≡ kept_by bare shared (label_of cell) }
{
    if cell == Calendar::EMPTY {
        bare
    } else {
        shared
    }
}

// Fills the cells of `period` instants from `at` on: the label of the instant where it is kept by the other row, whose cells
// stand from `from` on. Answers how many are kept.
pub fn fill_beside(
    first: i32,
    bare: bool,
    shared: bool,
    from: usize,
    at: usize,
    period: usize,
    pool: &mut [i32],
) -> u32
    requires { BesideRoom first from at period pool.old }
    ensures cells { pool.new ≡ kept_cells first bare shared from at period pool.old }
    ensures count { result ≡ kept_count bare shared from period pool.old }
{
    let mut label = first;
    let mut count: u32 = 0;
    for t in 0..period {
        let mut cell = Calendar::EMPTY;
        if kept(pool[from + t], bare, shared) {
            cell = label;
            count += 1;
        }
        pool[at + t] = cell;
        label += 1;
    }
    count
}
