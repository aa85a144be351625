// What the loops share that compare a claimed row with the working row of an operation, instant by instant, and write nothing.

#![tactic(auto)]

ghost use Rattle.std.specs.Prelude.{◌≡◌, true, cond, ◌&&◌, ℕ, ◌+◌, ◌≤◌, ◌<◌, pos, ◌≤ℤ◌, length, take, drop};
ghost use Rattle.integers.specs.Parts.{up};
ghost use Rattle.calendar.specs.Meaning.{Row};
ghost use Rattle.calendar.specs.Operation.{Operation};
ghost use Rattle.calendar.specs.Lists.{same_label, if_label};
ghost use Rattle.calendar.specs.Limits.{in_range};
ghost use Rattle.calendar.specs.Distance.{size};
ghost use Rattle.calendar.specs.Compute.{result as result_of};
ghost use Rattle.cursors.specs.Found.{found};
ghost use Rattle.cursors.specs.Cursor.{Standing};
ghost use Rattle.kinds.specs.Stands.{end, row_in, Stands};
ghost use Rattle.calendar.specs.declared.Refusal.TheVariants.{NothingLabelled};
ghost use Rattle.match_shared.specs.Seen.{Compares};

use calendar::Refusal;
use cursors::Cursor;
use fill_shared::{any, end_of};
use kinds::Operand;

// What a loop carries: the cursor of its instant in the claimed row, whether an instant before it is labelled, and whether
// the labels before it are the same.
#[derive(Clone, Copy)]
pub struct Comparing {
    pub cursor: Cursor,
    pub labelled: bool,
    pub same: bool,
}

// The cells of a row that stands in the pool.
pub fn cells_of(pool: &[i32], a: Operand) -> &[i32]
    requires pos_bound { pos 0 ≤ℤ a.period }
    requires a_in_bounds { end a ≤ length pool.now }
    ensures { result.now ≡ take (up a.period) (drop a.start pool.now) }
{
    let start = a.start;
    let end = end_of(a, pool.len());
    &pool[start..end]
}

// Whether two labels are the same, or both are missing.
pub fn same_label(x: Option<i64>, y: Option<i64>) -> bool
    ensures { result ≡ same_label (found x) (found y) }
{
    x == y
}

// Whether all labels are the same, those before and these two.
pub fn still_same(same: bool, x: Option<i64>, y: Option<i64>) -> bool
    ensures { result ≡ same && same_label (found x) (found y) }
{
    if same { same_label(x, y) } else { false }
}

// What a claimed row is beside a working row whose labels are all within the limits.
pub fn outcome(labelled: bool, same: bool) -> Result<bool, Refusal>
    ensures { result ≡ cond labelled (Ok same) (Err NothingLabelled) }
{
    if labelled {
        Ok(same)
    } else {
        Err(Refusal::NothingLabelled)
    }
}

// Before the instant 0.
pub fn begin() -> Comparing
    ensures { (o : Operation Row) (r : Row) → 1 ≤ r.period → Compares o r 0 result }
{
    Comparing {
        cursor: Cursor { index: 0, rise: 0 },
        labelled: false,
        same: true,
    }
}

// One instant more, which has the label in the working row.
pub fn compared(label: Option<i64>, pool: &[i32], r: Operand, s: Comparing) -> Comparing
    requires pos_bound { pos 0 ≤ℤ r.period }
    requires stands { Stands pool.now r }
    requires standing { Standing (row_in pool.now r) s.cursor }
    ensures { (o : Operation Row) (t : ℕ) → Compares o (row_in pool.now r) t s → t < (size o).period → found label ≡ result_of o (pos t) → if_label (found label) in_range ≡ true → Compares o (row_in pool.now r) (t + 1) result }
{
    let cells = cells_of(pool, r);
    let own = cursors::cursor_label(cells, r.period, r.distance, s.cursor);
    let cursor = cursors::cursor_next(cells, r.period, r.distance, s.cursor);
    Comparing {
        cursor,
        labelled: any(s.labelled, label),
        same: still_same(s.same, own, label),
    }
}
