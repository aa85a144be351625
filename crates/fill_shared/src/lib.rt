// What the loops share that fill the working row of an operation in, behind the rows that stand in the pool already.

#![tactic(auto)]

ghost use Rattle.std.specs.Prelude.{◌≡◌, true, false, cond, ◌||◌, ◌&&◌, ◌+◌, ◌≤◌, ◌<◌, pos, negsuc, ◌≤ℤ◌, length, set};
ghost use Rattle.std.specs.Int.Signed.{le_z};
ghost use Rattle.calendar.specs.Lists.{is_some, if_label};
ghost use Rattle.calendar.specs.Compute.{cell_of, anchored};
ghost use Rattle.calendar.specs.Limits.{in_range};
ghost use Rattle.calendar.specs.Questions.{given};
ghost use Rattle.cursors.specs.Found.{found, Sound};
ghost use Rattle.kinds.specs.Stands.{end};
ghost use Rattle.calendar.specs.declared.Refusal.TheVariants.{NothingLabelled};

use calendar::{Calendar, Refusal};
use kinds::Operand;

// The number that the labels from low to high all get.
#[derive(Clone, Copy)]
pub struct Known {
    pub number: i64,
    pub low: i64,
    pub high: i64,
}

// Whether the label's number is known.
pub fn covers(known: Known, j: i64) -> bool
    ensures { result ≡ le_z known.low j && le_z j known.high }
{
    if known.low <= j {
        j <= known.high
    } else {
        false
    }
}

// The cell behind the last one of an operand that stands before the cell `at`.
pub fn end_of(a: Operand, at: usize) -> usize
    requires pos_bound { pos 0 ≤ℤ a.period }
    requires a_bound { end a ≤ at }
    ensures { result ≡ end a }
{
    a.start + a.period as usize
}

// Writes the cell of a label, or of none, at i; false, and nothing, where the label is outside the limits.
pub fn store(label: Option<i64>, i: usize, pool: &mut [i32]) -> bool
    requires { i < length pool.old }
    ensures within { result ≡ if_label (found label) in_range }
    ensures length { length pool.new ≡ length pool.old }
    ensures cell { result ≡ true → pool.new ≡ set pool.old i (cell_of (found label)) }
    ensures kept { result ≡ false → pool.new ≡ pool.old }
{
    match label {
        Some(j) => {
            if !Calendar::in_range(j) {
                return false;
            }
            pool[i] = j as i32;
            true
        }
        None => {
            pool[i] = Calendar::EMPTY;
            true
        }
    }
}

// Whether there is a label, this one or one before.
pub fn any(labelled: bool, label: Option<i64>) -> bool
    ensures { result ≡ is_some (found label) || labelled }
{
    label.is_some() || labelled
}

// What a working row is whose labels are all within the limits.
pub fn outcome(labelled: bool) -> Result<(), Refusal>
    ensures { result ≡ cond labelled (Ok tt) (Err NothingLabelled) }
{
    if labelled {
        Ok(())
    } else {
        Err(Refusal::NothingLabelled)
    }
}

// The label of the last labelled instant before 0.
pub fn last_before(cells: &[i32], period: i64, distance: i64) -> i64
    requires { Sound period distance cells.now }
    ensures { result ≡ anchored (given period distance cells.now) (negsuc 0) }
{
    let mut c = cursors::cursor_at(cells, period, distance, -1);
    loop {
        let label = cursors::cursor_label(cells, period, distance, c);
        match label {
            Some(j) => {
                return j;
            }
            None => {}
        }
        c = cursors::cursor_back(cells, period, distance, c);
    }
}
