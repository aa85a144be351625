// Renumber: the labels one by one from the least that is not below x, which gets 1. The working row is a turn of the operand, cell for cell.

ghost use Rattle.std.specs.Prelude.{◌≡◌, ◌+◌, pos, negsuc, ◌+ℤ◌, ◌-ℤ◌, ◌≤ℤ◌, ◌<ℤ◌};
ghost use Rattle.calendar.specs.Compute.{count, renumbered, anchored};
ghost use Rattle.calendar.specs.Questions.{given};
ghost use Rattle.cursors.specs.Found.{Sound};
ghost use Rattle.kinds.specs.declared.Kind.TheVariants.{Renumber};
ghost use Rattle.kinds.specs.Stands.{row_in};
ghost use Rattle.fill_shared.specs.Fillable.{Fillable};
ghost use Rattle.fill_shared.specs.Placed.{Placed, over, Fills};

use calendar::{Calendar, Refusal};
use fill_shared::{end_of, last_before};
use kinds::Operand;

// How many labels there are above `last`, which is the last before the instant 0, and below x, which is at most a turn above it. The row's
// own cells have them all, and labels never fall, so each cell above those before it has a new one; an empty cell is below every label.
fn labels_below(x: i64, last: i64, a_cells: &[i32], a_period: i64, a_distance: i64) -> i64
    requires sound { Sound a_period a_distance a_cells.now }
    requires last_value { last ≡ anchored (given a_period a_distance a_cells.now) (negsuc 0) }
    requires last_lt_x { (last <ℤ x) × (x ≤ℤ (last +ℤ a_distance)) }
    ensures { result ≡ pos (count (given a_period a_distance a_cells.now) (last +ℤ pos 1) (x -ℤ pos 1)) }
{
    let mut label = last;
    let mut labels: usize = 0;
    for cell in a_cells {
        let z = *cell as i64;
        if z >= x {
            return labels as i64;
        }
        if z > label {
            label = z;
            labels += 1;
        }
    }
    labels as i64
}

// The number of the last label before the instant 0, which is `last`: 0 less the labels above it and below x, by whole turns and the rest.
pub fn number_of(x: i64, last: i64, a_cells: &[i32], a_period: i64, a_distance: i64) -> i64
    requires fillable { Fillable (Renumber x) (given a_period a_distance a_cells.now) (given a_period a_distance a_cells.now) }
    requires last_value { last ≡ anchored (given a_period a_distance a_cells.now) (negsuc 0) }
    ensures { result ≡ renumbered (given a_period a_distance a_cells.now) x last }
{
    let turns = integers::floor_div(x - last - 1, a_distance);
    let rest = labels_below(x - turns * a_distance, last, a_cells, a_period, a_distance);
    if turns == 0 {
        return 0 - rest;
    }
    let granules = counts::granules(a_cells, a_period, a_distance);
    0 - turns * granules - rest
}

// Fills the working row of a renumbering: a label that is not the last one is the next.
pub fn fill_renumber(
    x: i64,
    span: i64,
    at: usize,
    period: usize,
    pool: &mut [i32],
    a: Operand,
    b: Operand,
) -> Result<(), Refusal>
    requires fillable { Fillable (Renumber x) (row_in pool.old a) (row_in pool.old b) }
    requires placed { Placed (Renumber x) a b span at period pool.old }
    ensures { Fills (over (Renumber x) pool.old a b) at period pool.old pool.new result }
{
    let start = a.start;
    let end = end_of(a, at);
    let a_period = a.period;
    let a_distance = a.distance;
    let mut last = last_before(&pool[start..end], a_period, a_distance);
    let mut number = number_of(x, last, &pool[start..end], a_period, a_distance);
    for t in 0..period {
        let cell = pool[start + t];
        let mut label = Calendar::EMPTY;
        if cell != Calendar::EMPTY {
            let j = cell as i64;
            if j != last {
                last = j;
                number += 1;
            }
            if !Calendar::in_range(number) {
                return Err(Refusal::LabelOutsideLimits);
            }
            label = number as i32;
        }
        pool[at + t] = label;
    }
    Ok(())
}
