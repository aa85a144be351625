// What passes over the cells of a row find: whether it passes check 13, and an instant with a label.

#![tactic(auto)]

ghost use Rattle.std.specs.Prelude.{◌≡◌, ℤ, pos, ◌^◌, ◌≤ℤ◌};
ghost use Rattle.integers.specs.Parts.{up};
ghost use Rattle.std.proofs.Math.Option.{some};
ghost use Rattle.calendar.specs.Granules.{instant_of};
ghost use Rattle.calendar.specs.Limits.{pool_limit};
ghost use Rattle.calendar.specs.Sound as S;
ghost use Rattle.calendar.specs.Questions.{given};
ghost use Rattle.cursors.specs.Found.{found, Sound, Within};
ghost use Rattle.row_check.specs.Order.{labels_sound};

use calendar::{Calendar, LONGEST_PERIOD};

pub mod scan;

// An instant with the label z: z less whole turns, counted from the first label, is in the row itself.
pub fn instant_of(cells: &[i32], period: i64, distance: i64, z: i64) -> Option<i64>
    requires sound { Sound period distance cells.now }
    requires within { Within 1000000000 z }
    ensures result_value { found result ≡ instant_of (given period distance cells.now) z }
    ensures within_2 { (t : ℤ) → found result ≡ some t → Within (2 ^ 54) t }
{
    let turns = integers::floor_div(z - scan::first_label(cells), distance);
    let cell = z - turns * distance;
    let i = scan::position(cells, cell as i32);
    if i < cells.len() {
        Some(i as i64 + turns * period)
    } else {
        None
    }
}

// The labels of a row pass check 13. As they never fall, only the first can be too small, and only the last too great.
fn labels_sound(cells: &[i32], distance: i64) -> bool
    requires { (pos 0 ≤ℤ distance) × (distance ≤ℤ pos pool_limit) }
    ensures { result ≡ labels_sound (up distance) cells.now }
{
    let start = scan::leading(cells);
    if cells.len() <= start {
        return false;
    }
    let first = scan::wide(cells, start);
    let end = scan::last_label(cells, start);
    let Some(last) = end else {
        return false;
    };
    if first < Calendar::LEAST_LABEL {
        return false;
    }
    if last > Calendar::GREATEST_LABEL {
        return false;
    }
    last <= first + distance
}

// The row passes check 13.
pub fn sound(cells: &[i32], period: i64, distance: i64) -> bool
    ensures { result ≡ S.sound (given period distance cells.now) }
{
    if distance < 1 {
        return false;
    }
    if period < distance {
        return false;
    }
    if period > LONGEST_PERIOD {
        return false;
    }
    if cells.len() != period as usize {
        return false;
    }
    labels_sound(cells, distance)
}
