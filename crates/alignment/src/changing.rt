// Check 9 as alter asks it, where every instant has a label in both operands: it is enough to look where b's label changes.

ghost use Rattle.std.specs.Prelude.{◌≡◌, true};
ghost use Rattle.calendar.specs.Operation.Alignment.{partition};
ghost use Rattle.calendar.specs.Checks.{aligned_as};
ghost use Rattle.calendar.specs.Questions.{given};
ghost use Rattle.cursors.specs.Found.{Sound};
ghost use Rattle.alignment.specs.Pass.{Spanned, Whole};

use super::comparing;

// Whether every instant of a row has a label.
pub fn is_whole(cells: &[i32], period: i64, distance: i64) -> bool
    requires { Sound period distance cells.now }
    ensures { result ≡ true → Whole (given period distance cells.now) }
{
    counts::labelled_instants(cells) == period
}

// Whether each granule of a lies in one of b: a's label changes wherever b's does, over one span.
pub fn changes_with(
    a_cells: &[i32],
    a_period: i64,
    a_distance: i64,
    b_cells: &[i32],
    b_period: i64,
    b_distance: i64,
    span: i64,
) -> bool
    requires sound { Sound a_period a_distance a_cells.now }
    requires sound_2 { Sound b_period b_distance b_cells.now }
    requires spanned { Spanned (given a_period a_distance a_cells.now) (given b_period b_distance b_cells.now) span }
    requires whole { Whole (given a_period a_distance a_cells.now) }
    requires whole_2 { Whole (given b_period b_distance b_cells.now) }
    ensures { result ≡ aligned_as partition (given a_period a_distance a_cells.now) (given b_period b_distance b_cells.now) }
{
    let mut a = cursors::cursor_at(a_cells, a_period, a_distance, 0);
    let mut b = cursors::cursor_at(b_cells, b_period, b_distance, 0);
    let mut t = 0;
    loop {
        let change = strides::next_change(b_cells, b_period, b_distance, b);
        t += change.steps;
        if t > span {
            return true;
        }
        let before = strides::cursor_on(a_cells, a_period, a_distance, a, change.steps - 1);
        let o = cursors::cursor_label(a_cells, a_period, a_distance, before);
        a = cursors::cursor_next(a_cells, a_period, a_distance, before);
        let x = cursors::cursor_label(a_cells, a_period, a_distance, a);
        if comparing::same(o, x) {
            return false;
        }
        b = change.cursor;
    }
}
