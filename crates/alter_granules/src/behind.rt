// A walk over the instants of a behind the scan.

ghost use Rattle.std.specs.Prelude.{◌≡◌, pos};
ghost use Rattle.std.proofs.Math.Option.{some};
ghost use Rattle.calendar.specs.Meaning.{meant};
ghost use Rattle.calendar.specs.Questions.{given};
ghost use Rattle.cursors.specs.Found.{found, Sound};
ghost use Rattle.cursors.specs.Cursor.{cursor_at};
ghost use Rattle.alter_granules.specs.Follows.{at_least, Seeks};

use cursors::Cursor;

// An instant, with its cursor in a.
#[derive(Clone, Copy)]
pub struct Instant {
    pub index: usize,
    pub cursor: Cursor,
}

// Whether there is a label, and it is not below j.
pub fn at_least(label: Option<i64>, j: i64) -> bool
    ensures { result ≡ at_least j (found label) }
{
    match label {
        Some(k) => j <= k,
        None => false,
    }
}

// On to an instant of a's granule j.
pub fn seek(from: Instant, j: i64, cells: &[i32], period: i64, distance: i64) -> Instant
    requires sound { Sound period distance cells.now }
    requires seeks { Seeks (given period distance cells.now) from j }
    ensures cursor { result.cursor ≡ cursor_at (given period distance cells.now) (pos result.index) }
    ensures label { meant (given period distance cells.now) (pos result.index) ≡ some j }
{
    let mut index = from.index;
    let mut cursor = from.cursor;
    loop {
        let label = cursors::cursor_label(cells, period, distance, cursor);
        if at_least(label, j) {
            return Instant { index, cursor };
        }
        cursor = cursors::cursor_next(cells, period, distance, cursor);
        index += 1;
    }
}
