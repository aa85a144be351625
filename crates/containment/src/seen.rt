// What an instant says to a walk over a granule of one row, for the granules of another that it meets.

ghost use Rattle.std.specs.Prelude.{◌^◌, ◌≡◌};
ghost use Rattle.calendar.specs.Questions.{given};
ghost use Rattle.cursors.specs.Found.{Sound, Within};
ghost use Rattle.cursors.specs.Cursor.{cursor_at};
ghost use Rattle.containment.specs.Seen.{SeenAt};

use cursors::Cursor;

// What an instant says of a's granule j.
#[derive(Clone, Copy)]
pub enum Seen {
    // It has no label in a.
    Off,
    // It is in the granule, and has no label in b.
    Bare,
    // It is in another granule of a.
    Over,
    // It is in the granule, and in b's granule of this label.
    Of(i64),
}

// What the instant t says, with its cursors.
pub fn seen_at(
    j: i64,
    t: i64,
    a: Cursor,
    b: Cursor,
    a_cells: &[i32],
    a_period: i64,
    a_distance: i64,
    b_cells: &[i32],
    b_period: i64,
    b_distance: i64,
) -> Seen
    requires sound { Sound a_period a_distance a_cells.now }
    requires sound_2 { Sound b_period b_distance b_cells.now }
    requires within { Within (2 ^ 59) t }
    requires a_value { a ≡ cursor_at (given a_period a_distance a_cells.now) t }
    requires b_value { b ≡ cursor_at (given b_period b_distance b_cells.now) t }
    ensures { SeenAt (given a_period a_distance a_cells.now) (given b_period b_distance b_cells.now) j t result }
{
    let own = cursors::cursor_label(a_cells, a_period, a_distance, a);
    let Some(k) = own else {
        return Seen::Off;
    };
    if k != j {
        return Seen::Over;
    }
    let label = cursors::cursor_label(b_cells, b_period, b_distance, b);
    let Some(i) = label else {
        return Seen::Bare;
    };
    Seen::Of(i)
}
