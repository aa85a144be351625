// The first and the last instant of a granule, and an instant's place in it, each by a walk with a cursor.

#![tactic(auto)]

ghost use Rattle.std.specs.Prelude.{◌≡◌, ℤ};
ghost use Rattle.std.proofs.Math.Option.{some};
ghost use Rattle.calendar.specs.Meaning.{meant};
ghost use Rattle.calendar.specs.Lists.{first, last};
ghost use Rattle.calendar.specs.Granules.{granule};
ghost use Rattle.calendar.specs.Questions as Q;
ghost use Rattle.calendar.specs.Questions.{given};
ghost use Rattle.cursors.specs.Found.{Sound, Labelled};
ghost use Rattle.granule_ends.specs.Ends.{end_of};

// The end of the granule of t in a direction, back to its first instant or on to its last: from t, past instants with no label, until another label
// shows.
fn end_instant(back: bool, cells: &[i32], period: i64, distance: i64, t: i64) -> i64
    requires sound { Sound period distance cells.now }
    requires labelled { Labelled (given period distance cells.now) t }
    ensures { (j : ℤ) → meant (given period distance cells.now) t ≡ some j → result ≡ end_of back (granule (given period distance cells.now) j) }
{
    let mut c = cursors::cursor_at(cells, period, distance, t);
    let own = cursors::cursor_label(cells, period, distance, c);
    let Some(j) = own else {
        return t;
    };
    let mut at = t;
    let mut end = t;
    loop {
        c = cursors::cursor_step(back, cells, period, distance, c);
        at = cursors::step(back, at);
        let label = cursors::cursor_label(cells, period, distance, c);
        match label {
            Some(k) => {
                if k != j {
                    return end;
                }
                end = at;
            }
            None => {}
        }
    }
}

// The first instant of the granule of t.
pub fn first_instant(cells: &[i32], period: i64, distance: i64, t: i64) -> i64
    requires sound { Sound period distance cells.now }
    requires labelled { Labelled (given period distance cells.now) t }
    ensures { (j : ℤ) → meant (given period distance cells.now) t ≡ some j → result ≡ first (granule (given period distance cells.now) j) }
{
    end_instant(true, cells, period, distance, t)
}

// The last instant of the granule of t.
pub fn last_instant(cells: &[i32], period: i64, distance: i64, t: i64) -> i64
    requires sound { Sound period distance cells.now }
    requires labelled { Labelled (given period distance cells.now) t }
    ensures { (j : ℤ) → meant (given period distance cells.now) t ≡ some j → result ≡ last (granule (given period distance cells.now) j) }
{
    end_instant(false, cells, period, distance, t)
}

// How many instants of the granule of t are not after t: back from t, until another label shows.
pub fn place(cells: &[i32], period: i64, distance: i64, t: i64) -> u64
    requires sound { Sound period distance cells.now }
    requires labelled { Labelled (given period distance cells.now) t }
    ensures { (j : ℤ) → meant (given period distance cells.now) t ≡ some j → result ≡ Q.place (given period distance cells.now) j t }
{
    let mut c = cursors::cursor_at(cells, period, distance, t);
    let own = cursors::cursor_label(cells, period, distance, c);
    let Some(j) = own else {
        return 0;
    };
    let mut at = t;
    let mut count: u64 = 1;
    loop {
        c = cursors::cursor_back(cells, period, distance, c);
        at -= 1;
        let label = cursors::cursor_label(cells, period, distance, c);
        match label {
            Some(k) => {
                if k != j {
                    return count;
                }
                count += 1;
            }
            None => {}
        }
    }
}
