// The parts of a granule: the granules of another row that make it up, by one walk over it.

#![tactic(auto)]

ghost use Rattle.std.specs.Prelude.{◌≡◌, pos, length, replicate};
ghost use Rattle.calendar.specs.Questions.{given};
ghost use Rattle.cursors.specs.Found.{found, Sound};
ghost use Rattle.containment.specs.Places.{instant};
ghost use Rattle.containment.specs.First.{FirstInstant};
ghost use Rattle.parts.specs.Walk.{Roomy, Nearest, PartAt, EndAt, PartsOf};

use cursors::Cursor;

// What an instant says of the parts of a granule: none begins there, it is in a gap of the granule and has this label, the next part begins there,
// the granule is over, or the parts do not make it up.
#[derive(Clone, Copy)]
enum Part {
    Nothing,
    Outside(i64),
    Next(i64),
    End,
    Broken,
}

// The label of the nearest instant that has one, from the cursor's, back or on.
fn nearest_label(back: bool, cells: &[i32], period: i64, distance: i64, from: Cursor) -> i64
    requires sound { Sound period distance cells.now }
    requires roomy { Roomy (given period distance cells.now) from }
    ensures { Nearest back (given period distance cells.now) (instant (given period distance cells.now) from) result }
{
    let mut c = from;
    loop {
        let label = cursors::cursor_label(cells, period, distance, c);
        if let Some(j) = label {
            return j;
        }
        c = cursors::cursor_step(back, cells, period, distance, c);
    }
}

// What a walk finds where the granule is over, at the cursor's instant: the parts so far, unless the first label from there on is still that of the
// latest.
fn ended(
    count: usize,
    latest: i64,
    cells: &[i32],
    period: i64,
    distance: i64,
    from: Cursor,
) -> Option<usize>
    requires sound { Sound period distance cells.now }
    requires roomy { Roomy (given period distance cells.now) from }
    ensures { EndAt (given period distance cells.now) (instant (given period distance cells.now) from) count latest result }
{
    let next = nearest_label(false, cells, period, distance, from);
    if next == latest {
        return None;
    }
    Some(count)
}

// What an instant says of the parts of h's granule z, by its label in h, `own`, and in g. The latest part is `latest`, and `outside` is the last
// label of g that an instant before has outside the granule; before the first part they are the same.
fn part_at(z: i64, own: Option<i64>, label: Option<i64>, outside: i64, latest: i64) -> Part
    ensures { PartAt z (found own) (found label) outside latest result }
{
    let Some(j) = own else {
        let Some(k) = label else {
            return Part::Nothing;
        };
        if k == latest {
            return Part::Broken;
        }
        return Part::Outside(k);
    };
    if j != z {
        return Part::End;
    }
    let Some(k) = label else {
        return Part::Broken;
    };
    if k == outside {
        return Part::Broken;
    }
    if k == latest {
        return Part::Nothing;
    }
    Part::Next(k)
}

// The parts of h's granule z, whose first instant is `first`, into the cleared list, as many as it has room for; all are counted. One pass over the
// granule: a part that has an instant outside it, before, in a gap or behind, shows where the walk leaves the granule or comes back, as labels
// never fall.
pub fn parts_of(
    z: i64,
    first: i64,
    parts: &mut [i64],
    h_cells: &[i32],
    h_period: i64,
    h_distance: i64,
    g_cells: &[i32],
    g_period: i64,
    g_distance: i64,
) -> Option<usize>
    requires sound { Sound h_period h_distance h_cells.now }
    requires sound_2 { Sound g_period g_distance g_cells.now }
    requires first_instant { FirstInstant (given h_period h_distance h_cells.now) z first }
    requires parts_value { parts.old ≡ replicate (length parts.old) (pos 0) }
    ensures { PartsOf (given h_period h_distance h_cells.now) (given g_period g_distance g_cells.now) z parts.new result }
{
    let before = first - 1;
    let mut h = cursors::cursor_at(h_cells, h_period, h_distance, before);
    let mut g = cursors::cursor_at(g_cells, g_period, g_distance, before);
    let mut outside = nearest_label(true, g_cells, g_period, g_distance, g);
    let mut latest = outside;
    let mut count: usize = 0;
    loop {
        h = cursors::cursor_next(h_cells, h_period, h_distance, h);
        g = cursors::cursor_next(g_cells, g_period, g_distance, g);
        let own = cursors::cursor_label(h_cells, h_period, h_distance, h);
        let label = cursors::cursor_label(g_cells, g_period, g_distance, g);
        let part = part_at(z, own, label, outside, latest);
        match part {
            Part::Next(k) => {
                let i = count;
                count += 1;
                latest = k;
                if i < parts.len() {
                    parts[i] = k;
                }
            }
            Part::Nothing => {}
            Part::Outside(k) => outside = k,
            Part::End => return ended(count, latest, g_cells, g_period, g_distance, g),
            Part::Broken => return None,
        }
    }
}
