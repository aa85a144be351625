// The coarse granules, one behind the other, each by where it begins.

ghost use Rattle.std.specs.Prelude.{◌≡◌, ◌^◌, ℤ, pos, ◌+ℤ◌, ◌-ℤ◌, ◌≤ℤ◌, ◌<ℤ◌};
ghost use Rattle.std.proofs.Math.Option.{some};
ghost use Rattle.calendar.specs.Meaning.{meant, Full};
ghost use Rattle.calendar.specs.Algebra.{Partition};
ghost use Rattle.calendar.specs.Questions.{given};
ghost use Rattle.cursors.specs.Found.{Sound, Within};
ghost use Rattle.alter_granules.specs.CoarseBegins.{at, CoarseBegins};

use cursors::Cursor;

// Where b's granule i begins, with the label p of a there: the first granule of a in it.
#[derive(Clone, Copy)]
pub struct Begin {
    pub i: i64,
    pub p: i64,
    pub a: Cursor,
    pub b: Cursor,
}

// Where b's granule of t begins.
pub fn begin_at(
    t: i64,
    a_cells: &[i32],
    a_period: i64,
    a_distance: i64,
    b_cells: &[i32],
    b_period: i64,
    b_distance: i64,
) -> Begin
    requires sound { Sound a_period a_distance a_cells.now }
    requires sound_2 { Sound b_period b_distance b_cells.now }
    requires full { Full (meant (given a_period a_distance a_cells.now)) × Full (meant (given b_period b_distance b_cells.now)) }
    requires partition { Partition (meant (given a_period a_distance a_cells.now)) (meant (given b_period b_distance b_cells.now)) }
    requires within { Within (2 ^ 52) t }
    requires t_value { (i : ℤ) × (meant (given b_period b_distance b_cells.now) t ≡ some i) }
    ensures begins { CoarseBegins (given a_period a_distance a_cells.now) (given b_period b_distance b_cells.now) result }
    ensures of { meant (given b_period b_distance b_cells.now) t ≡ some result.i }
    ensures near { ((t -ℤ b_period) ≤ℤ at (given b_period b_distance b_cells.now) result) × (at (given b_period b_distance b_cells.now) result ≤ℤ t) }
{
    let v = granule_ends::first_instant(b_cells, b_period, b_distance, t);
    let a = cursors::cursor_at(a_cells, a_period, a_distance, v);
    let b = cursors::cursor_at(b_cells, b_period, b_distance, v);
    let p = cursors::label_of(a_cells, a_period, a_distance, a);
    let i = cursors::label_of(b_cells, b_period, b_distance, b);
    Begin { i, p, a, b }
}

// Where the next granule of b begins: at the next instant with another label.
pub fn following(
    c: Begin,
    a_cells: &[i32],
    a_period: i64,
    a_distance: i64,
    b_cells: &[i32],
    b_period: i64,
    b_distance: i64,
) -> Begin
    requires sound { Sound a_period a_distance a_cells.now }
    requires sound_2 { Sound b_period b_distance b_cells.now }
    requires full { Full (meant (given a_period a_distance a_cells.now)) × Full (meant (given b_period b_distance b_cells.now)) }
    requires partition { Partition (meant (given a_period a_distance a_cells.now)) (meant (given b_period b_distance b_cells.now)) }
    requires coarse_begins { CoarseBegins (given a_period a_distance a_cells.now) (given b_period b_distance b_cells.now) c }
    requires within { Within (2 ^ 58) (at (given b_period b_distance b_cells.now) c) }
    ensures begins { CoarseBegins (given a_period a_distance a_cells.now) (given b_period b_distance b_cells.now) result }
    ensures of { result.i ≡ c.i +ℤ pos 1 }
    ensures near { (at (given b_period b_distance b_cells.now) c <ℤ at (given b_period b_distance b_cells.now) result) × (at (given b_period b_distance b_cells.now) result ≤ℤ (at (given b_period b_distance b_cells.now) c +ℤ b_period)) }
{
    let from = c.b;
    let change = strides::next_change(b_cells, b_period, b_distance, from);
    let a = strides::cursor_on(a_cells, a_period, a_distance, c.a, change.steps);
    let b = change.cursor;
    let p = cursors::label_of(a_cells, a_period, a_distance, a);
    let i = cursors::label_of(b_cells, b_period, b_distance, b);
    Begin { i, p, a, b }
}
