// Walks over the granules of two rows side by side: whether a granule of one lies in a granule of the other.

#![tactic(auto)]

ghost use Rattle.std.specs.Prelude.{◌≡◌, ℤ};
ghost use Rattle.std.proofs.Math.Option.{some};
ghost use Rattle.calendar.specs.Meaning.{meant};
ghost use Rattle.calendar.specs.Lists.{is, first};
ghost use Rattle.calendar.specs.Granules.{granule, inside};
ghost use Rattle.calendar.specs.Questions.{given, holder};
ghost use Rattle.cursors.specs.Found.{found, Sound, Labelled};
ghost use Rattle.cursors.specs.Cursor.{cursor_at, Standing};
ghost use Rattle.containment.specs.Sides.{Overlaps, inside_toward};
ghost use Rattle.containment.specs.Places.{at, Beside, step_at};

use cursors::Cursor;

pub mod seen;

// The cursors of two rows at one instant, the place of a walk that sees whether the granule k of b lies in the granule i of a.
#[derive(Clone, Copy)]
pub struct CursorPair {
    pub b: Cursor,
    pub k: i64,
    pub a: Cursor,
    pub i: i64,
}

// What an instant says to such a walk.
#[derive(Clone, Copy)]
enum Step {
    // Go on: it is in both granules, or has no label in b.
    On,
    // It has another label in b: the granule is done on this side.
    Done,
    // It is in b's granule and not in a's.
    Out,
}

// Whether the cursor's instant has the label j.
fn shows(cells: &[i32], period: i64, distance: i64, c: Cursor, j: i64) -> bool
    requires sound { Sound period distance cells.now }
    requires standing { Standing (given period distance cells.now) c }
    ensures { (u : ℤ) → c ≡ cursor_at (given period distance cells.now) u → result ≡ is j (meant (given period distance cells.now) u) }
{
    let label = cursors::cursor_label(cells, period, distance, c);
    match label {
        Some(i) => i == j,
        None => false,
    }
}

// What the instant of the place says.
fn step_at(
    b_cells: &[i32],
    b_period: i64,
    b_distance: i64,
    a_cells: &[i32],
    a_period: i64,
    a_distance: i64,
    p: CursorPair,
) -> Step
    requires sound { Sound b_period b_distance b_cells.now }
    requires sound_2 { Sound a_period a_distance a_cells.now }
    requires beside { Beside (given b_period b_distance b_cells.now) (given a_period a_distance a_cells.now) p }
    ensures { result ≡ step_at (given b_period b_distance b_cells.now) (given a_period a_distance a_cells.now) p }
{
    let label = cursors::cursor_label(b_cells, b_period, b_distance, p.b);
    let Some(k) = label else {
        return Step::On;
    };
    if k != p.k {
        return Step::Done;
    }
    if !shows(a_cells, a_period, a_distance, p.a, p.i) {
        return Step::Out;
    }
    Step::On
}

// Whether b's granule at the place lies in a's, as far as it goes back from that instant, or on.
fn inside_toward(
    back: bool,
    b_cells: &[i32],
    b_period: i64,
    b_distance: i64,
    a_cells: &[i32],
    a_period: i64,
    a_distance: i64,
    from: CursorPair,
) -> bool
    requires sound { Sound b_period b_distance b_cells.now }
    requires sound_2 { Sound a_period a_distance a_cells.now }
    requires overlaps { Overlaps (given b_period b_distance b_cells.now) (given a_period a_distance a_cells.now) from }
    ensures { result ≡ inside_toward back (given b_period b_distance b_cells.now) (given a_period a_distance a_cells.now) from }
{
    let mut next = from;
    loop {
        next.b = cursors::cursor_step(back, b_cells, b_period, b_distance, next.b);
        next.a = cursors::cursor_step(back, a_cells, a_period, a_distance, next.a);
        let step = step_at(
            b_cells, b_period, b_distance, a_cells, a_period, a_distance, next,
        );
        match step {
            Step::On => {}
            Step::Done => return true,
            Step::Out => return false,
        }
    }
}

// Whether b's granule at the place lies in a's.
pub fn inside_at(
    b_cells: &[i32],
    b_period: i64,
    b_distance: i64,
    a_cells: &[i32],
    a_period: i64,
    a_distance: i64,
    from: CursorPair,
) -> bool
    requires sound { Sound b_period b_distance b_cells.now }
    requires sound_2 { Sound a_period a_distance a_cells.now }
    requires overlaps { Overlaps (given b_period b_distance b_cells.now) (given a_period a_distance a_cells.now) from }
    ensures { result ≡ inside (given b_period b_distance b_cells.now) from.k (given a_period a_distance a_cells.now) from.i }
{
    inside_toward(
        false, b_cells, b_period, b_distance, a_cells, a_period, a_distance, from,
    ) && inside_toward(
        true, b_cells, b_period, b_distance, a_cells, a_period, a_distance, from,
    )
}

// Whether b's granule at the place, which is the granule's first instant, lies in a's.
pub fn inside_from_first(
    b_cells: &[i32],
    b_period: i64,
    b_distance: i64,
    a_cells: &[i32],
    a_period: i64,
    a_distance: i64,
    from: CursorPair,
) -> bool
    requires sound { Sound b_period b_distance b_cells.now }
    requires sound_2 { Sound a_period a_distance a_cells.now }
    requires overlaps { Overlaps (given b_period b_distance b_cells.now) (given a_period a_distance a_cells.now) from }
    requires from_value { at (given b_period b_distance b_cells.now) from ≡ first (granule (given b_period b_distance b_cells.now) from.k) }
    ensures whole { result ≡ inside (given b_period b_distance b_cells.now) from.k (given a_period a_distance a_cells.now) from.i }
{
    inside_toward(
        false, b_cells, b_period, b_distance, a_cells, a_period, a_distance, from,
    )
}

// Whether b's granule of t lies in a's.
pub fn inside(
    b_cells: &[i32],
    b_period: i64,
    b_distance: i64,
    a_cells: &[i32],
    a_period: i64,
    a_distance: i64,
    t: i64,
) -> bool
    requires sound { Sound b_period b_distance b_cells.now }
    requires sound_2 { Sound a_period a_distance a_cells.now }
    requires labelled { Labelled (given b_period b_distance b_cells.now) t }
    requires labelled_2 { Labelled (given a_period a_distance a_cells.now) t }
    ensures { (k i : ℤ) → meant (given b_period b_distance b_cells.now) t ≡ some k → meant (given a_period a_distance a_cells.now) t ≡ some i → result ≡ inside (given b_period b_distance b_cells.now) k (given a_period a_distance a_cells.now) i }
{
    let b = cursors::cursor_at(b_cells, b_period, b_distance, t);
    let a = cursors::cursor_at(a_cells, a_period, a_distance, t);
    let k = cursors::label_of(b_cells, b_period, b_distance, b);
    let i = cursors::label_of(a_cells, a_period, a_distance, a);
    let from = CursorPair { b, k, a, i };
    inside_at(
        b_cells, b_period, b_distance, a_cells, a_period, a_distance, from,
    )
}

// The label of h whose granule contains g's granule of t, if there is one.
pub fn holder(
    g_cells: &[i32],
    g_period: i64,
    g_distance: i64,
    h_cells: &[i32],
    h_period: i64,
    h_distance: i64,
    t: i64,
) -> Option<i64>
    requires sound { Sound g_period g_distance g_cells.now }
    requires sound_2 { Sound h_period h_distance h_cells.now }
    requires labelled { Labelled (given g_period g_distance g_cells.now) t }
    ensures { (z : ℤ) → meant (given g_period g_distance g_cells.now) t ≡ some z → found result ≡ holder (given g_period g_distance g_cells.now) (given h_period h_distance h_cells.now) z }
{
    let label = cursors::label_at(h_cells, h_period, h_distance, t);
    let Some(i) = label else {
        return None;
    };
    if inside(
        g_cells, g_period, g_distance, h_cells, h_period, h_distance, t,
    ) {
        Some(i)
    } else {
        None
    }
}
