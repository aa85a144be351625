// Which granules of the row a a selection keeps, judged by the granules of the row b: document 01's kinds 6, 7 and 8.

#![tactic(auto)]

ghost use Rattle.std.specs.Prelude.{◌≡◌, true, false, ◌&&◌, ◌^◌, pos};
ghost use Rattle.std.proofs.Math.Option.{some};
ghost use Rattle.std.specs.Int.Signed.{le_z, lt_z};
ghost use Rattle.calendar.specs.Meaning.{meant};
ghost use Rattle.calendar.specs.Lists.{first, equal};
ghost use Rattle.calendar.specs.Granules.{granule};
ghost use Rattle.calendar.specs.Questions.{given};
ghost use Rattle.cursors.specs.Found.{Sound, Within};
ghost use Rattle.cursors.specs.Cursor.{cursor_at};
ghost use Rattle.select_granules.specs.Memos as Memos;
ghost use Rattle.kinds.specs.Limits.{Picking};
ghost use Rattle.select_granules.specs.Memos.{Remembers, flag_of};
ghost use Rattle.select_granules.specs.Deciding.{Decides, is_up};
ghost use Rattle.kinds.specs.declared.Pick.{Pick};
ghost use Rattle.kinds.specs.declared.Selection.TheVariants.{Down, Intersecting};

use cursors::Cursor;
use kinds::{Pick, Selection};

mod judging;
mod taking;
mod up;

// What Pick takes for b's granule `of`, once that is known (1 is yes): of the granules in question those from low to high, if any. Here and below a
// test that is kept is a number: the padding of a bool slows down each copy.
#[derive(Clone, Copy)]
pub struct Picked {
    pub known: i64,
    pub of: i64,
    pub low: i64,
    pub high: i64,
}

// Whether a granule of a is kept (1 is yes), and what is known of Pick then.
#[derive(Clone, Copy)]
pub struct Decision {
    pub holds: i64,
    pub picked: Picked,
}

// Nothing is known of Pick.
pub fn unknown() -> Picked
    ensures { result.known ≡ pos 0 }
{
    Picked {
        known: 0,
        of: 0,
        low: 1,
        high: 0,
    }
}

// Whether it is known what Pick takes for b's granule i.
fn knows(m: Picked, i: i64) -> bool
    ensures { result ≡ equal m.known (pos 1) && equal m.of i }
{
    if m.known == 1 { m.of == i } else { false }
}

// Whether j is among what was picked.
fn taken(m: Picked, j: i64) -> bool
    ensures { result ≡ Memos.taken m j }
{
    if j < m.low {
        return false;
    }
    j <= m.high
}

// Whether j comes before all that was picked, where anything was.
fn precedes(m: Picked, j: i64) -> bool
    ensures { result ≡ le_z m.low m.high && lt_z j m.low }
{
    if m.low <= m.high { j < m.low } else { false }
}

// A decision.
fn decide(holds: bool, picked: Picked) -> Decision
    ensures holds { result.holds ≡ flag_of holds }
    ensures picked { result.picked ≡ picked }
{
    if holds {
        Decision { holds: 1, picked }
    } else {
        Decision { holds: 0, picked }
    }
}

// Whether the kind is select-up.
pub fn is_up(s: Selection) -> bool
    ensures { result ≡ is_up s }
{
    match s {
        Selection::Up => true,
        _ => false,
    }
}

// Whether Pick takes of the granules inside b's, or else of those that meet it.
fn is_whole(s: Selection) -> bool
    ensures { ((p : Pick) → s ≡ Down p → result ≡ true) × ((p : Pick) → s ≡ Intersecting p → result ≡ false) }
{
    match s {
        Selection::Intersecting(_) => false,
        _ => true,
    }
}

// Its Pick, where it has one.
pub fn pick_of(s: Selection) -> Pick
    ensures { ((p : Pick) → s ≡ Down p → result ≡ p) × ((p : Pick) → s ≡ Intersecting p → result ≡ p) }
{
    match s {
        Selection::Down(p) => p,
        Selection::Intersecting(p) => p,
        Selection::Up => Pick { x: 1, y: 1 },
    }
}

// Whether a's granule j, of which t is an instant, is kept. The cursors are those of t; `fresh` says that it is the granule's first instant.
pub fn decided(
    s: Selection,
    m: Picked,
    fresh: bool,
    j: i64,
    t: i64,
    a: Cursor,
    b: Cursor,
    a_cells: &[i32],
    a_period: i64,
    a_distance: i64,
    b_cells: &[i32],
    b_period: i64,
    b_distance: i64,
) -> Decision
    requires sound { Sound a_period a_distance a_cells.now }
    requires sound_2 { Sound b_period b_distance b_cells.now }
    requires picking { Picking s }
    requires remembers { Remembers s (given a_period a_distance a_cells.now) (given b_period b_distance b_cells.now) m }
    requires within { Within (2 ^ 49) t }
    requires t_value { meant (given a_period a_distance a_cells.now) t ≡ some j }
    requires a_value { a ≡ cursor_at (given a_period a_distance a_cells.now) t }
    requires b_value { b ≡ cursor_at (given b_period b_distance b_cells.now) t }
    requires t_value_2 { fresh ≡ true → t ≡ first (granule (given a_period a_distance a_cells.now) j) }
    ensures { Decides s (given a_period a_distance a_cells.now) (given b_period b_distance b_cells.now) j result }
{
    if is_up(s) {
        let holds = up::holds_granule(
            fresh, j, t, a, b, a_cells, a_period, a_distance, b_cells, b_period, b_distance,
        );
        return decide(holds, m);
    }
    judging::judged(
        pick_of(s),
        is_whole(s),
        m,
        fresh,
        j,
        t,
        a,
        b,
        a_cells,
        a_period,
        a_distance,
        b_cells,
        b_period,
        b_distance,
    )
}
