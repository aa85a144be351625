// Select-down and select-intersecting: whether Pick takes a granule of a for a granule of b, in which it lies or which it meets.

ghost use Rattle.std.specs.Prelude.{◌≡◌, true, ◌^◌};
ghost use Rattle.std.proofs.Math.Option.{some};
ghost use Rattle.calendar.specs.Meaning.{meant};
ghost use Rattle.calendar.specs.Lists.{first};
ghost use Rattle.calendar.specs.Granules.{granule};
ghost use Rattle.calendar.specs.Questions.{given};
ghost use Rattle.cursors.specs.Found.{Sound, Within};
ghost use Rattle.cursors.specs.Cursor.{cursor_at};
ghost use Rattle.candidates.specs.Tallies.{candidates};
ghost use Rattle.kinds.specs.Limits.{PickLimits};
ghost use Rattle.select_granules.specs.Memos.{Picks, Recalls};
ghost use Rattle.select_granules.specs.Deciding.{takes, selection_by, Decides};
ghost use Rattle.select_granules.specs.Meeting.{StartsAt};

use super::{Decision, Picked};
use candidates::ends::Instant;
use containment::CursorPair;
use containment::seen::Seen;
use cursors::Cursor;
use kinds::Pick;

// Whether a's granule j, at t, is taken for b's granule i there, by what Pick takes for it. The first and the last that are taken are in question;
// another between them may not lie in b's granule, where it must.
fn taken_at(
    pick: Pick,
    whole: bool,
    m: Picked,
    i: i64,
    j: i64,
    t: i64,
    a: Cursor,
    b: Cursor,
    a_cells: &[i32],
    a_period: i64,
    a_distance: i64,
    b_cells: &[i32],
    b_period: i64,
    b_distance: i64,
) -> bool
    requires sound { Sound a_period a_distance a_cells.now }
    requires sound_2 { Sound b_period b_distance b_cells.now }
    requires within { Within (2 ^ 50) t }
    requires t_value { meant (given a_period a_distance a_cells.now) t ≡ some j }
    requires t_value_2 { meant (given b_period b_distance b_cells.now) t ≡ some i }
    requires a_value { a ≡ cursor_at (given a_period a_distance a_cells.now) t }
    requires b_value { b ≡ cursor_at (given b_period b_distance b_cells.now) t }
    requires picks { Picks pick (candidates whole (given a_period a_distance a_cells.now) (given b_period b_distance b_cells.now) i) m }
    ensures { result ≡ takes pick whole (given a_period a_distance a_cells.now) (given b_period b_distance b_cells.now) j i }
{
    if !super::taken(m, j) {
        return false;
    }
    if !whole {
        return true;
    }
    if j == m.low {
        return true;
    }
    if j == m.high {
        return true;
    }
    let place = CursorPair {
        b: a,
        k: j,
        a: b,
        i,
    };
    containment::inside_at(
        a_cells, a_period, a_distance, b_cells, b_period, b_distance, place,
    )
}

// Where the walk over a's granule j begins: with t, where only b's granule there can hold it whole, else with its first instant.
fn start_of(
    whole: bool,
    fresh: bool,
    j: i64,
    t: i64,
    a: Cursor,
    b: Cursor,
    a_cells: &[i32],
    a_period: i64,
    a_distance: i64,
    b_cells: &[i32],
    b_period: i64,
    b_distance: i64,
) -> Instant
    requires sound { Sound a_period a_distance a_cells.now }
    requires sound_2 { Sound b_period b_distance b_cells.now }
    requires within { Within (2 ^ 49) t }
    requires t_value { meant (given a_period a_distance a_cells.now) t ≡ some j }
    requires a_value { a ≡ cursor_at (given a_period a_distance a_cells.now) t }
    requires b_value { b ≡ cursor_at (given b_period b_distance b_cells.now) t }
    requires t_value_2 { fresh ≡ true → t ≡ first (granule (given a_period a_distance a_cells.now) j) }
    ensures at { StartsAt whole (given a_period a_distance a_cells.now) j t result.at }
    ensures own { result.own ≡ cursor_at (given a_period a_distance a_cells.now) result.at }
    ensures other { result.other ≡ cursor_at (given b_period b_distance b_cells.now) result.at }
    ensures near { Within (2 ^ 58) result.at }
{
    if whole {
        return Instant {
            at: t,
            own: a,
            other: b,
        };
    }
    candidates::ends::began(
        fresh, j, t, a, b, a_cells, a_period, a_distance, b_cells, b_period, b_distance,
    )
}

// Whether a's granule j, of which t is an instant, is taken for a granule of b: a walk over the granule looks at each granule of b that it meets,
// or only at the one at t, where that must hold it whole. Where what is taken begins behind the granule, it meets no further granule of b.
pub fn judged(
    pick: Pick,
    whole: bool,
    m: Picked,
    fresh: bool,
    j: i64,
    t: i64,
    a: Cursor,
    b: Cursor,
    a_cells: &[i32],
    a_period: i64,
    a_distance: i64,
    b_cells: &[i32],
    b_period: i64,
    b_distance: i64,
) -> Decision
    requires sound { Sound a_period a_distance a_cells.now }
    requires sound_2 { Sound b_period b_distance b_cells.now }
    requires pick_limits { PickLimits pick }
    requires recalls { Recalls pick whole (given a_period a_distance a_cells.now) (given b_period b_distance b_cells.now) m }
    requires within { Within (2 ^ 49) t }
    requires t_value { meant (given a_period a_distance a_cells.now) t ≡ some j }
    requires a_value { a ≡ cursor_at (given a_period a_distance a_cells.now) t }
    requires b_value { b ≡ cursor_at (given b_period b_distance b_cells.now) t }
    requires t_value_2 { fresh ≡ true → t ≡ first (granule (given a_period a_distance a_cells.now) j) }
    ensures { Decides (selection_by whole pick) (given a_period a_distance a_cells.now) (given b_period b_distance b_cells.now) j result }
{
    let start = start_of(
        whole, fresh, j, t, a, b, a_cells, a_period, a_distance, b_cells, b_period, b_distance,
    );
    let mut at = start.at;
    let mut own = start.own;
    let mut other = start.other;
    let mut picked = m;
    loop {
        let seen = containment::seen::seen_at(
            j, at, own, other, a_cells, a_period, a_distance, b_cells, b_period, b_distance,
        );
        match seen {
            Seen::Off => {}
            Seen::Bare => {
                if whole {
                    return super::decide(false, picked);
                }
            }
            Seen::Over => return super::decide(false, picked),
            Seen::Of(i) => {
                if !super::knows(picked, i) {
                    picked = super::taking::picked_at(
                        pick, whole, i, at, own, other, a_cells, a_period, a_distance, b_cells,
                        b_period, b_distance,
                    );
                }
                let is_taken = taken_at(
                    pick, whole, picked, i, j, at, own, other, a_cells, a_period, a_distance,
                    b_cells, b_period, b_distance,
                );
                if is_taken || whole {
                    return super::decide(is_taken, picked);
                }
                if super::precedes(picked, j) {
                    return super::decide(false, picked);
                }
            }
        }
        at += 1;
        own = cursors::cursor_next(a_cells, a_period, a_distance, own);
        other = cursors::cursor_next(b_cells, b_period, b_distance, other);
    }
}
