// The granules of a in question for one granule of b, counted along a walk over it: those inside it, or those that meet it.

#![tactic(auto)]

ghost use Rattle.std.specs.Prelude.{◌≡◌, List, [], ◌∷◌, ◌++◌, ◌^◌, ℤ, pos, ◌≤ℤ◌, ◌<ℤ◌, length};
ghost use Rattle.calendar.specs.Questions.{given};
ghost use Rattle.cursors.specs.Found.{Sound};
ghost use Rattle.cursors.specs.Cursor.{cursor_at};
ghost use Rattle.containment.specs.First.{FirstInstant};
ghost use Rattle.candidates.specs.Tallies.{candidates, tally_of};

use candidate::Candidate;
use cursors::Cursor;

mod candidate;
pub mod ends;

// How many granules are in question; of those at the positions asked for the least and the greatest, or 1 and 0 where there are none.
#[derive(Clone, Copy)]
pub struct Tally {
    pub count: i64,
    pub low: i64,
    pub high: i64,
}

// The tally of no granules.
fn empty_tally() -> Tally
    ensures { (low high : ℤ) → result ≡ tally_of low high [] }
{
    Tally {
        count: 0,
        low: 1,
        high: 0,
    }
}

// The tally with one granule more, j: it is the next in order.
fn counted(t: Tally, j: i64, low: i64, high: i64) -> Tally
    requires { (pos 0 ≤ℤ t.count) × (t.count ≤ℤ pos (2 ^ 23)) }
    ensures { (l : List ℤ) → t ≡ tally_of low high l → result ≡ tally_of low high (l ++ (j ∷ [])) }
{
    let count = t.count + 1;
    let mut next = t;
    next.count = count;
    if count < low {
        return next;
    }
    if high < count {
        return next;
    }
    if count == 1 || count == low {
        next.low = j;
    }
    next.high = j;
    next
}

// The granules in question for b's granule i, whose first instant is `first`, at the positions from low to high: a walk over the granule, as far as that
// takes. It has counted them all where they are fewer than high.
pub fn tallied(
    whole: bool,
    i: i64,
    first: i64,
    a: Cursor,
    b: Cursor,
    low: i64,
    high: i64,
    a_cells: &[i32],
    a_period: i64,
    a_distance: i64,
    b_cells: &[i32],
    b_period: i64,
    b_distance: i64,
) -> Tally
    requires sound { Sound a_period a_distance a_cells.now }
    requires sound_2 { Sound b_period b_distance b_cells.now }
    requires first_instant { FirstInstant (given b_period b_distance b_cells.now) i first }
    requires a_value { a ≡ cursor_at (given a_period a_distance a_cells.now) first }
    requires b_value { b ≡ cursor_at (given b_period b_distance b_cells.now) first }
    ensures low { result.low ≡ (tally_of low high (candidates whole (given a_period a_distance a_cells.now) (given b_period b_distance b_cells.now) i)).low }
    ensures high { result.high ≡ (tally_of low high (candidates whole (given a_period a_distance a_cells.now) (given b_period b_distance b_cells.now) i)).high }
    ensures count { result.count <ℤ high → result.count ≡ pos (length (candidates whole (given a_period a_distance a_cells.now) (given b_period b_distance b_cells.now) i)) }
    ensures few { (pos 0 ≤ℤ result.count) × (result.count ≤ℤ b_period) }
{
    let mut at = first;
    let mut own = a;
    let mut other = b;
    let mut looked = false;
    let mut latest = i;
    let mut tally = empty_tally();
    while tally.count < high {
        let candidate = candidate::candidate_at(
            whole, i, at, own, other, looked, latest, a_cells, a_period, a_distance, b_cells,
            b_period, b_distance,
        );
        match candidate {
            Candidate::Nothing => {}
            Candidate::Passed(j) => {
                looked = true;
                latest = j;
            }
            Candidate::Next(j) => {
                looked = true;
                latest = j;
                tally = counted(tally, j, low, high);
            }
            Candidate::End => return tally,
        }
        at += 1;
        own = cursors::cursor_next(a_cells, a_period, a_distance, own);
        other = cursors::cursor_next(b_cells, b_period, b_distance, other);
    }
    tally
}
