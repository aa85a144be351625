// What Pick takes, for one granule of b, of the granules of a inside it or of those that meet it.

ghost use Rattle.std.specs.Prelude.{◌≡◌, ◌^◌, pos, ◌≤ℤ◌, length};
ghost use Rattle.std.proofs.Math.Option.{some};
ghost use Rattle.calendar.specs.Meaning.{meant};
ghost use Rattle.calendar.specs.Algebra.{pick_start};
ghost use Rattle.calendar.specs.Questions.{given};
ghost use Rattle.cursors.specs.Found.{Sound, Within};
ghost use Rattle.cursors.specs.Cursor.{cursor_at};
ghost use Rattle.containment.specs.First.{FirstInstant};
ghost use Rattle.candidates.specs.Tallies.{candidates, last_or};
ghost use Rattle.kinds.specs.Limits.{PickLimits};
ghost use Rattle.select_granules.specs.Memos.{Picks, picked_of};

use super::Picked;
use candidates::Tally;
use candidates::ends::Instant;
use cursors::Cursor;
use kinds::Pick;

// What Pick takes for b's granule i, between two labels.
fn picked_of(i: i64, low: i64, high: i64) -> Picked
    ensures { result ≡ picked_of i low high }
{
    Picked {
        known: 1,
        of: i,
        low,
        high,
    }
}

// The tally of all the granules in question for b's granule i, whose first instant is `first`.
fn counted_all(
    whole: bool,
    i: i64,
    first: Instant,
    a_cells: &[i32],
    a_period: i64,
    a_distance: i64,
    b_cells: &[i32],
    b_period: i64,
    b_distance: i64,
) -> Tally
    requires sound { Sound a_period a_distance a_cells.now }
    requires sound_2 { Sound b_period b_distance b_cells.now }
    requires first_instant { FirstInstant (given b_period b_distance b_cells.now) i first.at }
    requires own_value { first.own ≡ cursor_at (given b_period b_distance b_cells.now) first.at }
    requires other_value { first.other ≡ cursor_at (given a_period a_distance a_cells.now) first.at }
    ensures count { result.count ≡ pos (length (candidates whole (given a_period a_distance a_cells.now) (given b_period b_distance b_cells.now) i)) }
    ensures last { result.high ≡ last_or (pos 0) (candidates whole (given a_period a_distance a_cells.now) (given b_period b_distance b_cells.now) i) }
    ensures few { result.count ≤ℤ b_period }
{
    candidates::tallied(
        whole,
        i,
        first.at,
        first.other,
        first.own,
        1,
        b_period + 1,
        a_cells,
        a_period,
        a_distance,
        b_cells,
        b_period,
        b_distance,
    )
}

// The position at which Pick starts among the granules in question for b's granule i, whose first instant is `first`: where it counts from the end,
// they are counted first.
fn pick_start(
    pick: Pick,
    whole: bool,
    i: i64,
    first: Instant,
    a_cells: &[i32],
    a_period: i64,
    a_distance: i64,
    b_cells: &[i32],
    b_period: i64,
    b_distance: i64,
) -> i64
    requires sound { Sound a_period a_distance a_cells.now }
    requires sound_2 { Sound b_period b_distance b_cells.now }
    requires pick_limits { PickLimits pick }
    requires first_instant { FirstInstant (given b_period b_distance b_cells.now) i first.at }
    requires own_value { first.own ≡ cursor_at (given b_period b_distance b_cells.now) first.at }
    requires other_value { first.other ≡ cursor_at (given a_period a_distance a_cells.now) first.at }
    ensures at { result ≡ pick_start pick.x (length (candidates whole (given a_period a_distance a_cells.now) (given b_period b_distance b_cells.now) i)) }
    ensures near { Within (2 ^ 23) result }
{
    if pick.x > 0 {
        return pick.x;
    }
    let all = counted_all(
        whole, i, first, a_cells, a_period, a_distance, b_cells, b_period, b_distance,
    );
    all.count + pick.x + 1
}

// What Pick takes for b's granule i, whose first instant is `first`, where it starts at the last of the granules in
// question: that one, if there is any.
fn picked_last(
    whole: bool,
    i: i64,
    first: Instant,
    a_cells: &[i32],
    a_period: i64,
    a_distance: i64,
    b_cells: &[i32],
    b_period: i64,
    b_distance: i64,
) -> Picked
    requires sound { Sound a_period a_distance a_cells.now }
    requires sound_2 { Sound b_period b_distance b_cells.now }
    requires first_instant { FirstInstant (given b_period b_distance b_cells.now) i first.at }
    requires own_value { first.own ≡ cursor_at (given b_period b_distance b_cells.now) first.at }
    requires other_value { first.other ≡ cursor_at (given a_period a_distance a_cells.now) first.at }
    ensures { result ≡ picked_of i (last_or (pos 1) (candidates whole (given a_period a_distance a_cells.now) (given b_period b_distance b_cells.now) i)) (last_or (pos 0) (candidates whole (given a_period a_distance a_cells.now) (given b_period b_distance b_cells.now) i)) }
{
    let all = counted_all(
        whole, i, first, a_cells, a_period, a_distance, b_cells, b_period, b_distance,
    );
    if all.count == 0 {
        return picked_of(i, 1, 0);
    }
    picked_of(i, all.high, all.high)
}

// What Pick takes for b's granule i, whose first instant is `first`: a tally of the positions from its start on.
fn picked_from(
    pick: Pick,
    whole: bool,
    i: i64,
    first: Instant,
    a_cells: &[i32],
    a_period: i64,
    a_distance: i64,
    b_cells: &[i32],
    b_period: i64,
    b_distance: i64,
) -> Picked
    requires sound { Sound a_period a_distance a_cells.now }
    requires sound_2 { Sound b_period b_distance b_cells.now }
    requires pick_limits { PickLimits pick }
    requires first_instant { FirstInstant (given b_period b_distance b_cells.now) i first.at }
    requires own_value { first.own ≡ cursor_at (given b_period b_distance b_cells.now) first.at }
    requires other_value { first.other ≡ cursor_at (given a_period a_distance a_cells.now) first.at }
    ensures known { (result.known ≡ pos 1) × (result.of ≡ i) }
    ensures picks { Picks pick (candidates whole (given a_period a_distance a_cells.now) (given b_period b_distance b_cells.now) i) result }
{
    let low = pick_start(
        pick, whole, i, first, a_cells, a_period, a_distance, b_cells, b_period, b_distance,
    );
    let tally = candidates::tallied(
        whole,
        i,
        first.at,
        first.other,
        first.own,
        low,
        low + pick.y - 1,
        a_cells,
        a_period,
        a_distance,
        b_cells,
        b_period,
        b_distance,
    );
    picked_of(i, tally.low, tally.high)
}

// What Pick takes for b's granule i, of which t is an instant: of a's granules inside it if `whole`, else of those that meet it.
pub fn picked_at(
    pick: Pick,
    whole: bool,
    i: i64,
    t: i64,
    a: Cursor,
    b: Cursor,
    a_cells: &[i32],
    a_period: i64,
    a_distance: i64,
    b_cells: &[i32],
    b_period: i64,
    b_distance: i64,
) -> Picked
    requires sound { Sound a_period a_distance a_cells.now }
    requires sound_2 { Sound b_period b_distance b_cells.now }
    requires pick_limits { PickLimits pick }
    requires within { Within (2 ^ 50) t }
    requires t_value { meant (given b_period b_distance b_cells.now) t ≡ some i }
    requires a_value { a ≡ cursor_at (given a_period a_distance a_cells.now) t }
    requires b_value { b ≡ cursor_at (given b_period b_distance b_cells.now) t }
    ensures known { (result.known ≡ pos 1) × (result.of ≡ i) }
    ensures picks { Picks pick (candidates whole (given a_period a_distance a_cells.now) (given b_period b_distance b_cells.now) i) result }
{
    let first = candidates::ends::began(
        false, i, t, b, a, b_cells, b_period, b_distance, a_cells, a_period, a_distance,
    );
    if pick.x == -1 {
        return picked_last(
            whole, i, first, a_cells, a_period, a_distance, b_cells, b_period, b_distance,
        );
    }
    picked_from(
        pick, whole, i, first, a_cells, a_period, a_distance, b_cells, b_period, b_distance,
    )
}
