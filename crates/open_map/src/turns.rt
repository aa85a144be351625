// Instants by their turn and cell, and the ranks of instants.

ghost use Rattle.std.specs.Prelude.{◌≡◌, ◌^◌, ◌≤◌, pos, ◌+ℤ◌, ◌-ℤ◌, ◌*ℤ◌};
ghost use Rattle.integers.specs.Parts.{up};
ghost use Rattle.cursors.specs.Found.{Within};
ghost use Rattle.open_map.specs.Maps.{map_given};
ghost use Rattle.open_map.specs.Turns.{Sound, Turning, turned_at, rank, risen_over};

// An instant: which turn of the row it is in, and its cell.
#[derive(Clone, Copy)]
pub struct Turned {
    pub turn: i64,
    pub cell: usize,
}

// The turn and the cell of the instant t.
pub fn turn_of(period: i64, t: i64) -> Turned
    requires { Turning period }
    ensures { result ≡ turned_at (up period) t }
{
    let turn = integers::floor_div(t, period);
    let cell = integers::floor_mod(t, period);
    Turned {
        turn,
        cell: cell as usize,
    }
}

// So many times `size`, and the rest: an instant from its turn and cell, or a rank.
pub fn composed(size: i64, turn: i64, rest: usize) -> i64
    requires turning { Turning size }
    requires within { Within (2 ^ 40) turn × (rest ≤ 2 ^ 40) }
    ensures { result ≡ size *ℤ turn +ℤ pos rest }
{
    size * turn + rest as i64
}

// How far the rank rises over so many turns, from the cell a to the cell c, which is not before it. The cells outside
// are counted only where whole turns are passed.
fn risen_on(words: &[u64], period: i64, turns: i64, a: usize, c: usize) -> i64
    requires sound { Sound period words.now }
    requires within { Within (2 ^ 34) turns × (a ≤ c) × (c ≤ up period) }
    ensures { result ≡ risen_over (map_given period words.now) turns a c }
{
    let middle = bitmaps::ones_between(words, a, c);
    if turns == 0 {
        return middle as i64;
    }
    let total = bitmaps::ones_outside(words, a, c, period as usize) + middle;
    composed(total as i64, turns, middle)
}

// The same where c is before a: one turn less, and the cells outside. Those between are counted only where whole turns
// are passed.
fn risen_round(words: &[u64], period: i64, turns: i64, a: usize, c: usize) -> i64
    requires sound { Sound period words.now }
    requires within { Within (2 ^ 34) turns × (c ≤ a) × (a ≤ up period) }
    ensures { result ≡ risen_over (map_given period words.now) turns a c }
{
    let outside = bitmaps::ones_outside(words, c, a, period as usize);
    if turns == 1 {
        return outside as i64;
    }
    let total = outside + bitmaps::ones_between(words, c, a);
    composed(total as i64, turns - 1, outside)
}

// How far the rank rises from s to t.
pub fn risen(words: &[u64], period: i64, s: i64, t: i64) -> i64
    requires sound { Sound period words.now }
    requires within { Within (2 ^ 32) s × Within (2 ^ 32) t }
    ensures { result ≡ rank (map_given period words.now) t -ℤ rank (map_given period words.now) s }
{
    let from = turn_of(period, s);
    let to = turn_of(period, t);
    let turns = to.turn - from.turn;
    let a = from.cell;
    let c = to.cell;
    if a <= c {
        risen_on(words, period, turns, a, c)
    } else {
        risen_round(words, period, turns, a, c)
    }
}
