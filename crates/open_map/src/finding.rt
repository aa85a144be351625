// Open instants found by the words of a map.

ghost use Rattle.std.specs.Prelude.{◌≡◌};
ghost use Rattle.integers.specs.Parts.{up};
ghost use Rattle.cursors.specs.Found.{Within};
ghost use Rattle.words.specs.Bits.{cell};
ghost use Rattle.words.specs.Places.{Least, Greatest};
ghost use Rattle.open_map.specs.Instants.{next_open, last_open};
ghost use Rattle.open_map.specs.Maps.{map_given, is_open};
ghost use Rattle.open_map.specs.Turns.{Sound};

use super::turns;

// The first set cell of a map.
fn first_cell(words: &[u64], period: i64) -> usize
    requires { Sound period words.now }
    ensures { Least (cell words.now) 0 result }
{
    let place = bitmaps::first_from(words, 0);
    let Some(i) = place else {
        return 0;
    };
    i
}

// The last set cell of a map.
fn last_cell(words: &[u64], period: i64) -> usize
    requires { Sound period words.now }
    ensures { Greatest (cell words.now) (up period) result }
{
    let place = bitmaps::last_below(words, period as usize);
    let Some(i) = place else {
        return 0;
    };
    i
}

// The next open instant above x: in the turn of the instant behind x, or the first of the next turn.
pub fn next_of(words: &[u64], period: i64, x: i64) -> i64
    requires sound { Sound period words.now }
    requires within { Within 1000000000 x }
    ensures { result ≡ next_open (up period) (is_open (map_given period words.now)) x }
{
    let at = turns::turn_of(period, x + 1);
    let cell = at.cell;
    let turn = at.turn;
    let place = bitmaps::first_from(words, cell);
    let Some(i) = place else {
        let first = first_cell(words, period);
        return turns::composed(period, turn + 1, first);
    };
    turns::composed(period, turn, i)
}

// The last open instant below x: in the turn of x, or the last of the turn before.
pub fn last_of(words: &[u64], period: i64, x: i64) -> i64
    requires sound { Sound period words.now }
    requires within { Within 1000000000 x }
    ensures { result ≡ last_open (up period) (is_open (map_given period words.now)) x }
{
    let at = turns::turn_of(period, x);
    let cell = at.cell;
    let turn = at.turn;
    let place = bitmaps::last_below(words, cell);
    let Some(i) = place else {
        let last = last_cell(words, period);
        return turns::composed(period, turn - 1, last);
    };
    turns::composed(period, turn, i)
}
