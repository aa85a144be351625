// Open maps in plain numbers, as C takes them: `jogipahn_c` hands each function on under its name for C.

#![tactic(auto)]

ghost use Rattle.std.specs.Prelude.{◌≡◌, length};
ghost use Rattle.calendar.specs.Questions.{given};
ghost use Rattle.codes.specs.Codes.{count_code, value_code, value_left};
ghost use Rattle.open_map.specs.Maps.{map_given};
ghost use Rattle.open_map.specs.Inquiries.{count_reply, next_reply, last_reply};
ghost use Rattle.open_map.specs.Answers.{instant_reply};
ghost use Rattle.row_maps.specs.Making.{map_reply, map_after, refusal};
ghost use Rattle.open_api.specs.Codes.{map_code};

use calendar::Refusal;

pub mod steps;

// The open map of a row, in `words`: 0; or a refusal, with zeros.
pub fn map(cells: &[i32], period: i64, distance: i64, words: &mut [u64]) -> i64
    ensures code { result ≡ map_code (refusal (map_reply (given period distance cells.now) (length words.old))) }
    ensures words { words.new ≡ map_after (length words.old) (map_reply (given period distance cells.now) (length words.old)) }
{
    let made = row_maps::make(words, cells, period, distance);
    match made {
        Ok(()) => 0,
        Err(x) => codes::refusal_code(x),
    }
}

// How many open instants there are from s up to but not including t; or a refusal.
pub fn count(words: &[u64], period: i64, s: i64, t: i64) -> i64
    ensures { result ≡ count_code (count_reply (map_given period words.now) s t) }
{
    let counted = open_map::count(words, period, s, t);
    match counted {
        Ok(n) => n,
        Err(x) => codes::refusal_code(x),
    }
}

// An open instant, in `found`: 0; or a refusal, with zero.
fn told(instant: Result<i64, Refusal>, found: &mut i64) -> i64
    ensures code { result ≡ value_code (instant_reply instant) }
    ensures found { found.new ≡ value_left (instant_reply instant) }
{
    match instant {
        Ok(t) => {
            *found = t;
            0
        }
        Err(x) => {
            *found = 0;
            codes::refusal_code(x)
        }
    }
}

// The next open instant above x, in `found`: 0; or a refusal, with zero.
pub fn next(words: &[u64], period: i64, x: i64, found: &mut i64) -> i64
    ensures code { result ≡ value_code (next_reply (map_given period words.now) x) }
    ensures found { found.new ≡ value_left (next_reply (map_given period words.now) x) }
{
    let instant = open_map::next(words, period, x);
    told(instant, found)
}

// The last open instant below x, in `found`: 0; or a refusal, with zero.
pub fn last(words: &[u64], period: i64, x: i64, found: &mut i64) -> i64
    ensures code { result ≡ value_code (last_reply (map_given period words.now) x) }
    ensures found { found.new ≡ value_left (last_reply (map_given period words.now) x) }
{
    let instant = open_map::last(words, period, x);
    told(instant, found)
}
