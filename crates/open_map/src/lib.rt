// Open maps of rows: one bit for each cell, in words of 64. Counting and finding go by whole words.

#![tactic(auto)]

ghost use Rattle.std.specs.Prelude.{◌≡◌, true, pos};
ghost use Rattle.open_map.specs.Instants.{open_in};
ghost use Rattle.open_map.specs.Maps.{map_given, map_sound, is_open};
ghost use Rattle.open_map.specs.Inquiries as I;
ghost use Rattle.open_map.specs.Turns.{Sound};
ghost use Rattle.open_map.specs.Answers.{number_reply, instant_reply};

use calendar::{Calendar, LONGEST_PERIOD, Refusal};

pub mod finding;
pub mod turns;

// The map passes check 13.
pub fn sound(words: &[u64], period: i64) -> bool
    ensures { result ≡ map_sound (map_given period words.now) }
{
    if period < 1 {
        return false;
    }
    if period > LONGEST_PERIOD {
        return false;
    }
    bitmaps::fits(words, period as usize)
}

// s and t are within the limits, and in order.
fn ordered(s: i64, t: i64) -> bool
    ensures { result ≡ I.ordered s t }
{
    if !Calendar::in_range(s) {
        return false;
    }
    if !Calendar::in_range(t) {
        return false;
    }
    s <= t
}

// How many open instants there are from s up to t.
fn count_of(words: &[u64], period: i64, s: i64, t: i64) -> i64
    requires sound { Sound period words.now }
    requires t_value { I.ordered s t ≡ true }
    ensures { result ≡ pos (open_in (is_open (map_given period words.now)) s t) }
{
    turns::risen(words, period, s, t)
}

// How many open instants there are from s up to but not including t. Refuses 13, then 14. Costs the turns of s and t,
// and one pass over the words at the most (over those of s to t inside a turn), beside one over the zero words in front.
pub fn count(words: &[u64], period: i64, s: i64, t: i64) -> Result<i64, Refusal>
    ensures { number_reply result ≡ I.count_reply (map_given period words.now) s t }
{
    if !sound(words, period) {
        return Err(Refusal::RowNotSound);
    }
    if !ordered(s, t) {
        return Err(Refusal::ArgumentOutsideLimits);
    }
    Ok(count_of(words, period, s, t))
}

// The next open instant above x. Refuses 13, 14. Costs two passes over the words at the most.
pub fn next(words: &[u64], period: i64, x: i64) -> Result<i64, Refusal>
    ensures { instant_reply result ≡ I.next_reply (map_given period words.now) x }
{
    if !sound(words, period) {
        return Err(Refusal::RowNotSound);
    }
    if !Calendar::in_range(x) {
        return Err(Refusal::ArgumentOutsideLimits);
    }
    Ok(finding::next_of(words, period, x))
}

// The last open instant below x. Refuses 13, 14. Costs two passes over the words at the most.
pub fn last(words: &[u64], period: i64, x: i64) -> Result<i64, Refusal>
    ensures { instant_reply result ≡ I.last_reply (map_given period words.now) x }
{
    if !sound(words, period) {
        return Err(Refusal::RowNotSound);
    }
    if !Calendar::in_range(x) {
        return Err(Refusal::ArgumentOutsideLimits);
    }
    Ok(finding::last_of(words, period, x))
}
