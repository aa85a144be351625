// So many open instants on from an instant or back, and how many there are between two: by an open map.

#![tactic(auto)]

ghost use Rattle.std.specs.Prelude.{◌≡◌};
ghost use Rattle.open_map.specs.Maps.{map_given};
ghost use Rattle.open_map.specs.Answers.{number_reply};
ghost use Rattle.open_steps.specs.Inquiries as I;
ghost use Rattle.open_steps.specs.Answers.{step_reply};

use calendar::Refusal;

mod cells;
mod downward;
pub mod steps;
mod upward;

// The n-th open instant after x, or before x for an n below 0; for 0 it is x where x is open, and else none. Refuses
// 13, then 14. Costs the words on the way inside a turn, two passes over the words at the most over turns, and the zero
// words that check 13 passes.
pub fn nth(words: &[u64], period: i64, x: i64, n: i64) -> Result<Option<i64>, Refusal>
    ensures { step_reply result ≡ I.nth_reply (map_given period words.now) x n }
{
    if !open_map::sound(words, period) {
        return Err(Refusal::RowNotSound);
    }
    if !steps::may_step(x, n) {
        return Err(Refusal::ArgumentOutsideLimits);
    }
    Ok(steps::nth_of(words, period, x, n))
}

// How many open instants t there are with x < t ≤ y, and minus that for the pair the other way round. Refuses 13,
// then 14. Costs one pass over the words at the most, and the zero words that check 13 passes.
pub fn between(words: &[u64], period: i64, x: i64, y: i64) -> Result<i64, Refusal>
    ensures { number_reply result ≡ I.between_reply (map_given period words.now) x y }
{
    if !open_map::sound(words, period) {
        return Err(Refusal::RowNotSound);
    }
    if !steps::both_in_range(x, y) {
        return Err(Refusal::ArgumentOutsideLimits);
    }
    Ok(steps::between_of(words, period, x, y))
}
