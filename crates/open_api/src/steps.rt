// Steps along open instants in plain numbers.

ghost use Rattle.std.specs.Prelude.{◌≡◌};
ghost use Rattle.codes.specs.Codes.{value_code, value_left};
ghost use Rattle.open_map.specs.Maps.{map_given};
ghost use Rattle.open_steps.specs.Inquiries.{nth_reply, between_reply};
ghost use Rattle.open_api.specs.StepCodes.{step_code, step_left};

// The n-th open instant after x or before it, in `found`: 1; or 0 if there is none, with zero; or a refusal, with zero.
pub fn nth(words: &[u64], period: i64, x: i64, n: i64, found: &mut i64) -> i64
    ensures code { result ≡ step_code (nth_reply (map_given period words.now) x n) }
    ensures found { found.new ≡ step_left (nth_reply (map_given period words.now) x n) }
{
    let step = open_steps::nth(words, period, x, n);
    match step {
        Ok(Some(t)) => {
            *found = t;
            1
        }
        Ok(None) => {
            *found = 0;
            0
        }
        Err(refusal) => {
            *found = 0;
            codes::refusal_code(refusal)
        }
    }
}

// How many open instants t there are with x < t ≤ y, or minus that for the pair the other way round, in `number`: 0; or a
// refusal, with zero.
pub fn between(words: &[u64], period: i64, x: i64, y: i64, number: &mut i64) -> i64
    ensures code { result ≡ value_code (between_reply (map_given period words.now) x y) }
    ensures number { number.new ≡ value_left (between_reply (map_given period words.now) x y) }
{
    let counted = open_steps::between(words, period, x, y);
    match counted {
        Ok(n) => {
            *number = n;
            0
        }
        Err(refusal) => {
            *number = 0;
            codes::refusal_code(refusal)
        }
    }
}
