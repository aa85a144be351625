// Steps along open instants, for C: include/jogipahn.h declares the functions.

ghost use Rattle.std.specs.Prelude.{◌≡◌};
ghost use Rattle.codes.specs.Codes.{value_code, value_left};
ghost use Rattle.open_map.specs.Maps.{map_given};
ghost use Rattle.open_steps.specs.Inquiries.{nth_reply, between_reply};
ghost use Rattle.open_api.specs.StepCodes.{step_code, step_left};

// The open instant so many steps after x, or before it for steps below 0, in `found`: 1; or 0 if there is none.
#[unsafe(no_mangle)]
pub extern "C" fn jogipahn_nth_open(
    words: &[u64],
    period: i64,
    x: i64,
    steps: i64,
    found: &mut i64,
) -> i64
    ensures code { result ≡ step_code (nth_reply (map_given period words.now) x steps) }
    ensures found { found.new ≡ step_left (nth_reply (map_given period words.now) x steps) }
{
    open_api::steps::nth(words, period, x, steps, found)
}

// How many open instants t there are with x < t ≤ y, or minus that for the pair the other way round, in `number`: 0.
#[unsafe(no_mangle)]
pub extern "C" fn jogipahn_between(
    words: &[u64],
    period: i64,
    x: i64,
    y: i64,
    number: &mut i64,
) -> i64
    ensures code { result ≡ value_code (between_reply (map_given period words.now) x y) }
    ensures number { number.new ≡ value_left (between_reply (map_given period words.now) x y) }
{
    open_api::steps::between(words, period, x, y, number)
}
