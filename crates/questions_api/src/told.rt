// Answers as numbers: what a single question and a batch tell alike.

ghost use Rattle.std.specs.Prelude.{◌≡◌, pos, ◌≤ℤ◌};
ghost use Rattle.calendar.specs.Limits.{pool_limit};
ghost use Rattle.questions.specs.Answers.{placed_reply, up_reply, late_reply};
ghost use Rattle.questions_api.specs.Codes.{placed_code, placed_label, placed_place, up_code, up_label, late_code};

use calendar::Refusal;

// An answer of up from an instant: 1 with a label and a place, which go into `label` and `place`, and 0 with none. No place
// is above the longest period.
pub fn of_placing(
    placing: Result<Option<(i64, u64)>, Refusal>,
    label: &mut i64,
    place: &mut i64,
) -> i64
    requires { placed_place (placed_reply placing) ≤ℤ pos pool_limit }
    ensures code { result ≡ placed_code (placed_reply placing) }
    ensures label { label.new ≡ placed_label (placed_reply placing) }
    ensures place { place.new ≡ placed_place (placed_reply placing) }
{
    match placing {
        Ok(Some((j, n))) => {
            *label = j;
            *place = n as i64;
            1
        }
        Ok(None) => {
            *label = 0;
            *place = 0;
            0
        }
        Err(x) => {
            *label = 0;
            *place = 0;
            codes::refusal_code(x)
        }
    }
}

// An answer of up from a slot: 1 with a label, which goes into `label`, and 0 with none.
pub fn of_up(up: Result<Option<i64>, Refusal>, label: &mut i64) -> i64
    ensures code { result ≡ up_code (up_reply up) }
    ensures label { label.new ≡ up_label (up_reply up) }
{
    match up {
        Ok(Some(j)) => {
            *label = j;
            1
        }
        Ok(None) => {
            *label = 0;
            0
        }
        Err(x) => {
            *label = 0;
            codes::refusal_code(x)
        }
    }
}

// An answer on lateness: 1 for yes, 0 for no.
pub fn of_late(late: Result<bool, Refusal>) -> i64
    ensures { result ≡ late_code (late_reply late) }
{
    match late {
        Ok(true) => 1,
        Ok(false) => 0,
        Err(x) => codes::refusal_code(x),
    }
}
