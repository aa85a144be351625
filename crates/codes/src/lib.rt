// Refusals as numbers for C.

#![tactic(auto)]

ghost use Rattle.std.specs.Prelude.{◌≡◌};
ghost use Rattle.calendar.specs.Refusals.{number_of};
ghost use Rattle.codes.specs.Codes.{refusal_code};

use calendar::Refusal;

// A refusal as a number: its own below zero.
pub fn refusal_code(x: Refusal) -> i64
    ensures { result ≡ refusal_code (number_of x) }
{
    0 - (x.number() as i64)
}
