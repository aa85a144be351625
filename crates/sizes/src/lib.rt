// The room that an entry takes: spans, rises of labels and working periods, with no product that wraps.

#![tactic(auto)]

ghost use Rattle.std.specs.Prelude.{◌≡◌, ◌≤◌, pos, ◌≤ℤ◌};
ghost use Rattle.integers.specs.Capped.{capped_at};
ghost use Rattle.calendar.specs.Operation.Unary.{group};
ghost use Rattle.calendar.specs.Size as Size;
ghost use Rattle.sizes.specs.Stored.{turn_of, Stored, Alterable, most_coarse};
ghost use Rattle.sizes.specs.Altered.{alter_period, alter_distance};

// The period of a row, and how far its labels rise over it.
#[derive(Clone, Copy)]
pub struct Turn {
    pub period: u64,
    pub distance: u64,
}

// The span of two operands, where it is at most the room.
pub fn span(a: Turn, b: Turn, room: u64) -> Option<u64>
    ensures { result ≡ capped_at room (Size.span_of (turn_of a) (turn_of b)) }
{
    integers::capped_lcm(a.period, b.period, room)
}

// How far the labels of a rise over a span.
pub fn rise(a: Turn, span: u64) -> u64
    requires { Stored a }
    ensures { result ≡ Size.rise (turn_of a) span }
{
    a.distance * (span / a.period)
}

// The working period of group x, where it is at most the room.
pub fn group_period(a: Turn, x: u64, room: u64) -> Option<u64>
    requires { 1 ≤ x }
    ensures { result ≡ capped_at room (Size.period_unary (group x) (turn_of a)) }
{
    integers::capped_mul(a.period, x / integers::gcd(x, a.distance), room)
}

// After how many coarse granules alter repeats, and by how many fine ones: document 01's n and D.
#[derive(Clone, Copy)]
pub struct Altering {
    pub coarse: u64,
    pub fine: i64,
}

// n and D of altering b by a. With g = gcd(A, x), n/A is x/g and n/x is A/g.
pub fn altering_of(a: Turn, b: Turn, x: u64, z: i64, span: u64) -> Altering
    requires { Alterable a b x z span }
    ensures coarse { result.coarse ≡ Size.coarse (turn_of a) (turn_of b) x }
    ensures fine { result.fine ≡ Size.fine (turn_of a) (turn_of b) x z }
    ensures bound { result.coarse ≤ most_coarse }
{
    let coarse_rise = rise(b, span);
    let fine_rise = rise(a, span);
    let g = integers::gcd(coarse_rise, x);
    let spans = x / g;
    let changes = coarse_rise / g;
    Altering {
        coarse: changes * x,
        fine: (spans * fine_rise) as i64 + z * (changes as i64),
    }
}

// The working period of alter, where it is at most the room: Pa·(D/gcd(D, Na)).
pub fn alter_period(a: Turn, fine: i64, room: u64) -> Option<u64>
    requires stored { Stored a }
    requires pos_bound { pos 1 ≤ℤ fine }
    ensures { result ≡ capped_at room (alter_period (turn_of a) fine) }
{
    let d = fine as u64;
    integers::capped_mul(a.period, d / integers::gcd(d, a.distance), room)
}

// The distance that goes with it.
pub fn alter_distance(a: Turn, coarse: u64, fine: i64) -> u64
    requires stored { Stored a }
    requires pos_bound { pos 1 ≤ℤ fine }
    requires coarse_le_most_coarse { coarse ≤ most_coarse }
    ensures { result ≡ alter_distance (turn_of a) coarse fine }
{
    a.distance / integers::gcd(fine as u64, a.distance) * coarse
}
