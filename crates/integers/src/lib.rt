// Division and remainder by a positive number, rounded down and up; the greatest common divisor; products and least
// common multiples up to a cap.

#![tactic(auto)]

ghost use Rattle.std.specs.Prelude.{◌≡◌, ◌*◌, pos, ◌<ℤ◌};
ghost use Rattle.integers.specs.Parts.{up};
ghost use Rattle.integers.specs.Floor.{floor_div, floor_mod, ceil_div};
ghost use Rattle.integers.specs.Gcd as G;
ghost use Rattle.integers.specs.Capped.{capped_at};

// t / p, rounded down. The machine rounds toward zero, so a negative remainder means one less.
pub fn floor_div(t: i64, p: i64) -> i64
    requires { pos 0 <ℤ p }
    ensures { result ≡ floor_div t (up p) }
{
    let q = t / p;
    if t % p < 0 { q - 1 } else { q }
}

// What floor_div leaves: from 0 to p - 1.
pub fn floor_mod(t: i64, p: i64) -> i64
    requires { pos 0 <ℤ p }
    ensures { result ≡ pos (floor_mod t (up p)) }
{
    let r = t % p;
    if r < 0 { r + p } else { r }
}

// t / p, rounded up: a positive remainder means one more.
pub fn ceil_div(t: i64, p: i64) -> i64
    requires { pos 0 <ℤ p }
    ensures { result ≡ ceil_div t (up p) }
{
    let q = t / p;
    if 0 < t % p { q + 1 } else { q }
}

// The greatest common divisor, by Euclid's way.
pub fn gcd(a: u64, b: u64) -> u64
    ensures { result ≡ G.gcd a b }
{
    let mut x = a;
    let mut y = b;
    while y != 0 {
        let r = x % y;
        x = y;
        y = r;
    }
    x
}

// a * b, which is tested by a division and never wraps.
pub fn capped_mul(a: u64, b: u64, cap: u64) -> Option<u64>
    ensures { result ≡ capped_at cap (a * b) }
{
    if a == 0 {
        return Some(0);
    }
    if b <= cap / a { Some(a * b) } else { None }
}

// The least common multiple of a and b, and 0 where one of them is 0.
pub fn capped_lcm(a: u64, b: u64, cap: u64) -> Option<u64>
    ensures { result ≡ capped_at cap (G.lcm a b) }
{
    let g = gcd(a, b);
    if g == 0 {
        return Some(0);
    }
    capped_mul(a / g, b, cap)
}
