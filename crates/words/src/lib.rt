// Words of 64 bits: how many of their bits are set, and which.

#![tactic(auto)]

ghost use Rattle.std.specs.Prelude.{◌≡◌, ◌%◌, ◌^◌, ◌<◌};
ghost use Rattle.words.specs.Bits.{bit, tally};
ghost use Rattle.words.specs.Places.{Least, Greatest};

// How many bits of w are set.
pub fn ones_of(w: u64) -> usize
    ensures { result ≡ tally (bit w) 64 }
{
    u64::count_ones(w) as usize
}

// The k lowest bits of w.
pub fn low_bits(w: u64, k: usize) -> u64
    requires { k < 64 }
    ensures { result ≡ w % 2 ^ k }
{
    w % (1u64 << k)
}

// How many of the k lowest bits of w are set.
pub fn ones_below(w: u64, k: usize) -> usize
    requires { k < 64 }
    ensures { result ≡ tally (bit w) k }
{
    let low = low_bits(w, k);
    u64::count_ones(low) as usize
}

// The place of the lowest set bit.
pub fn lowest(w: u64) -> usize
    requires { 0 < w }
    ensures { (result < 64) × Least (bit w) 0 result }
{
    u64::trailing_zeros(w) as usize
}

// The place of the highest set bit.
pub fn highest(w: u64) -> usize
    requires { 0 < w }
    ensures { Greatest (bit w) 64 result }
{
    63 - u64::leading_zeros(w) as usize
}
