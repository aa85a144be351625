// Figures and lateness as binary64 numbers.

#![tactic(auto)]

ghost use Rattle.std.specs.Prelude.{◌≡◌, true, false, ◌≤◌, leb};
ghost use Rattle.std.specs.Float.Ieee.Exact.{HasValue};
ghost use Rattle.std.specs.Float.Ieee.Positive.{num, den};
ghost use Rattle.floats.specs.Near.{limit};
ghost use Rattle.floats.specs.Figures.{Quotient, Quotients};
ghost use Rattle.floats.specs.Allowance.{amount, share, positive_share, is_allowed, may_be_late};
ghost use Rattle.floats.specs.Parts.{WholeParts};

// The figures of a row: the part of its instants that is labelled (the open part), and the mean length and the mean spacing of its
// granules (slots).
#[derive(Clone, Copy)]
pub struct Figures {
    pub openness: f64,
    pub mean_length: f64,
    pub mean_spacing: f64,
}

// n / d, rounded once.
fn quotient(n: u64, d: u64) -> f64
    requires { (n ≤ limit) × (1 ≤ d) × (d ≤ limit) }
    ensures { Quotient n d result }
{
    (n as f64) / (d as f64)
}

// The figures of a row that has so many labelled instants and granules in a period.
pub fn figures_of(labelled: u64, period: u64, granules: u64) -> Figures
    requires { (labelled ≤ period) × (1 ≤ period) × (period ≤ limit) × (1 ≤ granules) × (granules ≤ limit) }
    ensures { Quotients labelled period granules result }
{
    Figures {
        openness: quotient(labelled, period),
        mean_length: quotient(labelled, granules),
        mean_spacing: quotient(period, granules),
    }
}

// How late a delivery may be: by a fixed number of instants, or by a share of the granule's length.
#[derive(Clone, Copy)]
pub enum Allowance {
    Fixed(f64),
    Share(f64),
}

// Finite and not below zero.
fn is_amount(v: f64) -> bool
    ensures { result ≡ amount v }
{
    0.0 <= v && v < 1.0 / 0.0
}

// n / 256, exactly.
fn share_of(n: u64) -> f64
    requires { n ≤ limit }
    ensures { HasValue result false n 256 }
{
    0.00390625 * (n as f64)
}

// How many 256ths are not above v.
fn whole_parts(v: f64) -> u64
    requires { (amount v ≡ true) × (leb (num v) (den v) ≡ true) }
    ensures { WholeParts v result }
{
    let mut low: u64 = 0;
    let mut high: u64 = 257;
    while high - low > 1 {
        let middle = low + (high - low) / 2;
        if share_of(middle) <= v {
            low = middle;
        } else {
            high = middle;
        }
    }
    low
}

// A multiple of 1/256 from 0 to 1. A remainder of floats would be a call into the C library.
fn is_share(v: f64) -> bool
    ensures { result ≡ share v }
{
    if is_amount(v) {
        if v <= 1.0 {
            return v <= share_of(whole_parts(v));
        }
    }
    false
}

// A share that is not 0.
fn is_positive_share(v: f64) -> bool
    ensures { result ≡ positive_share v }
{
    is_share(v) && v != 0.0
}

// Whether an allowance is one that `may_be_late` takes.
pub fn allowed(a: Allowance) -> bool
    ensures { result ≡ is_allowed a }
{
    match a {
        Allowance::Fixed(v) => is_amount(v),
        Allowance::Share(v) => is_positive_share(v),
    }
}

// Whether a delivery may be d instants late on a granule of this length. The product is exact.
pub fn may_be_late(d: u64, length: u64, a: Allowance) -> bool
    requires { (d ≤ limit) × (length ≤ limit) × (is_allowed a ≡ true) }
    ensures { result ≡ may_be_late d length a }
{
    let late = d as f64;
    match a {
        Allowance::Fixed(v) => late <= v,
        Allowance::Share(v) => late <= v * (length as f64),
    }
}
