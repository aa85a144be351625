// Dates, instants and shares, on standard output.

use printing::print_number;
use std::io;

// How many bytes a number takes.
pub fn width_of(v: i64) -> usize {
    let digits = match v.unsigned_abs().checked_ilog10() {
        Some(power) => power as usize + 1,
        None => 1,
    };
    if v < 0 { digits + 1 } else { digits }
}

// A year by four digits or more; one below 0 by its digits alone.
fn print_year(rt: &impl Print, year: i64) -> io::Result<()> {
    if year < 0 {
        print_number(rt, year)
    } else {
        print!(rt; "{year:04}")
    }
}

// The date of an instant; the instant itself where it has none.
pub fn print_date(rt: &impl Print, t: i64) -> io::Result<()> {
    match dates::date_of(t) {
        Ok(date) => {
            print_year(rt, date.year)?;
            print!(rt; "-{:02}-{:02}", date.month, date.day)
        }
        Err(_) => print_number(rt, t),
    }
}

// An instant, with its date where dates are asked for.
pub fn print_when(rt: &impl Print, t: i64, dated: bool) -> io::Result<()> {
    if dated {
        print_date(rt, t)?;
        print!(rt; " (day {t})")
    } else {
        print_number(rt, t)
    }
}

// n / d in parts of 10,000, rounded; 0 for numbers that no row has.
fn share_of(n: u64, d: u64) -> u64 {
    if d == 0 || 4194304 < d || d < n {
        return 0;
    }
    (n * 10000 + d / 2) / d
}

// n of d, and their quotient, rounded to four digits.
pub fn print_share(rt: &impl Print, n: u64, d: u64) -> io::Result<()> {
    let share = share_of(n, d);
    print!(rt;
        "open {n} of {d} days, {}.{:04}",
        share / 10000,
        share % 10000
    )
}
