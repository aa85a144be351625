// The date of an instant, and the instant of a date. Nothing is asked of the caller of `date_of` and `instant_of`:
// any numbers have an answer or one numbered refusal.

#![tactic(auto)]

ghost use Rattle.std.specs.Prelude.{◌≡◌, ◌≤◌, ◌<◌, pos, ◌+ℤ◌, ◌<ℤ◌};
ghost use Rattle.integers.specs.Parts.{up};
ghost use Rattle.calendar.specs.Limits.{between};
ghost use Rattle.civil.specs.Rule.{leap, multiple_of, days_in, date_of};
ghost use Rattle.civil.specs.Instants.{leap_years, days_to_year, days_to_month, exists, instant_of, instant_reply};
ghost use Rattle.civil.specs.Asked.{date_reply};
ghost use Rattle.dates.specs.Answers.{date_read, dated_reply, found_reply};
ghost use Rattle.dates.specs.Places.{Near, Around, NearDate, InYear, too_many, too_few, InMonth};

use calendar::{Calendar, Refusal};

#[derive(Clone, Copy)]
pub struct Date {
    pub year: i64,
    pub month: u32,
    pub day: u32,
}

fn multiple_of(n: i64, year: i64) -> bool
    requires { pos 0 <ℤ n }
    ensures { result ≡ multiple_of (up n) year }
{
    integers::floor_mod(year, n) == 0
}

fn is_leap(year: i64) -> bool
    ensures { result ≡ leap year }
{
    multiple_of(4, year) && (!multiple_of(100, year) || multiple_of(400, year))
}

// How many of the years 2001 to 2000 + q are leap years.
fn leap_years(q: i64) -> i64
    requires { Near q }
    ensures { result ≡ leap_years q }
{
    integers::floor_div(q, 4) - integers::floor_div(q, 100) + integers::floor_div(q, 400)
}

// The days from 1 January 2001 to 1 January of the year 2001 + q.
fn days_to_year(q: i64) -> i64
    requires { Near q }
    ensures { result ≡ days_to_year q }
{
    365 * q + leap_years(q)
}

// What (367 * month - 362) / 12 has too much, as if February had 30 days.
fn too_many(leap: bool, month: u32) -> u32
    ensures { result ≡ too_many leap month }
{
    if month <= 2 {
        0
    } else if leap {
        1
    } else {
        2
    }
}

// The days of a year before its month, which is 13 for the whole year.
fn days_to_month(leap: bool, month: u32) -> u32
    requires { (1 ≤ month) × (month ≤ 13) }
    ensures { result ≡ days_to_month leap month }
{
    (367 * month - 362) / 12 - too_many(leap, month)
}

// The days that are too few behind February.
fn too_few(leap: bool, n: u32) -> u32
    ensures { result ≡ too_few leap n }
{
    if leap {
        if n < 60 { 0 } else { 1 }
    } else if n < 59 {
        0
    } else {
        2
    }
}

// The month of the day of a year that n days lie before.
fn month_at(leap: bool, n: u32) -> u32
    requires { n < days_to_month leap 13 }
    ensures { InMonth leap n result }
{
    (12 * (n + too_few(leap, n)) + 373) / 367
}

// The year of the day that x days lie before from 1 January 2001 on, less 2001. The mean year has 146097 / 400 days,
// and the estimate by it is at most one too low.
fn year_at(x: i64) -> i64
    requires { Around x }
    ensures { InYear x result }
{
    let q = integers::floor_div(400 * x, 146097);
    if days_to_year(q + 1) <= x { q + 1 } else { q }
}

// How many days of its year lie before the day that x days lie before.
fn day_of_year(x: i64, q: i64) -> u32
    requires { InYear x q }
    ensures { days_to_year q +ℤ pos result ≡ x }
{
    (x - days_to_year(q)) as u32
}

// The date of the day that x days lie before.
fn date_at(x: i64) -> Date
    requires { Around x }
    ensures { date_read result ≡ date_of (x +ℤ pos 1) }
{
    let q = year_at(x);
    let year = q + 2001;
    let leap = is_leap(year);
    let n = day_of_year(x, q);
    let month = month_at(leap, n);
    let day = n - days_to_month(leap, month) + 1;
    Date { year, month, day }
}

// The date of the instant t. Refuses 14.
pub fn date_of(t: i64) -> Result<Date, Refusal>
    ensures { dated_reply result ≡ date_reply t }
{
    if !Calendar::in_range(t) {
        return Err(Refusal::ArgumentOutsideLimits);
    }
    let date = date_at(t - 1);
    Ok(date)
}

fn is_between(low: i64, high: i64, z: i64) -> bool
    ensures { result ≡ between low high z }
{
    low <= z && z <= high
}

// The days of a month.
fn days_in(year: i64, month: u32) -> u32
    requires { (1 ≤ month) × (month ≤ 12) }
    ensures { result ≡ days_in year month }
{
    let leap = is_leap(year);
    days_to_month(leap, month + 1) - days_to_month(leap, month)
}

fn date_exists(year: i64, month: i64, day: i64) -> bool
    ensures { result ≡ exists year month day }
{
    if !is_between(1, 12, month) {
        return false;
    }
    let days = days_in(year, month as u32);
    is_between(1, days as i64, day)
}

// The instant of a date whose year is near.
fn instant_at(year: i64, month: u32, day: u32) -> i64
    requires { NearDate year month day }
    ensures { result ≡ instant_of year month day }
{
    let leap = is_leap(year);
    let before = days_to_month(leap, month) + day;
    days_to_year(year - 2001) + (before as i64)
}

// The instant of a date. Refuses 20, then 14.
pub fn instant_of(year: i64, month: i64, day: i64) -> Result<i64, Refusal>
    ensures { found_reply result ≡ instant_reply year month day }
{
    if !date_exists(year, month, day) {
        return Err(Refusal::NoSuchDate);
    }
    if !is_between(-3000000, 3000000, year) {
        return Err(Refusal::ArgumentOutsideLimits);
    }
    let t = instant_at(year, month as u32, day as u32);
    if !Calendar::in_range(t) {
        return Err(Refusal::ArgumentOutsideLimits);
    }
    Ok(t)
}
