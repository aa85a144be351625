// The program's arguments: entries, whole numbers, dates and allowances. An argument that is none is told on standard
// error.

use crate::refusals;
use crate::row::{Row, row_at};
use floats::Allowance;
use std::rt::Env;

// A number has no more digits than this value; a greater one counts as this, which is outside all limits.
const GREAT: u64 = 1000000000000;

// How many bytes of an argument are read.
const WORD: usize = 64;

// The greatest lateness that may be asked about.
const GREATEST: u64 = 1048576;

// The value of digits, and where they end.
#[derive(Clone, Copy)]
pub struct Scanned {
    pub value: u64,
    pub end: usize,
}

// Tells that an argument is not what it is to be.
fn tell_bad(rt: &impl Eprint, i: usize, what: &str) {
    let _ = eprint!(rt; "slots: argument {i} is no {what}; slots alone prints what to give\n");
}

// A digit behind the digits of a value.
fn more(value: u64, digit: u8) -> u64 {
    if GREAT <= value {
        GREAT
    } else {
        value * 10 + u64::from(digit)
    }
}

// The digits from `from` on.
pub fn digits(s: &[u8], from: usize) -> Scanned {
    let mut value: u64 = 0;
    for i in from..s.len() {
        let b = s[i];
        if b < b'0' || b'9' < b {
            return Scanned { value, end: i };
        }
        value = more(value, b - b'0');
    }
    Scanned {
        value,
        end: s.len().max(from),
    }
}

// The digits behind a mark at `at`; none where it is missing.
pub fn digits_behind(s: &[u8], at: usize, mark: u8) -> Scanned {
    if at < s.len() && s[at] == mark {
        return digits(s, at + 1);
    }
    Scanned { value: 0, end: at }
}

// A value with its sign.
pub fn signed(minus: bool, value: u64) -> i64 {
    if GREAT <= value {
        return GREAT as i64;
    }
    if minus { -(value as i64) } else { value as i64 }
}

fn is_minus(s: &[u8]) -> bool {
    s.starts_with(b"-")
}

// How many bytes of a word are its sign.
fn sign_length(s: &[u8]) -> usize {
    usize::from(is_minus(s) || s.starts_with(b"+"))
}

fn number_of(s: &[u8]) -> Option<i64> {
    let from = sign_length(s);
    let d = digits(s, from);
    if d.end == from || d.end != s.len() {
        return None;
    }
    Some(signed(is_minus(s), d.value))
}

// The instant of a date that is written as 2026-11-16.
fn date_of(rt: &impl Eprint, s: &[u8], i: usize) -> Option<i64> {
    let year = digits(s, sign_length(s));
    let month = digits_behind(s, year.end, b'-');
    let day = digits_behind(s, month.end, b'-');
    if day.end != s.len() {
        tell_bad(rt, i, "date and no whole number");
        return None;
    }
    let instant = dates::instant_of(
        signed(is_minus(s), year.value),
        signed(false, month.value),
        signed(false, day.value),
    );
    refusals::answered(rt, instant)
}

// n / m in parts of 256; 0 where it is none of 1/256 to 1.
fn share_of(n: u64, m: u64) -> u64 {
    if m == 0 || m < n || GREAT < m {
        return 0;
    }
    if n * 256 % m == 0 { n * 256 / m } else { 0 }
}

// As a float. A number above the greatest lateness allows any, and as a share is none.
fn float(n: u64) -> f64 {
    if n <= GREATEST { n as f64 } else { 1048577.0 }
}

// A number of days, or a share such as 1/2.
fn allowance_of(s: &[u8]) -> Option<Allowance> {
    let whole = digits(s, 0);
    if whole.end == 0 {
        return None;
    }
    if whole.end == s.len() {
        return Some(Allowance::Fixed(float(whole.value)));
    }
    let of = digits_behind(s, whole.end, b'/');
    if of.end != s.len() {
        return None;
    }
    Some(Allowance::Share(float(share_of(whole.value, of.value)) / 256.0))
}

// The argument i as a whole number.
pub fn number_at(rt: &(impl Env + Eprint), i: usize) -> Option<i64> {
    let mut word = [0u8; WORD];
    let n = programs::argument(rt, i, &mut word);
    let found = number_of(&word[..n]);
    if found.is_none() {
        tell_bad(rt, i, "whole number");
    }
    found
}

// The argument i as a date or an instant, and whether it is a date.
pub fn when_at(rt: &(impl Env + Eprint), i: usize) -> Option<(i64, bool)> {
    let mut word = [0u8; WORD];
    let n = programs::argument(rt, i, &mut word);
    if let Some(t) = number_of(&word[..n]) {
        return Some((t, false));
    }
    let t = date_of(rt, &word[..n], i)?;
    Some((t, true))
}

pub fn allowance_at(rt: &(impl Env + Eprint), i: usize) -> Option<Allowance> {
    let mut word = [0u8; WORD];
    let n = programs::argument(rt, i, &mut word);
    let found = allowance_of(&word[..n]);
    if found.is_none() {
        tell_bad(rt, i, "number of days and no share");
    }
    found
}

// The argument i as an entry of the table.
pub fn entry_at<'a>(
    rt: &(impl Env + Eprint),
    i: usize,
    headings: &[u32],
    pool: &'a [i32],
) -> Option<Row<'a>> {
    let k = number_at(rt, i)?;
    let row = row_at(k, headings, pool);
    if row.is_none() {
        tell_bad(rt, i, "entry of the table");
    }
    row
}
