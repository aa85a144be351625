// Whether a slot may be so many days late.

use crate::arguments::{allowance_at, entry_at, number_at};
use crate::refusals;
use printing::print;
use std::io;
use std::rt::Env;

fn asked(rt: &(impl Env + Eprint), headings: &[u32], pool: &[i32]) -> Option<bool> {
    let row = entry_at(rt, 2, headings, pool)?;
    let label = number_at(rt, 3)?;
    let d = number_at(rt, 4)?;
    let allowance = allowance_at(rt, 5)?;
    refusals::answered(rt, row.may_be_late(label, d, allowance))
}

pub fn run(rt: &(impl Env + Print + Eprint), headings: &[u32], pool: &[i32]) -> io::Result<()> {
    match asked(rt, headings, pool) {
        Some(true) => print(rt, b"allowed\n"),
        Some(false) => print(rt, b"too late\n"),
        None => Ok(()),
    }
}
