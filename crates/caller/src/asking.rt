// Each question to the rows of the first calendar, answered and refused.

use jogipahn::{Allowance, Calendar, Heading, Refusal};
use printing::{print, print_count, print_number};
use std::io;

// The row of a heading.
pub fn row_of<'a>(pool: &'a [i32], row: Heading) -> &'a [i32] {
    let from = row.start as usize;
    let end = from + row.period as usize;
    if end <= pool.len() {
        &pool[from..end]
    } else {
        &pool[..0]
    }
}

fn print_refused(rt: &impl Print, refusal: Refusal) -> io::Result<()> {
    print(rt, b"refused with ")?;
    print_number(rt, refusal.number() as i64)?;
    print(rt, b"\n")
}

fn print_up(rt: &impl Print, up: Result<Option<i64>, Refusal>) -> io::Result<()> {
    match up {
        Ok(Some(label)) => {
            print_number(rt, label)?;
            print(rt, b"\n")
        }
        Ok(None) => print(rt, b"none\n"),
        Err(refusal) => print_refused(rt, refusal),
    }
}

fn print_placing(rt: &impl Print, placing: Result<Option<(i64, u64)>, Refusal>) -> io::Result<()> {
    match placing {
        Ok(Some((label, place))) => {
            print_number(rt, label)?;
            print(rt, b", place ")?;
            print_count(rt, place as usize)?;
            print(rt, b"\n")
        }
        Ok(None) => print(rt, b"none\n"),
        Err(refusal) => print_refused(rt, refusal),
    }
}

// The slot of the instant t and its place there, by a reader and without.
fn ask_up_instant(
    rt: &impl Print,
    what: &[u8],
    pool: &[i32],
    row: Heading,
    t: i64,
) -> io::Result<()> {
    print(rt, what)?;
    print(rt, b" of day ")?;
    print_number(rt, t)?;
    print(rt, b": ")?;
    let period = row.period as i64;
    let distance = row.distance as i64;
    print_placing(
        rt,
        super::read_up_instant(t, row_of(pool, row), period, distance),
    )?;
    print(rt, b"the same without a reader: ")?;
    print_placing(
        rt,
        jogipahn::up_instant(t, row_of(pool, row), period, distance),
    )
}

// The slot of h that holds the whole slot z of g.
fn ask_up_granule(rt: &impl Print, pool: &[i32], g: Heading, h: Heading, z: i64) -> io::Result<()> {
    print(rt, b"week of slot ")?;
    print_number(rt, z)?;
    print(rt, b": ")?;
    let up = jogipahn::up_granule(
        z,
        row_of(pool, g),
        g.period as i64,
        g.distance as i64,
        row_of(pool, h),
        h.period as i64,
        h.distance as i64,
    );
    print_up(rt, up)
}

fn print_part(rt: &impl Print, part: i64) -> io::Result<()> {
    print(rt, b" ")?;
    print_number(rt, part)
}

fn print_parts(rt: &impl Print, parts: [i64; 6]) -> io::Result<()> {
    print_part(rt, parts[0])?;
    print_part(rt, parts[1])?;
    print_part(rt, parts[2])?;
    print_part(rt, parts[3])?;
    print_part(rt, parts[4])?;
    print_part(rt, parts[5])?;
    print(rt, b"\n")
}

// How many slots of g make up the slot z of h; `parts` is left with them.
fn ask_down(
    rt: &impl Print,
    pool: &[i32],
    h: Heading,
    g: Heading,
    z: i64,
    parts: &mut [i64],
) -> io::Result<()> {
    print(rt, b"slots of week ")?;
    print_number(rt, z)?;
    print(rt, b": ")?;
    let parted = jogipahn::down(
        z,
        parts,
        row_of(pool, h),
        h.period as i64,
        h.distance as i64,
        row_of(pool, g),
        g.period as i64,
        g.distance as i64,
    );
    match parted {
        Ok(count) => {
            print_count(rt, count)?;
            print(rt, b", which are in")
        }
        Err(refusal) => print_refused(rt, refusal),
    }
}

// Down answered, refused with 16 and, for a list of 4, with 17.
fn ask_parts(
    rt: &impl Print,
    pool: &[i32],
    weeks: Heading,
    slots: Heading,
    working_weeks: Heading,
) -> io::Result<()> {
    let mut list = [7i64; 6];
    ask_down(rt, pool, working_weeks, slots, 2, &mut list)?;
    print_parts(rt, list)?;
    ask_down(rt, pool, weeks, slots, 2, &mut list)?;
    let mut short = [7i64; 4];
    ask_down(rt, pool, working_weeks, slots, 2, &mut short)
}

// The figures of a row with its slots per period; of the slots the mean spacing is 7 days by 5 slots.
fn ask_figures(
    rt: &impl Print,
    pool: &[i32],
    row: Heading,
    period: i64,
    granules: i64,
) -> io::Result<()> {
    print(rt, b"mean spacing of slots: ")?;
    let figured = jogipahn::figures(granules, row_of(pool, row), period, row.distance as i64);
    match figured {
        Ok(v) => {
            if v.mean_spacing == 1.4 && v.mean_length == 1.0 && v.openness < 0.8 {
                print(rt, b"1.4 days\n")
            } else {
                print(rt, b"another\n")
            }
        }
        Err(refusal) => print_refused(rt, refusal),
    }
}

// The least period of a row; the slots' is 7 already, as 7, 5 and 5 have no common divisor but 1.
fn ask_least_period(rt: &impl Print, pool: &[i32], row: Heading, period: i64) -> io::Result<()> {
    print(rt, b"least period of slots: ")?;
    let shortening = jogipahn::least_period(row_of(pool, row), period, row.distance as i64);
    match shortening {
        Ok(shortest) => {
            print_number(rt, shortest.period)?;
            print(rt, b", tried ")?;
            print_count(rt, shortest.tried as usize)?;
            print(rt, b"\n")
        }
        Err(refusal) => print_refused(rt, refusal),
    }
}

// Whether a delivery may be d instants late on the slot z.
fn ask_may_be_late(
    rt: &impl Print,
    pool: &[i32],
    row: Heading,
    z: i64,
    d: i64,
    allowance: Allowance,
) -> io::Result<()> {
    print(rt, b"week ")?;
    print_number(rt, z)?;
    print(rt, b", ")?;
    print_number(rt, d)?;
    print(rt, b" days late: ")?;
    let late = jogipahn::may_be_late(
        z,
        d,
        allowance,
        row_of(pool, row),
        row.period as i64,
        row.distance as i64,
    );
    match late {
        Ok(true) => print(rt, b"allowed\n"),
        Ok(false) => print(rt, b"too late\n"),
        Err(refusal) => print_refused(rt, refusal),
    }
}

// Each question, answered and refused.
pub fn ask(
    rt: &impl Print,
    pool: &[i32],
    weeks: Heading,
    slots: Heading,
    working_weeks: Heading,
) -> io::Result<()> {
    ask_up_instant(rt, b"slot", pool, slots, 8)?;
    ask_up_instant(rt, b"slot", pool, slots, 7)?;
    ask_up_instant(rt, b"slot", pool, slots, Calendar::GREATEST_LABEL + 1)?;
    ask_up_instant(rt, b"working week", pool, working_weeks, 12)?;
    ask_up_granule(rt, pool, slots, weeks, 6)?;
    ask_up_granule(rt, pool, slots, slots, Calendar::LEAST_LABEL - 1)?;
    ask_parts(rt, pool, weeks, slots, working_weeks)?;
    ask_figures(rt, pool, slots, 7, slots.granules as i64)?;
    ask_figures(rt, pool, slots, 8, slots.granules as i64)?;
    ask_figures(rt, pool, slots, 7, 6)?;
    ask_least_period(rt, pool, slots, 7)?;
    ask_least_period(rt, pool, slots, 8)?;
    ask_may_be_late(rt, pool, weeks, 2, 3, Allowance::Share(0.5))?;
    ask_may_be_late(rt, pool, weeks, 2, 3, Allowance::Fixed(2.0))?;
    ask_may_be_late(
        rt,
        pool,
        weeks,
        2,
        jogipahn::LATE_LIMIT,
        Allowance::Fixed(-1.0),
    )
}
