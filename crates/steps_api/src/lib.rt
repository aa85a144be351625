// Walks in plain numbers, as C takes them: `jogipahn_c` hands each function on under its name for C.

#![tactic(auto)]

ghost use Rattle.std.specs.Prelude.{◌≡◌, length};
ghost use Rattle.integers.specs.Parts.{up};
ghost use Rattle.steps.specs.State.{progress_of, walk_of};
ghost use Rattle.steps_api.specs.Codes.{progress_code, stage, number, progressed, measured};
ghost use Rattle.steps_api.specs.Held.{staged_as, held_as, progress_in, walk_in};
ghost use Rattle.steps_api.specs.Told.{started_in, stepped_in, Told};

use steps::{Lengths, Progress, Walk};

// How many numbers a state has.
pub const STATE_LENGTH: usize = 8;

// What a state without a walk is answered with: refusal 13 at the entry 0.
const NO_WALK: i64 = 1300;

// A number that is not below 0, or 0.
fn natural(z: i64) -> usize
    ensures { result ≡ up z }
{
    if z < 0 { 0 } else { z as usize }
}

// How far a walk is, from the first two numbers of its state.
fn progress_in(stage: usize, number: usize) -> Option<Progress>
    ensures { staged_as result ≡ progress_in stage number }
{
    if stage == 1 {
        if number < 64 {
            return Some(Progress::Due(number as u32));
        }
        return None;
    }
    if stage == 2 {
        return Some(Progress::Done);
    }
    if stage != 3 {
        return None;
    }
    if number < 1400 {
        return Some(Progress::Refused((number / 100) as u32, (number % 100) as u32));
    }
    None
}

// The walk of a state.
fn read(state: &[i64]) -> Option<Walk>
    ensures { held_as result ≡ walk_in state.now }
{
    if state.len() != STATE_LENGTH {
        return None;
    }
    let lengths = Lengths {
        table: natural(state[2]),
        headings: natural(state[3]),
        pool: natural(state[4]),
    };
    let progress = progress_in(natural(state[0]), natural(state[1]))?;
    Some(Walk { lengths, progress })
}

// 0 for more, 1 for done, and 100 times a refusal's number plus its entry.
fn code(progress: Progress) -> i64
    ensures { result ≡ progress_code (progress_of progress) }
{
    match progress {
        Progress::Due(_) => 0,
        Progress::Done => 1,
        Progress::Refused(m, k) => 100 * (m as i64) + k as i64,
    }
}

// The first number of a state.
fn stage_of(progress: Progress) -> i64
    ensures { result ≡ stage (progress_of progress) }
{
    match progress {
        Progress::Due(_) => 1,
        Progress::Done => 2,
        Progress::Refused(_, _) => 3,
    }
}

// The second number of a state.
fn number_of(progress: Progress) -> i64
    ensures { result ≡ number (progress_of progress) }
{
    match progress {
        Progress::Due(k) => k as i64,
        Progress::Done => 0,
        Progress::Refused(m, k) => 100 * (m as i64) + k as i64,
    }
}

// Writes how far a walk is into its state.
fn write_progress(state: &mut [i64], progress: Progress)
    requires { length state.old ≡ 8 }
    ensures { state.new ≡ progressed (progress_of progress) state.old }
{
    state[0] = stage_of(progress);
    state[1] = number_of(progress);
}

// Writes the lengths of three lists into a state.
fn write_lengths(state: &mut [i64], table: i64, headings: i64, pool: i64)
    requires { length state.old ≡ 8 }
    ensures { state.new ≡ measured table headings pool state.old }
{
    state[2] = table;
    state[3] = headings;
    state[4] = pool;
}

// Begins a walk: 0 for begun, or 100 times a refusal's number; the walk stands in `state`. A state of another length is 1300, and nothing is touched.
pub fn start(table: &[i32], headings: &mut [u32], pool: &mut [i32], state: &mut [i64]) -> i64
    ensures { Told (started_in state.old table.now headings.old pool.old) headings.old pool.old state.old result headings.new pool.new state.new }
{
    if state.len() != STATE_LENGTH {
        return NO_WALK;
    }
    write_lengths(
        &mut *state,
        table.len() as i64,
        headings.len() as i64,
        pool.len() as i64,
    );
    let walk = steps::start(table, &mut *headings, &mut *pool);
    let progress = walk.progress;
    write_progress(&mut *state, progress);
    code(progress)
}

// One call of a walk: 0 for more, 1 for done, or 100 times a refusal's number plus its entry. A state that holds no walk is 1300, and nothing is touched.
pub fn step(table: &[i32], headings: &mut [u32], pool: &mut [i32], state: &mut [i64]) -> i64
    ensures { Told (stepped_in state.old table.now headings.old pool.old) headings.old pool.old state.old result headings.new pool.new state.new }
{
    let held = read(state);
    match held {
        Some(walk) => {
            let next = steps::step(walk, table, &mut *headings, &mut *pool);
            let progress = next.progress;
            write_progress(&mut *state, progress);
            code(progress)
        }
        None => NO_WALK,
    }
}
