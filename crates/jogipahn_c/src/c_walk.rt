// Conversion in steps, for C: include/jogipahn.h declares the functions.

ghost use Rattle.steps_api.specs.Told.{started_in, stepped_in, Told};

// Begins a walk over a table: 0; or 100 times the refusal's number.
#[unsafe(no_mangle)]
pub extern "C" fn jogipahn_walk_start(
    table: &[i32],
    headings: &mut [u32],
    pool: &mut [i32],
    state: &mut [i64],
) -> i64
    ensures { Told (started_in state.old table.now headings.old pool.old) headings.old pool.old state.old result headings.new pool.new state.new }
{
    steps_api::start(table, headings, pool, state)
}

// One call of a walk: 0 for more, 1 for done; or 100 times the refusal's number plus its entry.
#[unsafe(no_mangle)]
pub extern "C" fn jogipahn_walk_step(
    table: &[i32],
    headings: &mut [u32],
    pool: &mut [i32],
    state: &mut [i64],
) -> i64
    ensures { Told (stepped_in state.old table.now headings.old pool.old) headings.old pool.old state.old result headings.new pool.new state.new }
{
    steps_api::step(table, headings, pool, state)
}
