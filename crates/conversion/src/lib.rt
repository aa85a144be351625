// The conversion of a table: each entry's least row into the pool, one behind the other, with a heading of four numbers.

#![tactic(auto)]

ghost use Rattle.std.specs.Prelude.{◌≡◌, List, [], ◌++◌, ◌-◌, ◌≤◌, length, take, replicate};
ghost use Rattle.calendar.specs.Meaning.{Row, empty};
ghost use Rattle.calendar.specs.Outcome.{entries};
ghost use Rattle.calendar.specs.Lists.{filled};
ghost use Rattle.row_entry.specs.Stores.{Stores, EntryDue, Entered};
ghost use Rattle.conversion.specs.Tables.{Cleared, TableDue};
ghost use Rattle.conversion.specs.Left.{Ended, Left};

use calendar::{Calendar, Refusal};

// How many numbers a heading has: start, period, distance and granules.
pub use row_entry::HEADING_LENGTH;

// Why a table is refused: the refusal's number, and the entry that calls for it (0 for 1 to 3).
#[derive(Clone, Copy, PartialEq, Eq)]
pub struct ConversionError {
    pub number: u32,
    pub entry: u32,
}

// Converts the entry k behind the rows of the entries before it, which end before the cell `used`. After a refusal these and all headings are as they were, and
// the cells behind are scratch.
pub fn convert_entry(
    table: &[i32],
    k: usize,
    used: usize,
    headings: &mut [u32],
    pool: &mut [i32],
) -> Result<usize, Refusal>
    requires { EntryDue table.now k headings.old pool.old used }
    ensures lengths { (length headings.new ≡ length headings.old) × (length pool.new ≡ length pool.old) }
    ensures entered { (l : List Row) → length l ≡ k → Stores l headings.old pool.old used → Entered table.now k l result headings.new pool.new }
{
    let e = entries::entry_at(table, k);
    let named = entries::read(e, k)?;
    row_entry::enter_named(named, k, used, headings, pool)
}

// Makes the cells from `start` on empty.
pub fn clear_cells(pool: &mut [i32], start: usize)
    requires { start ≤ length pool.old }
    ensures { pool.new ≡ take start pool.old ++ replicate (length pool.old - start) empty }
{
    pool[start..].fill(Calendar::EMPTY);
}

// Makes every number of a heading zero.
fn clear_headings(headings: &mut [u32])
    ensures { headings.new ≡ filled (length headings.old) 0 [] }
{
    headings.fill(0);
}

// Makes both lists hold nothing.
pub fn clear(headings: &mut [u32], pool: &mut [i32])
    ensures { Cleared (length headings.old) (length pool.old) headings.new pool.new }
{
    clear_headings(&mut *headings);
    clear_cells(&mut *pool, 0);
}

// Converts the n entries of a table, whose headings hold nothing yet, and makes the cells behind the last row empty.
fn convert_entries(
    table: &[i32],
    n: usize,
    headings: &mut [u32],
    pool: &mut [i32],
) -> Result<(), ConversionError>
    requires { TableDue table.now n headings.old pool.old }
    ensures { Ended (length headings.old) (length pool.old) (entries table.now n 0 [] (length pool.old)) result headings.new pool.new }
{
    let mut used = 0;
    for k in 0..n {
        let entry = convert_entry(table, k, used, &mut *headings, &mut *pool);
        match entry {
            Err(refusal) => {
                clear(&mut *headings, &mut *pool);
                return Err(ConversionError {
                    number: refusal.number(),
                    entry: k as u32,
                });
            }
            Ok(end) => used = end,
        }
    }
    clear_cells(&mut *pool, used);
    Ok(())
}

// Converts a table. Answered, the pool holds the least row of each entry and the headings say where, four numbers each; after a refusal every cell is empty and
// every number of a heading is zero. Refuses 1, 2 and 3 for the lists, with entry 0, and 4 to 12 for the first entry that calls for it. Costs time in proportion to span and
// working period of each entry, and to its row for each divisor that is tried; no memory.
pub fn convert(table: &[i32], headings: &mut [u32], pool: &mut [i32]) -> Result<(), ConversionError>
    ensures { Left table.now (length headings.old) (length pool.old) result headings.new pool.new }
{
    clear_headings(&mut *headings);
    let begun = entries::begin(table, headings.len() / HEADING_LENGTH, pool.len());
    match begun {
        Err(refusal) => {
            clear_cells(&mut *pool, 0);
            Err(ConversionError {
                number: refusal.number(),
                entry: 0,
            })
        }
        Ok(n) => convert_entries(table, n, &mut *headings, &mut *pool),
    }
}
