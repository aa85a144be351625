// A table's text: a line for each entry.

ghost use Rattle.std.specs.Prelude.{◌≡◌, ◌+◌, ◌≤◌, pos, length, replicate};
ghost use Rattle.std.proofs.Math.Seq.{paste};
ghost use Rattle.table_text.specs.Words.{line_feed};
ghost use Rattle.table_text.specs.Text.{text_limit, entry_length, table_length};
ghost use Rattle.table_text.specs.Parse.{split, parse, read_lines};
ghost use Rattle.table_text.specs.Tables.{Left};

use crate::entry::{end_of, read_entry};
use entries::ENTRY_LENGTH;

// The longest text, in bytes.
pub const TEXT_LIMIT: usize = 4096;

// Enough numbers for any text: a line of an entry has 12 bytes or more, so that a text has at most 341 entries.
pub const TABLE_LENGTH: usize = 2048;

const LINE_FEED: u8 = 10;

// Makes every number zero.
fn clear(table: &mut [i32])
    ensures { table.new ≡ replicate (length table.old) (pos 0) }
{
    table.fill(0);
}

// Puts six numbers at `at`.
fn put(table: &mut [i32], at: usize, numbers: [i32; ENTRY_LENGTH])
    requires { (at + entry_length ≤ length table.old) × (length numbers ≡ entry_length) }
    ensures { table.new ≡ paste table.old at numbers entry_length }
{
    table[at..at + ENTRY_LENGTH].copy_from_slice(&numbers);
}

// Reads the lines of a text that is not too long into a table that holds nothing.
fn read_lines(text: &[u8], table: &mut [i32]) -> Result<usize, u32>
    requires text_len_bound { length text.now ≤ text_limit }
    requires table_length_in_bounds { (table_length ≤ length table.old) × (table.old ≡ replicate (length table.old) (pos 0)) }
    ensures { Left (length table.old) (read_lines 0 (split line_feed text.now)) result table.new }
{
    let mut from = 0;
    let mut at = 0;
    let mut number: u32 = 0;
    while from < text.len() {
        let end = end_of(text, from, LINE_FEED);
        if end == text.len() {
            clear(&mut *table);
            return Err(number);
        }
        let Some(numbers) = read_entry(&text[from..end]) else {
            clear(&mut *table);
            return Err(number);
        };
        put(&mut *table, at, numbers);
        at += ENTRY_LENGTH;
        number += 1;
        from = end + 1;
    }
    Ok(at)
}

// Reads a table's text into a list that has room for any. Its numbers then stand at the start of the list, with zeros behind; after a bad line all are zero.
pub fn read_table(text: &[u8], table: &mut [i32]) -> Result<usize, u32>
    requires { table_length ≤ length table.old }
    ensures { Left (length table.old) (parse text.now) result table.new }
{
    clear(&mut *table);
    if TEXT_LIMIT < text.len() {
        return Err(0);
    }
    read_lines(text, &mut *table)
}
