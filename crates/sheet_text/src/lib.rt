// The sheet of a table's text: the lines of its rows, or the line of its refusal.

#![tactic(auto)]

ghost use Rattle.std.specs.Prelude.{◌≡◌, [], ◌*◌, length};
ghost use Rattle.calendar.specs.Limits.{entry_limit, heading_length};
ghost use Rattle.calendar.specs.Lists.{filled};
ghost use Rattle.calendar.specs.Outcome.{outcome};
ghost use Rattle.table_text.specs.Text.{sheet_pool};
ghost use Rattle.table_text.specs.Sheet as Sheet;
ghost use Rattle.sheet_lines.specs.Laid.{Laid};
ghost use Rattle.sheet_text.specs.Left.{SheetLeft};

use calendar::{ENTRY_LIMIT, Refusal};
use conversion::{ConversionError, HEADING_LENGTH};
use entries::ENTRY_LENGTH;
use table_text::TABLE_LENGTH;

// Enough for any sheet: 4,096 cells of at most 12 bytes each, and 64 lines with at most 10 bytes beside their cells.
pub const SHEET_LIMIT: usize = 49792;

// How many cells the pool has.
const SHEET_POOL: usize = 4096;

// Makes every byte zero.
fn clear(out: &mut [u8])
    ensures { out.new ≡ filled (length out.old) 0 [] }
{
    out.fill(0);
}

// Converts a table and lays the lines of what comes of it, with lists for the conversion.
fn lay_converted(table: &[i32], headings: &mut [u32], pool: &mut [i32], out: &mut [u8]) -> usize
    requires { (length headings.old ≡ heading_length * entry_limit) × (length pool.old ≡ sheet_pool) }
    ensures { Laid (Sheet.printed (outcome table.now entry_limit sheet_pool)) out.old result out.new }
{
    let converted = conversion::convert(table, &mut *headings, &mut *pool);
    match converted {
        Err(ConversionError { number, entry }) => {
            sheet_lines::write_refusal(&mut *out, 0, number, entry)
        }
        Ok(()) => {
            let n = table.len() / ENTRY_LENGTH;
            sheet_lines::write_rows(&mut *out, 0, &headings[..], &pool[..], n)
        }
    }
}

// Converts a table and lays the lines of what comes of it.
fn lay_table(table: &[i32], out: &mut [u8]) -> usize
    ensures { Laid (Sheet.printed (outcome table.now entry_limit sheet_pool)) out.old result out.new }
{
    let mut headings = [0u32; HEADING_LENGTH * ENTRY_LIMIT];
    let mut pool = [0i32; SHEET_POOL];
    lay_converted(table, &mut headings, &mut pool, &mut *out)
}

// Lays the sheet of a text, as much of it as fits.
fn lay_sheet(text: &[u8], out: &mut [u8]) -> usize
    ensures { Laid (Sheet.sheet text.now) out.old result out.new }
{
    let mut table = [0i32; TABLE_LENGTH];
    let reading = table_text::read_table(text, &mut table);
    match reading {
        Err(line) => {
            let refusal = Refusal::TextNotAllowed;
            sheet_lines::write_refusal(&mut *out, 0, refusal.number(), line)
        }
        Ok(n) => lay_table(&table[..n], &mut *out),
    }
}

// Writes the sheet of a text into a list, with zeros behind it. A list that is too short for it is left all zero; one of SHEET_LIMIT bytes never is.
pub fn sheet(text: &[u8], out: &mut [u8]) -> Option<usize>
    ensures { SheetLeft text.now (length out.old) result out.new }
{
    clear(&mut *out);
    let n = lay_sheet(text, &mut *out);
    if n <= out.len() {
        return Some(n);
    }
    clear(&mut *out);
    None
}
