// The conversion of a table and the sheet of a text in plain numbers, as C takes them: `jogipahn_c` hands each function on
// under its name for C.

#![tactic(auto)]

ghost use Rattle.std.specs.Prelude.{◌≡◌, length};
ghost use Rattle.table_api.specs.Codes.{conversion_code};
ghost use Rattle.table_api.specs.LeftCoded.{LeftCoded, SheetCoded};

use conversion::ConversionError;

// What converting came to as a number.
fn conversion_code(c: Result<(), ConversionError>) -> i64
    ensures { result ≡ conversion_code c }
{
    match c {
        Err(ConversionError { number, entry }) => 100 * (number as i64) + entry as i64,
        Ok(()) => 0,
    }
}

// Converts a table, with four numbers a heading: 0, or 100 times the refusal's number plus its entry.
pub fn convert(table: &[i32], headings: &mut [u32], pool: &mut [i32]) -> i64
    ensures { LeftCoded table.now (length headings.old) (length pool.old) result headings.new pool.new }
{
    let converted = conversion::convert(table, &mut *headings, &mut *pool);
    conversion_code(converted)
}

// Writes the sheet of a table's text into `out`, with zeros behind it: how many bytes it has; or -1 where `out`, then all
// zero, is too short for it.
pub fn sheet(text: &[u8], out: &mut [u8]) -> i64
    ensures { SheetCoded text.now (length out.old) result out.new }
{
    let written = sheet_text::sheet(text, &mut *out);
    match written {
        Some(n) => n as i64,
        None => -1,
    }
}
