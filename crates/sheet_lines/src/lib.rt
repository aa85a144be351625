// The lines of a sheet, laid into a lent list one behind the other. Each function takes the place where its bytes go and answers the place behind
// them; bytes that the list has no room for are left out, and the place is then behind the list's end.

#![tactic(auto)]

ghost use Rattle.std.specs.Prelude.{◌≡◌, [], ◌∷◌, ◌+◌, ◌<◌, nat_abs};
ghost use Rattle.table_text.specs.Numerals.{decimal, numeral};
ghost use Rattle.table_text.specs.SheetWords.{cell_word};
ghost use Rattle.sheet_lines.specs.Laid.{Adds};
ghost use Rattle.sheet_lines.specs.RowLines.{spaced_cells, row_line, row_lines, refusal_line, RowsThere};

use calendar::Calendar;
use conversion::HEADING_LENGTH;

// Puts a byte at `at`, if the list is not full.
fn push(out: &mut [u8], at: usize, b: u8) -> usize
    ensures { Adds (b ∷ []) at out.old result out.new }
{
    if at < out.len() {
        out[at] = b;
        return at + 1;
    }
    out.len() + 1
}

fn digit(d: u64) -> u8
    requires { d < 10 }
    ensures { result ≡ 48 + d }
{
    b'0' + d as u8
}

// The digits of n.
fn write_decimal(out: &mut [u8], at: usize, n: u64) -> usize
    ensures { Adds (decimal n) at out.old result out.new }
{
    if n < 10 {
        return push(&mut *out, at, digit(n));
    }
    let k = write_decimal(&mut *out, at, n / 10);
    push(&mut *out, k, digit(n % 10))
}

// |v|. Of a negative v, -1 - v fits where -v may not.
fn magnitude(v: i32) -> u64
    ensures { result ≡ nat_abs v }
{
    if v < 0 {
        (-1 - v as i64) as u64 + 1
    } else {
        v as u64
    }
}

// A whole number.
fn write_number(out: &mut [u8], at: usize, v: i32) -> usize
    ensures { Adds (numeral v) at out.old result out.new }
{
    if v < 0 {
        let k = push(&mut *out, at, b'-');
        return write_decimal(&mut *out, k, magnitude(v));
    }
    write_decimal(&mut *out, at, magnitude(v))
}

// A cell of a row.
fn write_cell(out: &mut [u8], at: usize, cell: i32) -> usize
    ensures { Adds (cell_word cell) at out.old result out.new }
{
    if cell == Calendar::EMPTY {
        return push(&mut *out, at, b'.');
    }
    write_number(&mut *out, at, cell)
}

// The cells of a row, each with a space before it.
fn write_cells(out: &mut [u8], at: usize, cells: &[i32]) -> usize
    ensures { Adds (spaced_cells cells.now) at out.old result out.new }
{
    let mut k = at;
    for cell in cells {
        let j = push(&mut *out, k, b' ');
        k = write_cell(&mut *out, j, *cell);
    }
    k
}

// The line of a row: period, distance and cells.
fn write_row(out: &mut [u8], at: usize, period: u32, distance: u32, cells: &[i32]) -> usize
    ensures { Adds (row_line (record { period = period; distance = distance; cells = cells.now })) at out.old result out.new }
{
    let a = write_decimal(&mut *out, at, period as u64);
    let b = push(&mut *out, a, b' ');
    let c = write_decimal(&mut *out, b, distance as u64);
    let d = write_cells(&mut *out, c, cells);
    push(&mut *out, d, b'\n')
}

// The lines of the rows of n headings.
pub fn write_rows(out: &mut [u8], at: usize, headings: &[u32], pool: &[i32], n: usize) -> usize
    requires { RowsThere headings.now pool.now n }
    ensures { Adds (row_lines headings.now pool.now n) at out.old result out.new }
{
    let mut place = at;
    for i in 0..n {
        let h = HEADING_LENGTH * i;
        let start = headings[h] as usize;
        let period = headings[h + 1];
        let distance = headings[h + 2];
        let end = start + period as usize;
        place = write_row(&mut *out, place, period, distance, &pool[start..end]);
    }
    place
}

// The bytes of a word.
fn write_word(out: &mut [u8], at: usize, word: &[u8]) -> usize
    ensures { Adds word.now at out.old result out.new }
{
    let mut place = at;
    for b in word {
        place = push(&mut *out, place, *b);
    }
    place
}

// The line of a refusal: its number and its entry or line.
pub fn write_refusal(out: &mut [u8], at: usize, number: u32, entry: u32) -> usize
    ensures { Adds (refusal_line number entry) at out.old result out.new }
{
    let a = write_word(&mut *out, at, b"refused ");
    let b = write_decimal(&mut *out, a, number as u64);
    let c = write_word(&mut *out, b, b" at ");
    let end = write_decimal(&mut *out, c, entry as u64);
    push(&mut *out, end, b'\n')
}
