// The sheet of a table's text, on standard output.

#![tactic(auto)]

use sheet_text::SHEET_LIMIT;
use std::io;

fn digit_at(s: &[u8], i: usize) -> Option<u8> {
    s.get(i)?.checked_sub(b'0')
}

// The number of the refusal that is all of a sheet, "refused 8 at 1"; none for a sheet with rows.
fn refusal_of(sheet: &[u8]) -> Option<u32> {
    if !sheet.starts_with(b"r") {
        return None;
    }
    let first = digit_at(sheet, 8)?;
    match digit_at(sheet, 9) {
        Some(second) => Some(u32::from(first) * 10 + u32::from(second)),
        None => Some(u32::from(first)),
    }
}

// Prints the sheet of a text: a line for each entry, or the line of a refusal, whose number is answered. The list holds
// any sheet.
pub fn print(rt: &impl Print, text: &[u8]) -> io::Result<Option<u32>> {
    let mut out = [0u8; SHEET_LIMIT];
    let Some(n) = sheet_text::sheet(text, &mut out) else {
        return Ok(None);
    };
    let lines = &out[..n];
    printing::print(rt, lines)?;
    Ok(refusal_of(lines))
}
