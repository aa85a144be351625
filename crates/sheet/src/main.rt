// Reads a table's text from standard input and prints its sheet: a line for each entry, or the line of a refusal.

#![tactic(auto)]

use std::io;
use table_text::TEXT_LIMIT;

// One byte more than a text may have is read, so that a longer one is seen.
fn main(rt: HostRuntime) -> io::Result<()> {
    let mut text = [0u8; TEXT_LIMIT + 1];
    let n = programs::fill(&mut rt.reader(), &mut text)?;
    sheet_printing::print(&rt, &text[..n])?;
    Ok(())
}
