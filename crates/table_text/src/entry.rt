// A line of six numbers.

ghost use Rattle.std.specs.Prelude.{◌≡◌, ◌≤◌, length};
ghost use Rattle.table_text.specs.Lines.{EndsAt, line_answer};
ghost use Rattle.table_text.specs.Parse.{entry_of};

use crate::number::read_number;
use entries::ENTRY_LENGTH;

const SPACE: u8 = 32;

// The place of the first byte b from `from` on, or the length where there is none.
pub(crate) fn end_of(s: &[u8], from: usize, b: u8) -> usize
    requires { from ≤ length s.now }
    ensures { EndsAt b s.now from result }
{
    for i in from..s.len() {
        if s[i] == b {
            return i;
        }
    }
    s.len()
}

// The entry that a line is, which comes without its line feed.
pub(crate) fn read_entry(line: &[u8]) -> Option<[i32; ENTRY_LENGTH]>
    ensures { line_answer result ≡ entry_of line.now }
{
    let mut numbers = [0i32; ENTRY_LENGTH];
    let mut from = 0;
    for k in 0..ENTRY_LENGTH {
        let end = end_of(line, from, SPACE);
        numbers[k] = read_number(&line[from..end])?;
        if end == line.len() {
            return (k + 1 == ENTRY_LENGTH).then_some(numbers);
        }
        from = end + 1;
    }
    None
}
