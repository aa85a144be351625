// What an append writes: a table's text and its trailer, laid into a lent list.

ghost use Rattle.std.specs.Prelude.{◌≡◌, [], ◌+◌, ◌≤◌, length};
ghost use Rattle.calendar.specs.Lists.{filled};
ghost use Rattle.table_text.specs.Parse.{parse};
ghost use Rattle.table_text.specs.Tables.{reading_answer};
ghost use Rattle.journal.specs.Journal as Journal;
ghost use Rattle.journal.specs.Lent.{recorded_in};
ghost use Rattle.journal.specs.Writing.{append_of, RecordLeft};

use table_text::TABLE_LENGTH;

// How many bytes a trailer has.
pub const TRAILER_LENGTH: usize = 6;

// Enough for any record: a text of 4,096 bytes and its trailer.
pub const RECORD_LIMIT: usize = 4102;

// Why an append writes nothing: the line for which the text is refused with 19, or that the lent list is too short.
#[derive(Clone, Copy, PartialEq, Eq)]
pub enum RecordError {
    Refused(u32),
    TooShort,
}

// The trailer of a body of n bytes.
fn trailer(n: usize) -> [u8; TRAILER_LENGTH]
    ensures { result ≡ Journal.trailer n }
{
    [
        255,
        (n % 128) as u8,
        (n / 128 % 128) as u8,
        (n / 16384 % 128) as u8,
        (n / 2097152 % 128) as u8,
        254,
    ]
}

// The byte at the place i of the record of a text, and 0 behind its end.
fn byte_at(text: &[u8], i: usize) -> u8
    ensures { result ≡ Journal.byte_at (Journal.record_of text.now) i }
{
    let n = text.len();
    if i < n {
        return text[i];
    }
    let k = i - n;
    if k < TRAILER_LENGTH {
        let bytes = trailer(n);
        return bytes[k];
    }
    0
}

// Lays the record of a text into a list that has room for it, with zeros behind it.
fn lay(text: &[u8], out: &mut [u8])
    requires { length (Journal.record_of text.now) ≤ length out.old }
    ensures { out.new ≡ filled (length out.old) 0 (Journal.record_of text.now) }
{
    for (i, b) in out.iter_mut().enumerate() {
        *b = byte_at(text, i);
    }
}

// Makes every byte zero.
fn clear(out: &mut [u8])
    ensures { out.new ≡ filled (length out.old) 0 [] }
{
    out.fill(0);
}

// Whether a text keeps to the rules, or its first bad line.
fn read(text: &[u8]) -> Result<usize, u32>
    ensures { result ≡ reading_answer (parse text.now) }
{
    let mut table = [0i32; TABLE_LENGTH];
    table_text::read_table(text, &mut table)
}

// How many bytes appending a text writes, into a list of `room` bytes.
fn recorded(text: &[u8], room: usize) -> Result<usize, RecordError>
    ensures { result ≡ recorded_in room (append_of text.now) }
{
    if text.len() == 0 {
        return Err(RecordError::Refused(0));
    }
    if let Err(line) = read(text) {
        return Err(RecordError::Refused(line));
    }
    let n = text.len() + TRAILER_LENGTH;
    if room < n {
        return Err(RecordError::TooShort);
    }
    Ok(n)
}

// Lays what appending a text writes into a list, with zeros behind it, and answers how many bytes that is. Where nothing
// is written, the list is left all zero; one of RECORD_LIMIT bytes never is too short.
pub fn record(text: &[u8], out: &mut [u8]) -> Result<usize, RecordError>
    ensures { RecordLeft text.now (length out.old) result out.new }
{
    let written = recorded(text, out.len());
    match written {
        Ok(_) => lay(text, &mut *out),
        Err(_) => clear(&mut *out),
    }
    written
}
