// A journal in plain numbers, as C takes it: `jogipahn_c` hands each function on under its name for C.

#![tactic(auto)]

ghost use Rattle.std.specs.Prelude.{◌≡◌, ◌+◌, ◌*◌, length};
ghost use Rattle.calendar.specs.Lists.{filled};
ghost use Rattle.table_text.specs.Text.{bad_text};
ghost use Rattle.codes.specs.Codes.{refusal_code};
ghost use Rattle.journal.specs.Answers.{opened_in};
ghost use Rattle.journal.specs.Lent.{recorded_in, bytes_in};
ghost use Rattle.journal.specs.Writing.{append_of};
ghost use Rattle.journal_api.specs.Codes.{last_code, last_start, record_code};

use journal::RecordError;

// 100 times the refusal of a text.
const TEXT_REFUSED: i64 = 1900;

// The refusal of a text for one of its lines.
fn refused_at(line: u32) -> i64
    ensures { result ≡ refusal_code (100 * bad_text + line) }
{
    0 - (TEXT_REFUSED + line as i64)
}

// How many bytes the last table's text has, from `start` on; 0, and 0 there, if there is none.
pub fn last(book: &[u8], start: &mut usize) -> i64
    ensures code { result ≡ last_code (opened_in book.now) }
    ensures start { start.new ≡ last_start (opened_in book.now) }
{
    let opened = journal::open(book);
    match opened {
        Some((s, n)) => {
            *start = s;
            n as i64
        }
        None => {
            *start = 0;
            0
        }
    }
}

// What appending a text writes, in a list with zeros behind it: how many bytes. A refusal with its line, or -1 for a
// list that is too short, leaves zeros alone.
pub fn record(text: &[u8], out: &mut [u8]) -> i64
    ensures code { result ≡ record_code (recorded_in (length out.old) (append_of text.now)) }
    ensures list { out.new ≡ filled (length out.old) 0 (bytes_in (length out.old) (append_of text.now)) }
{
    let recorded = journal::record(text, &mut *out);
    match recorded {
        Ok(n) => n as i64,
        Err(RecordError::Refused(line)) => refused_at(line),
        Err(RecordError::TooShort) => -1,
    }
}
