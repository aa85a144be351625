// A journal of tables, for C: include/jogipahn.h declares the functions.

ghost use Rattle.std.specs.Prelude.{◌≡◌, length};
ghost use Rattle.calendar.specs.Lists.{filled};
ghost use Rattle.journal.specs.Answers.{opened_in};
ghost use Rattle.journal.specs.Lent.{recorded_in, bytes_in};
ghost use Rattle.journal.specs.Writing.{append_of};
ghost use Rattle.journal_api.specs.Codes.{last_code, last_start, record_code};

// How many bytes the last table's text has, from `start` on; 0, and 0 there, if there is none.
#[unsafe(no_mangle)]
pub extern "C" fn jogipahn_journal_last(book: &[u8], start: &mut usize) -> i64
    ensures code { result ≡ last_code (opened_in book.now) }
    ensures start { start.new ≡ last_start (opened_in book.now) }
{
    journal_api::last(book, start)
}

// What appending a text writes, in a list with zeros behind it: how many bytes. A refusal with its line, or -1 for a
// list that is too short, leaves zeros alone.
#[unsafe(no_mangle)]
pub extern "C" fn jogipahn_journal_record(text: &[u8], out: &mut [u8]) -> i64
    ensures code { result ≡ record_code (recorded_in (length out.old) (append_of text.now)) }
    ensures list { out.new ≡ filled (length out.old) 0 (bytes_in (length out.old) (append_of text.now)) }
{
    journal_api::record(text, out)
}
