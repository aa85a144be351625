// A journal in a file. What goes wrong with the file is told on standard error.

#![tactic(auto)]

ghost use Rattle.std.specs.Prelude.{◌≡◌, ◌≤◌, ◌<◌, ◌^◌, IfOk, IfSome};
ghost use Rattle.table_text.specs.Text.{text_limit};
ghost use Rattle.journal_store.specs.Seen.{window_length};

use input::{fill_at, size_of};
use journal::{RECORD_LIMIT, RecordError};
use printing::print;
use std::fs::{File, Files};
use std::io;
use std::io::{Read, Seek};
use table_text::TEXT_LIMIT;

pub mod input;
pub mod store;
mod window;

// How many bytes of the file `last` looks at together: a trailer and the last byte of its body.
const WINDOW: usize = 7;

// Appends a text that was read. It is judged before the file is opened.
fn append_text(
    rt: &(impl Files + Print + Eprint + Alloc),
    path: &str,
    text: &[u8],
) -> io::Result<Option<u32>> {
    let mut out = [0u8; RECORD_LIMIT];
    match journal::record(text, &mut out) {
        Ok(n) => {
            if store::store(rt, path, &out[..n]) {
                print(rt, b"appended\n")?;
            }
            Ok(None)
        }
        Err(RecordError::Refused(line)) => {
            print!(rt; "refused 19 at {line}\n")?;
            Ok(Some(19))
        }
        Err(RecordError::TooShort) => Ok(None),
    }
}

// Appends the table's text on standard input, and says "appended" once it is on the disk. A text that breaks the rules
// is refused, and the file is not touched: then the refusal's number is answered. One byte more than a text may have is
// read, so that a longer one is seen.
pub fn append(
    rt: &(impl Files + Input + Print + Eprint + Alloc),
    path: &str,
) -> io::Result<Option<u32>> {
    let mut text = [0u8; TEXT_LIMIT + 1];
    match programs::fill(&mut rt.reader(), &mut text) {
        Ok(n) => append_text(rt, path, &text[..n]),
        Err(error) => {
            programs::tell_failure(rt, "standard input", error);
            Ok(None)
        }
    }
}

// Puts the last table's text at the start of `text`: how many bytes it has.
fn read_last<const N: usize>(
    file: &mut (impl Read + Seek),
    text: &mut [u8; TEXT_LIMIT],
) -> io::Result<Option<usize>>
    requires { (5 < N) × (N < 2 ^ 63) }
    ensures { IfOk result (λ found. IfSome found (λ k. k ≤ text_limit)) }
{
    let size = size_of(&mut *file)?;
    let Some((start, n)) = window::search::<N>(&mut *file, size)? else {
        return Ok(None);
    };
    let k = fill_at(file, start, text, n)?;
    Ok(Some(k))
}

fn print_empty(rt: &impl Print) -> io::Result<Option<u32>> {
    print(rt, b"empty book\n")?;
    Ok(None)
}

// Prints the sheet of the last table in a file that was opened.
fn last_in<const N: usize>(
    rt: &(impl Print + Eprint + Alloc),
    path: &str,
    file: &mut (impl Read + Seek),
) -> io::Result<Option<u32>>
    requires { (5 < N) × (N < 2 ^ 63) }
{
    let mut text = [0u8; TEXT_LIMIT];
    match read_last::<N>(file, &mut text) {
        Ok(Some(k)) => sheet_printing::print(rt, &text[..k]),
        Ok(None) => print_empty(rt),
        Err(error) => {
            programs::tell_failure(rt, path, error);
            Ok(None)
        }
    }
}

// Prints the sheet of the last table, or "empty book"; a missing file is one. Where the sheet is a refusal, its number is
// answered. N bytes of the file are looked at together.
pub fn last_by<const N: usize>(
    rt: &(impl Files + Print + Eprint + Alloc),
    path: &str,
) -> io::Result<Option<u32>>
    requires { (5 < N) × (N < 2 ^ 63) }
{
    match File::open(rt, path) {
        Ok(mut file) => last_in::<N>(rt, path, &mut file),
        Err(error) => {
            if error.kind() == io::ErrorKind::NotFound {
                return print_empty(rt);
            }
            programs::tell_failure(rt, path, error);
            Ok(None)
        }
    }
}

// The same by windows of the length that is asked of N.
fn last_near<const N: usize>(
    rt: &(impl Files + Print + Eprint + Alloc),
    path: &str,
) -> io::Result<Option<u32>>
    requires { N ≡ window_length }
{
    last_by::<N>(rt, path)
}

// The same by windows of a trailer and the last byte of its body, so that nothing before the body is read.
pub fn last(rt: &(impl Files + Print + Eprint + Alloc), path: &str) -> io::Result<Option<u32>> {
    last_near::<WINDOW>(rt, path)
}
