// What the programs share: their arguments, the bytes that they read, and how a failure is told.

#![tactic(auto)]

ghost use Rattle.std.specs.Prelude.{◌≤◌, length, IfOk};

use std::env::FillError;
use std::io;
use std::io::Read;
use std::rt::Env;

// Puts the argument i at the start of `word`: how many bytes it has; 0 for one that is missing or longer than the list.
pub fn argument(rt: &impl Env, i: usize, word: &mut [u8]) -> usize
    ensures { result ≤ length word.new }
{
    rt.arg(i, word).unwrap_or(0)
}

// Whether the argument i is there.
pub fn is_given(rt: &impl Env, i: usize) -> bool {
    let mut first = [0u8; 1];
    !matches!(rt.arg(i, &mut first), Err(FillError::NotPresent))
}

// How many arguments there are, the program's own name among them; `most` where there are more.
pub fn argument_count(rt: &impl Env, most: usize) -> usize {
    (0..most).find(|&i| !is_given(rt, i)).unwrap_or(most)
}

// Reads until the list is full or the input ends: how many bytes came.
pub fn fill(input: &mut impl Read, bytes: &mut [u8]) -> io::Result<usize>
    ensures { IfOk result (λ n. n ≤ length bytes.new) }
{
    let mut done = 0;
    while done < bytes.len() {
        let n = input.read(&mut bytes[done..])?;
        if n == 0 {
            return Ok(done);
        }
        done += n;
    }
    Ok(done)
}

// Tells what failed and why, in the system's words. A failure that can't be told is lost.
pub fn tell_failure(rt: &(impl Eprint + Alloc), what: &str, error: io::Error) {
    let Ok(told) = format!(in rt.alloc(); "{error}") else {
        return;
    };
    let told = told.as_str();
    let (reason, _) = told.split_once(" (os error ").unwrap_or((told, ""));
    let _ = eprint!(rt; "{what}: {reason}\n");
}

// Puts the argument i at the start of `bytes`: how many bytes it has.
fn path_length(rt: &impl Env, i: usize, bytes: &mut [u8]) -> io::Result<usize>
    ensures { IfOk result (λ n. n ≤ length bytes.new) }
{
    match rt.arg(i, bytes) {
        Ok(n) => Ok(n),
        Err(FillError::NotPresent) => Err(io::Error::from(io::ErrorKind::InvalidInput)),
        Err(FillError::TooLong) => Err(io::Error::from_raw_os_error(NAME_TOO_LONG)),
    }
}

// Bytes that name a file; refused where they are no text in UTF-8.
pub fn path_of(bytes: &[u8]) -> io::Result<&str> {
    str::from_utf8(bytes).map_err(|_| io::Error::new(
        io::ErrorKind::InvalidInput,
        "the name is no text in UTF-8",
    ))
}

// The argument i as the name of a file, which is kept in `bytes`. Where it is none, that is told of `what`.
pub fn path_at<'a>(
    rt: &(impl Env + Eprint + Alloc),
    i: usize,
    what: &str,
    bytes: &'a mut [u8],
) -> Option<&'a str> {
    match path_in(rt, i, bytes) {
        Ok(path) => Some(path),
        Err(error) => {
            tell_failure(rt, what, error);
            None
        }
    }
}

fn path_in<'a>(rt: &impl Env, i: usize, bytes: &'a mut [u8]) -> io::Result<&'a str> {
    let n = path_length(rt, i, bytes)?;
    path_of(&bytes[..n])
}

// The system's number for a name that is too long.
const NAME_TOO_LONG: i32 = 36;

// How many bytes a path may have.
pub const PATH_LIMIT: usize = 4096;
