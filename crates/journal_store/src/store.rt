// A record, put behind all that stands in a file, and on the disk.

ghost use Rattle.std.specs.Prelude.{◌≤◌, length};

use std::fs::{File, Files, OpenFile, OpenOptions};
use std::io;
use std::io::Write;

// Opens the file for appending, and makes it where it is missing.
fn open_end<R: Files>(rt: &R, path: &str) -> io::Result<R::File> {
    OpenOptions::new().append(true).create(true).open(rt, path)
}

// How many bytes of a path name its folder: those up to its last "/".
fn folder_length(path: &[u8]) -> usize
    ensures { result ≤ length path.now }
{
    match path.iter().rposition(|&b| b == b'/') {
        Some(i) => i + 1,
        None => 0,
    }
}

// Opens the folder of a file.
fn open_folder<R: Files>(rt: &R, path: &str) -> io::Result<R::File> {
    let n = folder_length(path.as_bytes());
    if n == 0 {
        return File::open(rt, ".");
    }
    File::open(rt, programs::path_of(&path.as_bytes()[..n])?)
}

// Waits until the folder, which has the file's name, is on the disk.
fn sync_folder(rt: &impl Files, path: &str) -> io::Result<()> {
    let folder = open_folder(rt, path)?;
    folder.sync_all()
}

// Tells that only `done` of `whole` bytes reached the file.
fn tell_torn(rt: &impl Eprint, path: &str, done: usize, whole: usize) {
    let _ = eprint!(rt; "{path}: torn after {done} of {whole} bytes\n");
}

// Writes a record by one call, so that a cut leaves a beginning of it, and waits until it is on the disk. Where only a
// part reached the file, that is told.
fn write_end<R: Files + Eprint>(
    rt: &R,
    path: &str,
    file: &mut R::File,
    record: &[u8],
) -> io::Result<bool> {
    let n = file.write(record)?;
    if n < record.len() {
        tell_torn(rt, path, n, record.len());
        return Ok(false);
    }
    file.sync_all()?;
    sync_folder(rt, path)?;
    Ok(true)
}

fn append(rt: &(impl Files + Eprint), path: &str, record: &[u8]) -> io::Result<bool> {
    let mut file = open_end(rt, path)?;
    write_end(rt, path, &mut file, record)
}

// Appends a record to the file: whether all of it is on the disk. Where it is not, that is told.
pub fn store(rt: &(impl Files + Eprint + Alloc), path: &str, record: &[u8]) -> bool {
    match append(rt, path, record) {
        Ok(stored) => stored,
        Err(error) => {
            programs::tell_failure(rt, path, error);
            false
        }
    }
}
