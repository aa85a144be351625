// Bytes from a file.

ghost use Rattle.std.specs.Prelude.{◌≤◌, ◌<◌, ◌^◌, length, IfOk};

use std::io;
use std::io::{Read, Seek, SeekFrom};

// Reads the n bytes of the file from `start` on, or those up to its end: how many came.
pub fn fill_at(
    file: &mut (impl Read + Seek),
    start: usize,
    bytes: &mut [u8],
    n: usize,
) -> io::Result<usize>
    requires { (start < 2 ^ 63) × (n ≤ length bytes.old) }
    ensures { IfOk result (λ k. k ≤ n) }
{
    file.seek(SeekFrom::Start(start as u64))?;
    programs::fill(file, &mut bytes[..n])
}

// How many bytes the file has.
pub fn size_of(file: &mut impl Seek) -> io::Result<usize>
    ensures { IfOk result (λ size. size < 2 ^ 63) }
{
    let end = file.seek(SeekFrom::End(0))?;
    if end < 1 << 63 {
        Ok(end as usize)
    } else {
        Err(io::Error::from(io::ErrorKind::FileTooLarge))
    }
}
