// The last table of a file, found by windows from its end.

ghost use Rattle.std.specs.Prelude.{◌≡◌, ◌+◌, ◌-◌, ◌≤◌, ◌<◌, ◌^◌, IfOk};
ghost use Rattle.journal_store.specs.Seen.{Seen, Within};

use crate::input::fill_at;
use journal::Step;
use std::io;
use std::io::{Read, Seek};

// Where the window of N bytes starts that ends at `end`.
fn window_start<const N: usize>(end: usize) -> usize
    ensures { result ≡ end - N }
{
    end.saturating_sub(N)
}

// Looks through the n bytes from `base` on.
fn look<const N: usize>(file: &mut (impl Read + Seek), base: usize, n: usize) -> io::Result<Step>
    requires { (n ≤ N) × (N < 2 ^ 63) × (base + n < 2 ^ 63) }
    ensures { IfOk result (Seen base n) }
{
    let mut window = [0u8; N];
    let k = fill_at(file, base, &mut window, n)?;
    Ok(journal::step_back(&window[..k], base))
}

// Looks through the first `size` bytes of the file, from their end, N of them together: where the last table's text
// starts and how many bytes it has.
pub(crate) fn search<const N: usize>(
    file: &mut (impl Read + Seek),
    size: usize,
) -> io::Result<Option<(usize, usize)>>
    requires { (size < 2 ^ 63) × (5 < N) × (N < 2 ^ 63) }
    ensures { IfOk result Within }
{
    let mut end = size;
    loop {
        let base = window_start::<N>(end);
        match look::<N>(&mut *file, base, end - base)? {
            Step::Body(start, n) => return Ok(Some((start, n))),
            Step::Before(next) => {
                end = next;
            }
            Step::Empty => return Ok(None),
        }
    }
}
