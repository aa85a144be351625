// Opening a journal: the body before its last trailer, in the whole file or by windows from its end.

ghost use Rattle.std.specs.Prelude.{◌≡◌, ◌+◌, ◌<◌, ◌^◌, length};
ghost use Rattle.journal.specs.Answers.{opened_in, step_in};

use crate::search::last_trailer;

// How many bytes a window shares with the next one before it.
const OVERLAP: usize = 5;

// What a window says of the file: where the last table's text starts and how many bytes it has, where the next window
// ends, or that there is none.
#[derive(Clone, Copy)]
pub enum Step {
    Body(usize, usize),
    Before(usize),
    Empty,
}

// Opens the journal in these bytes: where the last table's text starts and how many bytes it has.
pub fn open(book: &[u8]) -> Option<(usize, usize)>
    ensures { result ≡ opened_in book.now }
{
    let (p, n) = last_trailer(book, 0)?;
    Some((p - n, n))
}

// Looks through a window that starts `base` bytes behind the file's start. The first window ends with the file.
pub fn step_back(window: &[u8], base: usize) -> Step
    requires { base + length window.now < 2 ^ 63 }
    ensures { result ≡ step_in window.now base }
{
    let found = last_trailer(window, base);
    match found {
        Some((p, n)) => Step::Body(base + p - n, n),
        None => {
            if base == 0 {
                return Step::Empty;
            }
            Step::Before(base + OVERLAP)
        }
    }
}
