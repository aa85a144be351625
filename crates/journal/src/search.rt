// The search for the last trailer, in a window of the file.

ghost use Rattle.std.specs.Prelude.{◌≡◌, length};
ghost use Rattle.journal.specs.Window.{body_length, last_in};

// The length of the body before the trailer at p of a window that starts `base` bytes behind the file's start, or none
// where none points back from there.
fn body_length(window: &[u8], base: usize, p: usize) -> Option<usize>
    ensures { result ≡ body_length window.now base p }
{
    let [255, a, b, c, d, 254, ..] = window.get(p..)? else {
        return None;
    };
    if 128 <= *a || 128 <= *b || 128 <= *c || 128 <= *d {
        return None;
    }
    let n = usize::from(*a)
        + 128 * usize::from(*b)
        + 16384 * usize::from(*c)
        + 2097152 * usize::from(*d);
    if n == 0 || 4096 < n || base < n.saturating_sub(p) {
        return None;
    }
    Some(n)
}

// The last trailer of the window that points back: where it stands in the window, and how many bytes its body has.
pub fn last_trailer(window: &[u8], base: usize) -> Option<(usize, usize)>
    ensures { result ≡ last_in window.now base (length window.now) }
{
    for p in (0..window.len()).rev() {
        if let Some(n) = body_length(window, base, p) {
            return Some((p, n));
        }
    }
    None
}
