// The cells of a map and the bits of a word: whether a cell is set, and the set bit with so many below it.

ghost use Rattle.std.specs.Prelude.{◌≡◌, ◌<◌, eqb};
ghost use Rattle.words.specs.Bits.{bit, cell, tally};
ghost use Rattle.open_steps.specs.Ranked.{Nth};

// Where a search by whole words has come to, and how many set cells are left to pass.
#[derive(Clone, Copy)]
pub struct Passed {
    pub word: usize,
    pub left: usize,
}

// The cell c is set.
pub fn is_set(words: &[u64], c: usize) -> bool
    ensures { result ≡ eqb (cell words.now c) 1 }
{
    (bitmaps::word_at(words, c / 64) >> (c % 64)) % 2 == 1
}

// The place of the set bit with k set bits below it: the 64 places are halved six times.
pub fn place_of(w: u64, k: usize) -> usize
    requires { k < tally (bit w) 64 }
    ensures { (result < 64) × Nth (bit w) k result }
{
    let mut start = 0;
    let mut size = 64;
    while 1 < size {
        let half = size / 2;
        if words::ones_below(w, start + half) <= k {
            start += half;
            size -= half;
        } else {
            size = half;
        }
    }
    start
}
