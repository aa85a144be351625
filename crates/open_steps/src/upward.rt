// The set cell with so many set cells from a cell up to it: by blocks of words, then by words.

ghost use Rattle.std.specs.Prelude.{◌≡◌, ◌*◌, ◌^◌, ◌≤◌, ◌<◌, length};
ghost use Rattle.words.specs.Bits.{cell, tally};
ghost use Rattle.bitmaps.specs.Cells.{Few};
ghost use Rattle.open_steps.specs.Ranked.{Nth, NthFrom, PassedUp};

use super::cells;
use super::cells::Passed;

// Blocks of words from the word i on are passed by their counts, as long as at most k set cells are passed.
fn blocks(words: &[u64], i: usize, k: usize) -> Passed
    requires { Few words.now × (i ≤ length words.now) }
    ensures { PassedUp words.now i k result }
{
    let mut word = i;
    let mut left = k;
    while bitmaps::BLOCK <= words.len() - word {
        let n = bitmaps::ones_in(words, word, word + bitmaps::BLOCK);
        if left < n {
            return Passed { word, left };
        }
        left -= n;
        word += bitmaps::BLOCK;
    }
    Passed { word, left }
}

// The set cell with k set cells from the word i up to it, word by word.
fn by_words(words: &[u64], i: usize, k: usize) -> Result<usize, usize>
    requires { Few words.now × (i ≤ length words.now) }
    ensures { NthFrom words.now (64 * i) k result }
{
    let mut left = k;
    for word in i..words.len() {
        let w = words[word];
        let n = words::ones_of(w);
        if left < n {
            return Ok(64 * word + cells::place_of(w, left));
        }
        left -= n;
    }
    Err(left)
}

// The set cell with k set cells from the cell c up to it: in the word of c, then by blocks and words.
pub fn nth_from(words: &[u64], c: usize, k: usize) -> Result<usize, usize>
    requires { Few words.now × (c < 64 * length words.now) × (k ≤ 2 ^ 31) }
    ensures { NthFrom words.now c k result }
{
    let i = c / 64;
    let w = words[i];
    let n = words::ones_of(w);
    let sought = words::ones_below(w, c % 64) + k;
    if sought < n {
        return Ok(64 * i + cells::place_of(w, sought));
    }
    let passed = blocks(words, i + 1, sought - n);
    let word = passed.word;
    by_words(words, word, passed.left)
}

// The set cell with k set cells before it.
pub fn nth_cell(words: &[u64], k: usize) -> usize
    requires { Few words.now × (k ≤ 2 ^ 31) × (k < tally (cell words.now) (64 * length words.now)) }
    ensures { Nth (cell words.now) k result }
{
    let found = nth_from(words, 0, k);
    match found {
        Ok(i) => i,
        Err(_) => 0,
    }
}
