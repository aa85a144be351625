// The set cell with so many set cells between it and a cell above: by blocks of words, then by words.

ghost use Rattle.std.specs.Prelude.{◌≡◌, ◌*◌, ◌≤◌, ◌<◌, length};
ghost use Rattle.words.specs.Bits.{cell, tally};
ghost use Rattle.bitmaps.specs.Cells.{Few, Within};
ghost use Rattle.open_steps.specs.Ranked.{Below, NthBelow, PassedDown};

use super::cells;
use super::cells::Passed;

// Blocks of words before the word i are passed by their counts, as long as at most k set cells are passed.
fn blocks(words: &[u64], i: usize, k: usize) -> Passed
    requires { Few words.now × (i ≤ length words.now) }
    ensures { PassedDown words.now i k result }
{
    let mut word = i;
    let mut left = k;
    while bitmaps::BLOCK <= word {
        let n = bitmaps::ones_in(words, word - bitmaps::BLOCK, word);
        if left < n {
            return Passed { word, left };
        }
        left -= n;
        word -= bitmaps::BLOCK;
    }
    Passed { word, left }
}

// The set cell with k set cells between it and the word i, word by word.
fn by_words(words: &[u64], i: usize, k: usize) -> Result<usize, usize>
    requires { Few words.now × (i ≤ length words.now) }
    ensures { NthBelow words.now (64 * i) k result }
{
    let mut left = k;
    for word in (0..i).rev() {
        let w = words[word];
        let n = words::ones_of(w);
        if left < n {
            return Ok(64 * word + cells::place_of(w, n - 1 - left));
        }
        left -= n;
    }
    Err(left)
}

// The set cell with k set cells between it and the cell c: in the word of c, then by blocks and words.
pub fn nth_below(words: &[u64], c: usize, k: usize) -> Result<usize, usize>
    requires { Within words.now c }
    ensures { NthBelow words.now c k result }
{
    let i = c / 64;
    let w = bitmaps::word_at(words, i);
    let n = words::ones_below(w, c % 64);
    if k < n {
        return Ok(64 * i + cells::place_of(w, n - 1 - k));
    }
    let passed = blocks(words, i, k - n);
    let word = passed.word;
    by_words(words, word, passed.left)
}

// The set cell with k set cells behind it, c being past the last.
pub fn nth_cell(words: &[u64], c: usize, k: usize) -> usize
    requires { Within words.now c × (k < tally (cell words.now) c) }
    ensures { Below (cell words.now) c k result }
{
    let found = nth_below(words, c, k);
    match found {
        Ok(i) => i,
        Err(_) => 0,
    }
}
