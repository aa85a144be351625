// Lists of words of 64 bits: how many cells are set, and which, by whole words.

#![tactic(auto)]

ghost use Rattle.std.specs.Prelude.{◌≡◌, ◌+◌, ◌*◌, ◌^◌, ◌≤◌, ◌<◌, length, get_or};
ghost use Rattle.words.specs.Bits.{cell, tally};
ghost use Rattle.words.specs.Places.{Clear};
ghost use Rattle.bitmaps.specs.Zeros.{BitsIn, AnySet};
ghost use Rattle.bitmaps.specs.Cells.{Few, Within, FirstWord, LastWord, FirstFrom, LastBelow, fitting};

// So many words are tested or counted together.
pub const BLOCK: usize = 16;

// The word i, and 0 past the last.
pub fn word_at(words: &[u64], i: usize) -> u64
    ensures { result ≡ get_or words.now i 0 }
{
    if i < words.len() { words[i] } else { 0 }
}

// How many cells of the words from i up to j are set.
pub fn ones_in(words: &[u64], i: usize, j: usize) -> usize
    requires { Few words.now × (i ≤ j) × (j ≤ length words.now) }
    ensures { tally (cell words.now) (64 * i) + result ≡ tally (cell words.now) (64 * j) }
{
    let mut count: usize = 0;
    for m in i..j {
        count += words::ones_of(words[m]);
    }
    count
}

// How many cells from a up to c are set: those of the words from that of a on, and of the word of c below it, but for those below a.
pub fn ones_between(words: &[u64], a: usize, c: usize) -> usize
    requires { Within words.now c × (a ≤ c) }
    ensures { tally (cell words.now) a + result ≡ tally (cell words.now) c }
{
    let i = a / 64;
    let j = c / 64;
    let v = word_at(words, i);
    let w = word_at(words, j);
    ones_in(words, i, j) + words::ones_below(w, c % 64) - words::ones_below(v, a % 64)
}

// How many cells before c are set.
pub fn ones_before(words: &[u64], c: usize) -> usize
    requires { Within words.now c }
    ensures { result ≡ tally (cell words.now) c }
{
    ones_between(words, 0, c)
}

// How many of the n cells before a and from c on are set.
pub fn ones_outside(words: &[u64], a: usize, c: usize, n: usize) -> usize
    requires { Within words.now n × (a ≤ c) × (c ≤ n) }
    ensures { tally (cell words.now) c + result ≡ tally (cell words.now) a + tally (cell words.now) n }
{
    ones_before(words, a) + ones_between(words, c, n)
}

// The bits that any of the words from i up to j has: none, where all are zero.
fn bits_in(words: &[u64], i: usize, j: usize) -> u64
    requires { (i ≤ j) × (j ≤ length words.now) }
    ensures { BitsIn words.now i j result }
{
    let mut bits: u64 = 0;
    for m in i..j {
        bits |= words[m];
    }
    bits
}

// Where the blocks of zero words end that begin at the word i.
fn zeros_from(words: &[u64], i: usize) -> usize
    requires { i ≤ length words.now }
    ensures { (i ≤ result) × (result ≤ length words.now) × Clear (λ m. get_or words.now m 0) i result }
{
    let mut j = i;
    while BLOCK <= words.len() - j {
        if bits_in(words, j, j + BLOCK) != 0 {
            return j;
        }
        j += BLOCK;
    }
    j
}

// The first word from i on that is not zero, or past the last.
fn nonzero_from(words: &[u64], i: usize) -> usize
    requires { i ≤ length words.now }
    ensures { FirstWord words.now i result }
{
    let start = zeros_from(words, i);
    for j in start..words.len() {
        if words[j] != 0 {
            return j;
        }
    }
    words.len()
}

// The least set cell from c on.
pub fn first_from(words: &[u64], c: usize) -> Option<usize>
    requires { Within words.now c }
    ensures { FirstFrom words.now c result }
{
    let i = c / 64;
    let rest = word_at(words, i) >> (c % 64);
    if rest != 0 {
        return Some(c + words::lowest(rest));
    }
    if words.len() <= i {
        return None;
    }
    let j = nonzero_from(words, i + 1);
    if words.len() <= j {
        return None;
    }
    let w = words[j];
    Some(64 * j + words::lowest(w))
}

// Where the blocks of zero words begin that end before the word i.
fn zeros_below(words: &[u64], i: usize) -> usize
    requires { i ≤ length words.now }
    ensures { (result ≤ i) × Clear (λ m. get_or words.now m 0) result i }
{
    let mut end = i;
    while BLOCK <= end {
        if bits_in(words, end - BLOCK, end) != 0 {
            return end;
        }
        end -= BLOCK;
    }
    end
}

// The words from n up to i are zero, and the one before n is not: 0 where there is none.
fn nonzero_below(words: &[u64], i: usize) -> usize
    requires { i ≤ length words.now }
    ensures { LastWord words.now i result }
{
    let end = zeros_below(words, i);
    for m in (0..end).rev() {
        if words[m] != 0 {
            return m + 1;
        }
    }
    0
}

// The greatest set cell below c.
pub fn last_below(words: &[u64], c: usize) -> Option<usize>
    requires { Within words.now c }
    ensures { LastBelow words.now c result }
{
    let i = c / 64;
    let w = word_at(words, i);
    let low = words::low_bits(w, c % 64);
    if low != 0 {
        return Some(64 * i + words::highest(low));
    }
    let n = nonzero_below(words, i);
    if n == 0 {
        return None;
    }
    let v = words[n - 1];
    Some(64 * (n - 1) + words::highest(v))
}

// A word is not zero.
fn any_set(words: &[u64]) -> bool
    ensures { AnySet words.now result }
{
    if word_at(words, 0) != 0 {
        return true;
    }
    let mut j = 0;
    while BLOCK <= words.len() - j {
        if bits_in(words, j, j + BLOCK) != 0 {
            return true;
        }
        j += BLOCK;
    }
    if bits_in(words, j, words.len()) != 0 {
        return true;
    }
    false
}

// n cells fill the words but for the bits behind them, which are 0, and at least one is set.
pub fn fits(words: &[u64], n: usize) -> bool
    requires { n < 2 ^ 32 }
    ensures { result ≡ fitting n words.now }
{
    if words.len() != (n + 63) / 64 {
        return false;
    }
    let behind = word_at(words, n / 64) >> (n % 64);
    if behind != 0 {
        return false;
    }
    any_set(words)
}
