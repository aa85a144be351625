// The open map of a row: one bit for each cell, in words of 64.

#![tactic(auto)]

ghost use Rattle.std.specs.Prelude.{◌≡◌, ◌+◌, ◌^◌, ◌≤◌, ◌<◌, length, replicate};
ghost use Rattle.calendar.specs.Questions.{given};
ghost use Rattle.bitmaps.specs.Cells.{words_for};
ghost use Rattle.row_maps.specs.Making.{labelled, packed, word_of, map_of, map_reply, map_after, refusal, made};

use calendar::{Calendar, Refusal};

// 1 where the cell c has a label, and 0 elsewhere.
fn label_bit(cells: &[i32], c: usize) -> u32
    requires { c < length cells.now }
    ensures { result ≡ labelled cells.now c }
{
    if cells[c] == Calendar::EMPTY {
        return 0;
    }
    1
}

// The bits of the 32 cells from c on, without a branch: several cells are tested at once.
fn half_of(cells: &[i32], c: usize) -> u32
    requires { c + 32 ≤ length cells.now }
    ensures { result ≡ packed (λ k. labelled cells.now (c + k)) 32 }
{
    let mut half: u32 = 0;
    for k in 0..32 {
        half += label_bit(cells, c + k) << k;
    }
    half
}

// 1 where the cell c has a label, and 0 elsewhere and past the last cell.
fn bit_at(cells: &[i32], c: usize) -> u32
    ensures { result ≡ labelled cells.now c }
{
    if cells.len() <= c {
        return 0;
    }
    label_bit(cells, c)
}

// The word i of the map, cell by cell.
fn last_word(cells: &[i32], i: usize) -> u64
    requires { i < 2 ^ 32 }
    ensures { result ≡ word_of cells.now i }
{
    let mut word: u64 = 0;
    for k in 0..64 {
        word += (bit_at(cells, 64 * i + k) as u64) << k;
    }
    word
}

// The word i of the map: in two halves where all its cells are there.
fn word_of(cells: &[i32], i: usize) -> u64
    requires { i < 2 ^ 32 }
    ensures { result ≡ word_of cells.now i }
{
    let c = 64 * i;
    if cells.len() < c + 64 {
        return last_word(cells, i);
    }
    let low = half_of(cells, c);
    let high = half_of(cells, c + 32);
    low as u64 + ((high as u64) << 32)
}

// All words are made zero.
fn clear(words: &mut [u64])
    ensures { words.new ≡ replicate (length words.old) 0 }
{
    words.fill(0);
}

// The map is written, word by word.
fn fill(words: &mut [u64], cells: &[i32])
    requires cells_len_bound { length cells.now < 2 ^ 32 }
    requires words_len { length words.old ≡ words_for (length cells.now) }
    ensures { words.new ≡ map_of cells.now }
{
    for (i, word) in words.iter_mut().enumerate() {
        *word = word_of(cells, i);
    }
}

// The open map of a row, in `words`; all of it is zero after a refusal. Refuses 13, also where the number of words
// does not fit the row. Costs two passes over the row.
pub fn make(words: &mut [u64], cells: &[i32], period: i64, distance: i64) -> Result<(), Refusal>
    ensures answered { made result ≡ refusal (map_reply (given period distance cells.now) (length words.old)) }
    ensures written { words.new ≡ map_after (length words.old) (map_reply (given period distance cells.now) (length words.old)) }
{
    if !row_check::sound(cells, period, distance) {
        clear(words);
        return Err(Refusal::RowNotSound);
    }
    if words.len() != (cells.len() + 63) / 64 {
        clear(words);
        return Err(Refusal::RowNotSound);
    }
    fill(words, cells);
    Ok(())
}
