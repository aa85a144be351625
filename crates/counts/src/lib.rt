// How many granules and how many labelled instants a turn of a row has.

#![tactic(auto)]

ghost use Rattle.std.specs.Prelude.{◌≡◌, true, pos, ◌+◌, ◌-◌, ◌<◌, ◌≤◌, length, get_or, drop};
ghost use Rattle.calendar.specs.Meaning.{empty};
ghost use Rattle.calendar.specs.Granules as G;
ghost use Rattle.calendar.specs.Sound as S;
ghost use Rattle.calendar.specs.Questions.{given};
ghost use Rattle.cursors.specs.Found.{Sound};
ghost use Rattle.cursors.specs.Search.{leading};
ghost use Rattle.row_check.specs.Blocks.{Block};
ghost use Rattle.counts.specs.Labels.{differing, differing_behind, counted, counted_on};
ghost use Rattle.counts.specs.Abreast.{Abreast, begun};

use calendar::Calendar;
use row_check::scan;

// The labels of a row: how many different ones there are, and the last.
#[derive(Clone, Copy)]
struct Labels {
    count: i64,
    last: i64,
}

// Four parts of a row: how many labels are counted, and the greatest of each part so far.
#[derive(Clone, Copy)]
struct Tops {
    count: usize,
    a: i32,
    b: i32,
    c: i32,
    d: i32,
}

// The fewest cells of a part that are worth it.
const PART: usize = 16;

// The labels from the cell i on, with `count` that were counted before it, the greatest of them `last`. As labels never
// fall, each new one is greater than all before; an empty cell is below every label.
fn labels_on(cells: &[i32], i: usize, last: i32, count: usize) -> Labels
    requires { (i ≤ length cells.now) × (count ≤ i + 1) }
    ensures { result ≡ counted_on count last (drop i cells.now) }
{
    let mut top = last;
    let mut sum = count;
    for &z in &cells[i..] {
        if z > top {
            top = z;
            sum += 1;
        }
    }
    Labels {
        count: sum as i64,
        last: top as i64,
    }
}

// The last label from the cell `low` on and before the cell i, or `other` if there is none: where labels never fall, and
// `other` is the greatest before `low`, the greatest before i.
fn label_before(cells: &[i32], low: usize, i: usize, other: i32) -> i32
    requires { i ≤ length cells.now }
{
    for k in (low..i).rev() {
        if cells[k] != Calendar::EMPTY {
            return cells[k];
        }
    }
    other
}

// The four parts of q cells from `start` on, side by side: no part waits for another. The first label stands at `start`;
// the other parts begin with b, c and d.
fn abreast(cells: &[i32], start: usize, q: usize, b: i32, c: i32, d: i32) -> Tops
    requires { (start < length cells.now) × (start + q + q + q + q ≤ length cells.now) }
    ensures { Abreast cells.now start (start + q) q (begun cells.now start b c d) result }
{
    let mut count: usize = 1;
    let mut top_a = cells[start];
    let mut top_b = b;
    let mut top_c = c;
    let mut top_d = d;
    for i in start..start + q {
        let z = cells[i];
        if z > top_a {
            top_a = z;
            count += 1;
        }
        let y = cells[i + q];
        if y > top_b {
            top_b = y;
            count += 1;
        }
        let x = cells[i + q + q];
        if x > top_c {
            top_c = x;
            count += 1;
        }
        let w = cells[i + q + q + q];
        if w > top_d {
            top_d = w;
            count += 1;
        }
    }
    Tops {
        count,
        a: top_a,
        b: top_b,
        c: top_c,
        d: top_d,
    }
}

// The first three parts end with b, c and d.
fn joined(tops: Tops, b: i32, c: i32, d: i32) -> bool
    ensures { result ≡ true → (tops.a ≡ b) × (tops.b ≡ c) × (tops.c ≡ d) }
{
    if tops.a != b {
        return false;
    }
    if tops.b != c {
        return false;
    }
    tops.c == d
}

// The labels from the first on, which stands at `start`. A long row is passed in four parts, each from the label on that
// stands before it: in a row whose labels never fall this is the last of the part before.
fn labels_from(cells: &[i32], start: usize) -> Labels
    requires { start < length cells.now }
    ensures { result ≡ counted (get_or cells.now start empty) (drop start cells.now) }
{
    let q = (cells.len() - start) / 4;
    if q < PART {
        return labels_on(cells, start, cells[start], 1);
    }
    let b = label_before(cells, start, start + q, cells[start]);
    let c = label_before(cells, start + q, start + q + q, b);
    let d = label_before(cells, start + q + q, start + q + q + q, c);
    let tops = abreast(cells, start, q, b, c, d);
    if joined(tops, b, c, d) {
        let last = tops.d;
        let count = tops.count;
        return labels_on(cells, start + q + q + q + q, last, count);
    }
    labels_on(cells, start, cells[start], 1)
}

// How many cells from `start` up to `end` are another than the one before.
fn changes_in(cells: &[i32], start: usize, end: usize) -> u32
    requires { Block start end (length cells.now) × (1 ≤ start) }
    ensures few { result ≤ end - start }
    ensures counted { differing_behind cells.now start ≡ result + differing_behind cells.now end }
{
    let mut count: u32 = 0;
    for i in start..end {
        if cells[i] != cells[i - 1] {
            count += 1;
        }
    }
    count
}

// How many cells are another than the one before.
fn changes(cells: &[i32]) -> usize
    requires { 0 < length cells.now }
    ensures { result ≡ differing (get_or cells.now 0 empty) (drop 1 cells.now) }
{
    let mut count: usize = 0;
    let mut i = 1;
    while i < cells.len() {
        let end = scan::block_end(i, cells.len());
        count += changes_in(cells, i, end) as usize;
        i = end;
    }
    count
}

// The labels from the first on, which stands at `start`. Where every instant has one, each cell that is another than the one before has a new
// label; these are counted several at a time.
fn labels_of(cells: &[i32], period: i64, distance: i64, start: usize) -> Labels
    requires sound { Sound period distance cells.now }
    requires start_value { start ≡ leading cells.now }
    ensures { result ≡ counted (get_or cells.now start empty) (drop start cells.now) }
{
    if labelled_instants(cells) != period {
        return labels_from(cells, start);
    }
    let count = changes(cells);
    let last = scan::wide(cells, cells.len() - 1);
    Labels {
        count: count as i64 + 1,
        last,
    }
}

// How many granules a turn has: the labels of the row, less one where the last is the first of the next turn.
pub fn granules(cells: &[i32], period: i64, distance: i64) -> i64
    requires { Sound period distance cells.now }
    ensures { result ≡ pos (G.granules (given period distance cells.now)) }
{
    let start = scan::leading(cells);
    let first = scan::wide(cells, start);
    let labels = labels_of(cells, period, distance, start);
    if labels.last == first + distance {
        labels.count - 1
    } else {
        labels.count
    }
}

// How many cells from `start` up to `end` have a label.
fn labelled_in(cells: &[i32], start: usize, end: usize) -> u32
    requires { Block start end (length cells.now) }
    ensures few { result ≤ end - start }
    ensures counted { length (S.labels_of (drop start cells.now)) ≡ result + length (S.labels_of (drop end cells.now)) }
{
    let mut count: u32 = 0;
    for &z in &cells[start..end] {
        if z != Calendar::EMPTY {
            count += 1;
        }
    }
    count
}

// How many instants of a turn have a label.
pub fn labelled_instants(cells: &[i32]) -> i64
    ensures { result ≡ pos (length (S.labels_of cells.now)) }
{
    let mut count: usize = 0;
    let mut i = 0;
    while i < cells.len() {
        let end = scan::block_end(i, cells.len());
        count += labelled_in(cells, i, end) as usize;
        i = end;
    }
    count as i64
}
