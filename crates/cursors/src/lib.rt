// A row in a slice with its period and distance: cursors, which step from instant to instant, and the labels of instants.

#![tactic(auto)]

ghost use Rattle.std.specs.Prelude.{◌≡◌, ℤ, pos, ◌+ℤ◌, ◌-ℤ◌, get_or};
ghost use Rattle.std.proofs.Math.Option.{some};
ghost use Rattle.integers.specs.Parts.{up};
ghost use Rattle.calendar.specs.Meaning.{meant, empty};
ghost use Rattle.calendar.specs.Questions.{given};
ghost use Rattle.cursors.specs.Found.{found, Sound, Near};
ghost use Rattle.cursors.specs.Cursor.{Index, cursor_at, Standing, Shown};
ghost use Rattle.cursors.specs.Direction.{stepped};

use calendar::Calendar;

// An instant of a row, by its cell and by how far the labels of its turn are above those of the first turn. With it a step to the
// next instant or back takes no division.
#[derive(Clone, Copy)]
pub struct Cursor {
    pub index: i64,
    pub rise: i64,
}

// The cursor of the instant t.
pub fn cursor_at(cells: &[i32], period: i64, distance: i64, t: i64) -> Cursor
    requires sound { Sound period distance cells.now }
    requires near { Near t }
    ensures { result ≡ cursor_at (given period distance cells.now) t }
{
    let turn = integers::floor_div(t, period);
    Cursor {
        index: t - turn * period,
        rise: turn * distance,
    }
}

// The cursor of the next instant.
pub fn cursor_next(cells: &[i32], period: i64, distance: i64, c: Cursor) -> Cursor
    requires sound { Sound period distance cells.now }
    requires standing { Standing (given period distance cells.now) c }
    ensures { (u : ℤ) → c ≡ cursor_at (given period distance cells.now) u → result ≡ cursor_at (given period distance cells.now) (u +ℤ pos 1) }
{
    let index = c.index + 1;
    if index < period {
        Cursor {
            index,
            rise: c.rise,
        }
    } else {
        Cursor {
            index: 0,
            rise: c.rise + distance,
        }
    }
}

// The cursor of the instant before.
pub fn cursor_back(cells: &[i32], period: i64, distance: i64, c: Cursor) -> Cursor
    requires sound { Sound period distance cells.now }
    requires standing { Standing (given period distance cells.now) c }
    ensures { (u : ℤ) → c ≡ cursor_at (given period distance cells.now) u → result ≡ cursor_at (given period distance cells.now) (u -ℤ pos 1) }
{
    if c.index > 0 {
        Cursor {
            index: c.index - 1,
            rise: c.rise,
        }
    } else {
        Cursor {
            index: period - 1,
            rise: c.rise - distance,
        }
    }
}

// The cursor of the instant before if `back`, else of the next.
pub fn cursor_step(back: bool, cells: &[i32], period: i64, distance: i64, c: Cursor) -> Cursor
    requires sound { Sound period distance cells.now }
    requires standing { Standing (given period distance cells.now) c }
    ensures { (u : ℤ) → c ≡ cursor_at (given period distance cells.now) u → result ≡ cursor_at (given period distance cells.now) (stepped back u) }
{
    if back {
        cursor_back(cells, period, distance, c)
    } else {
        cursor_next(cells, period, distance, c)
    }
}

// The instant before t if `back`, else the next.
pub fn step(back: bool, t: i64) -> i64
    requires { Near t }
    ensures { result ≡ stepped back t }
{
    if back { t - 1 } else { t + 1 }
}

// The cell at the index i.
fn cell_at(cells: &[i32], i: i64) -> i32
    requires { Index i cells.now }
    ensures { result ≡ get_or cells.now (up i) empty }
{
    let k = i as usize;
    cells[k]
}

// The label of the cursor's instant.
pub fn cursor_label(cells: &[i32], period: i64, distance: i64, c: Cursor) -> Option<i64>
    requires sound { Sound period distance cells.now }
    requires standing { Standing (given period distance cells.now) c }
    ensures { (u : ℤ) → c ≡ cursor_at (given period distance cells.now) u → found result ≡ meant (given period distance cells.now) u }
{
    let cell = cell_at(cells, c.index);
    if cell == Calendar::EMPTY {
        None
    } else {
        Some(cell as i64 + c.rise)
    }
}

// The label of the cursor's instant, which has one.
pub fn label_of(cells: &[i32], period: i64, distance: i64, c: Cursor) -> i64
    requires sound { Sound period distance cells.now }
    requires shown { Shown (given period distance cells.now) c }
    ensures { (u : ℤ) → c ≡ cursor_at (given period distance cells.now) u → meant (given period distance cells.now) u ≡ some result }
{
    let label = cursor_label(cells, period, distance, c);
    let Some(j) = label else {
        return 0;
    };
    j
}

// The label of the instant t.
pub fn label_at(cells: &[i32], period: i64, distance: i64, t: i64) -> Option<i64>
    requires sound { Sound period distance cells.now }
    requires near { Near t }
    ensures { found result ≡ meant (given period distance cells.now) t }
{
    let c = cursor_at(cells, period, distance, t);
    cursor_label(cells, period, distance, c)
}
