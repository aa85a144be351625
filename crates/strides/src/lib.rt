// Over the instants of a row in strides: to the next instant with another label, and any number of instants on. A look at the cells alone
// finds the next label, and cursors are moved once for the whole stride.

#![tactic(auto)]

ghost use Rattle.std.specs.Prelude.{◌≡◌, ◌+◌, ◌≤◌, ◌^◌, ℤ, pos, ◌+ℤ◌, ◌≤ℤ◌, length, drop};
ghost use Rattle.calendar.specs.Questions.{given};
ghost use Rattle.cursors.specs.Found.{Sound};
ghost use Rattle.cursors.specs.Cursor.{cursor_at, Standing, Shown};
ghost use Rattle.cursors.specs.Search.{run};
ghost use Rattle.strides.specs.Changes.{passable, Changes};

use calendar::Calendar;
use cursors::Cursor;

// The next instant with another label: its cursor, and how many instants on it is.
#[derive(Clone, Copy)]
pub struct Change {
    pub cursor: Cursor,
    pub steps: i64,
}

// The index of the first cell from `start` on that has a label other than z, or the number of cells.
fn other_from(cells: &[i32], start: usize, z: i32) -> usize
    requires { start ≤ length cells.now }
    ensures { result ≡ start + run (passable z) (drop start cells.now) }
{
    for i in start..cells.len() {
        let cell = cells[i];
        if cell != z && cell != Calendar::EMPTY {
            return i;
        }
    }
    cells.len()
}

// The next instant with another label than the cursor's, which has one. If the rest of the turn has none, the next turn has, where labels are
// the distance higher.
pub fn next_change(cells: &[i32], period: i64, distance: i64, c: Cursor) -> Change
    requires sound { Sound period distance cells.now }
    requires shown { Shown (given period distance cells.now) c }
    ensures { (u : ℤ) → c ≡ cursor_at (given period distance cells.now) u → Changes (given period distance cells.now) u result }
{
    let index = c.index as usize;
    let own = cells[index];
    let next = other_from(cells, index + 1, own);
    if next < cells.len() {
        return Change {
            cursor: Cursor {
                index: next as i64,
                rise: c.rise,
            },
            steps: (next - index) as i64,
        };
    }
    let first = other_from(cells, 0, own - distance as i32);
    Change {
        cursor: Cursor {
            index: first as i64,
            rise: c.rise + distance,
        },
        steps: (next - index + first) as i64,
    }
}

// The cursor so many instants on. A stride into the next turn, the commonest of those beyond its own, takes no division.
pub fn cursor_on(cells: &[i32], period: i64, distance: i64, c: Cursor, steps: i64) -> Cursor
    requires sound { Sound period distance cells.now }
    requires standing { Standing (given period distance cells.now) c }
    requires pos_bound { (pos 0 ≤ℤ steps) × (steps ≤ℤ pos (2 ^ 32)) }
    ensures { (u : ℤ) → c ≡ cursor_at (given period distance cells.now) u → result ≡ cursor_at (given period distance cells.now) (u +ℤ steps) }
{
    let index = c.index + steps;
    if index < period {
        return Cursor {
            index,
            rise: c.rise,
        };
    }
    let over = index - period;
    if over < period {
        return Cursor {
            index: over,
            rise: c.rise + distance,
        };
    }
    let turns = integers::floor_div(index, period);
    Cursor {
        index: index - turns * period,
        rise: c.rise + turns * distance,
    }
}
