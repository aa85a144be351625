// Anchor and the set operations: the two labels of an instant and the last label of b decide its label.

#![tactic(auto)]

ghost use Rattle.std.specs.Prelude.{◌≡◌, cond, ◌+◌, ltb, pos, ◌+ℤ◌, ◌<ℤ◌, get_or};
ghost use Rattle.calendar.specs.Limits.{pool_limit};
ghost use Rattle.calendar.specs.Compute.{result as result_of};
ghost use Rattle.calendar.specs.Questions.{given};
ghost use Rattle.cursors.specs.Found.{found};
ghost use Rattle.one_cell.specs.Serves.{Serves};
ghost use Rattle.kinds.specs.declared.Kind.TheVariants.{ByLabels};
ghost use Rattle.kinds.specs.Operations.{operation_of};
ghost use Rattle.kinds.specs.Stands.{row_in};
ghost use Rattle.calendar.specs.declared.Refusal.TheVariants.{NothingLabelled, LabelOutsideLimits};
ghost use Rattle.fill_shared.specs.Fillable.{Fillable};
ghost use Rattle.fill_shared.specs.Placed.{Placed, over, Fills};
ghost use Rattle.fill_pointwise.specs.Decided.{kind_of, set_label, decided_label, later_label};
ghost use Rattle.fill_pointwise.specs.Scanning.{Scans};

use calendar::Refusal;
use cursors::Cursor;
use fill_shared::{any, end_of, last_before, outcome, store};
use kinds::{Operand, SetOperation};
use pieces::{Place, lesser, place_from, place_on};
use piecewise::fill_piece;

mod beside;
mod piecewise;

// The kinds whose labels are decided instant by instant.
#[derive(Clone, Copy)]
pub enum Pointwise {
    Anchor,
    ByLabels(SetOperation),
}

// What the loop carries: the cursors of the instant, and the last label of b before it.
#[derive(Clone, Copy)]
pub struct Scanning {
    pub a: Cursor,
    pub b: Cursor,
    pub last: i64,
}

// The label of an instant, and the state before the next one.
#[derive(Clone, Copy)]
pub struct Stepped {
    pub label: Option<i64>,
    pub next: Scanning,
}

// The label that a set operation gives an instant with the labels x in a and y in b.
fn set_label(by: SetOperation, x: Option<i64>, y: Option<i64>) -> Option<i64>
    ensures { found result ≡ set_label by (found x) (found y) }
{
    match by {
        SetOperation::Union => match x {
            Some(_) => x,
            None => y,
        },
        SetOperation::Intersection => match y {
            Some(_) => x,
            None => None,
        },
        SetOperation::Difference => match y {
            Some(_) => None,
            None => x,
        },
    }
}

// The label of an instant with the labels x in a and y in b, where the last label of b is `last`.
fn decided(by: Pointwise, x: Option<i64>, y: Option<i64>, last: i64) -> Option<i64>
    ensures { found result ≡ decided_label by (found x) (found y) last }
{
    match by {
        Pointwise::Anchor => match x {
            Some(_) => Some(last),
            None => None,
        },
        Pointwise::ByLabels(set) => set_label(set, x, y),
    }
}

// The last label of b, given that before the instant and the instant's own.
fn later(last: i64, y: Option<i64>) -> i64
    ensures { result ≡ later_label last (found y) }
{
    match y {
        Some(k) => k,
        None => last,
    }
}

// The label of the instant t.
pub fn step(
    by: Pointwise,
    s: Scanning,
    t: i64,
    a_cells: &[i32],
    a_period: i64,
    a_distance: i64,
    b_cells: &[i32],
    b_period: i64,
    b_distance: i64,
) -> Stepped
    requires fillable { Fillable (kind_of by) (given a_period a_distance a_cells.now) (given b_period b_distance b_cells.now) }
    requires scans { Scans (given a_period a_distance a_cells.now) (given b_period b_distance b_cells.now) t s }
    requires t_bound { t <ℤ pos pool_limit }
    ensures label { found result.label ≡ result_of (operation_of (kind_of by) (given a_period a_distance a_cells.now) (given b_period b_distance b_cells.now)) t }
    ensures next { Scans (given a_period a_distance a_cells.now) (given b_period b_distance b_cells.now) (t +ℤ pos 1) result.next }
{
    let label = cursors::cursor_label(a_cells, a_period, a_distance, s.a);
    let other = cursors::cursor_label(b_cells, b_period, b_distance, s.b);
    let mut next = s;
    next.a = cursors::cursor_next(a_cells, a_period, a_distance, s.a);
    next.b = cursors::cursor_next(b_cells, b_period, b_distance, s.b);
    next.last = later(s.last, other);
    Stepped {
        label: decided(by, label, other, next.last),
        next,
    }
}

// Fills the working row of an anchoring or of a set operation, instant by instant.
fn fill_stepped(
    by: Pointwise,
    span: i64,
    at: usize,
    period: usize,
    pool: &mut [i32],
    a: Operand,
    b: Operand,
) -> Result<(), Refusal>
    requires fillable { Fillable (kind_of by) (row_in pool.old a) (row_in pool.old b) }
    requires placed { Placed (kind_of by) a b span at period pool.old }
    ensures { Fills (over (kind_of by) pool.old a b) at period pool.old pool.new result }
{
    let a_start = a.start;
    let a_end = end_of(a, at);
    let a_period = a.period;
    let a_distance = a.distance;
    let b_start = b.start;
    let b_end = end_of(b, at);
    let b_period = b.period;
    let b_distance = b.distance;
    let c = cursors::cursor_at(&pool[a_start..a_end], a_period, a_distance, 0);
    let d = cursors::cursor_at(&pool[b_start..b_end], b_period, b_distance, 0);
    let last = last_before(&pool[b_start..b_end], b_period, b_distance);
    let mut s = Scanning { a: c, b: d, last };
    let mut labelled = false;
    for t in 0..period {
        let stepped = step(
            by,
            s,
            t as i64,
            &pool[a_start..a_end],
            a_period,
            a_distance,
            &pool[b_start..b_end],
            b_period,
            b_distance,
        );
        let label = stepped.label;
        if !store(label, at + t, &mut *pool) {
            return Err(Refusal::LabelOutsideLimits);
        }
        labelled = any(labelled, label);
        s = stepped.next;
    }
    outcome(labelled)
}

// What a working row is, by how many of its instants have a label and how many of the labels are outside the limits.
fn counted_outcome(labelled: u32, outside: u32) -> Result<(), Refusal>
    ensures { result ≡ cond (ltb 0 outside) (Err LabelOutsideLimits) (cond (ltb 0 labelled) (Ok tt) (Err NothingLabelled)) }
{
    if outside > 0 {
        Err(Refusal::LabelOutsideLimits)
    } else {
        outcome(labelled > 0)
    }
}

// Fills the working row of a set operation, piece by piece.
fn fill_pieces(
    set: SetOperation,
    span: i64,
    at: usize,
    period: usize,
    pool: &mut [i32],
    a: Operand,
    b: Operand,
) -> Result<(), Refusal>
    requires fillable { Fillable (ByLabels set) (row_in pool.old a) (row_in pool.old b) }
    requires placed { Placed (ByLabels set) a b span at period pool.old }
    ensures { Fills (over (ByLabels set) pool.old a b) at period pool.old pool.new result }
{
    let a_start = a.start;
    let a_period = a.period as usize;
    let a_distance = a.distance;
    let b_start = b.start;
    let b_period = b.period as usize;
    let b_distance = b.distance;
    let mut x = Place { cell: 0, rise: 0 };
    let mut y = Place { cell: 0, rise: 0 };
    let mut labelled: u32 = 0;
    let mut outside: u32 = 0;
    let mut t = 0;
    while t < period {
        let count = lesser(period - t, lesser(a_period - x.cell, b_period - y.cell));
        let from_a = place_from(a_start, x);
        let from_b = place_from(b_start, y);
        let counts = fill_piece(set, from_a, from_b, at + t, count, &mut *pool);
        labelled += counts.labelled;
        outside += counts.outside;
        x = place_on(x, count, a_period, a_distance);
        y = place_on(y, count, b_period, b_distance);
        t += count;
    }
    counted_outcome(labelled, outside)
}

// Fills the working row of a set operation where a has one cell: b tells which labels are kept.
fn fill_first(
    set: SetOperation,
    span: i64,
    at: usize,
    period: usize,
    pool: &mut [i32],
    a: Operand,
    b: Operand,
) -> Result<(), Refusal>
    requires fillable { Fillable (ByLabels set) (row_in pool.old a) (row_in pool.old b) }
    requires placed { Placed (ByLabels set) a b span at period pool.old }
    requires serves { Serves a.period (get_or pool.old a.start (pos 0)) period }
    ensures { Fills (over (ByLabels set) pool.old a b) at period pool.old pool.new result }
{
    let start = a.start;
    let from = b.start;
    let first = pool[start];
    let bare = beside::keeps_first(set);
    let shared = beside::keeps_shared(set);
    let count = beside::fill_beside(first, bare, shared, from, at, period, &mut *pool);
    outcome(count > 0)
}

// The same where b has one cell: a tells.
fn fill_second(
    set: SetOperation,
    span: i64,
    at: usize,
    period: usize,
    pool: &mut [i32],
    a: Operand,
    b: Operand,
) -> Result<(), Refusal>
    requires fillable { Fillable (ByLabels set) (row_in pool.old a) (row_in pool.old b) }
    requires placed { Placed (ByLabels set) a b span at period pool.old }
    requires serves { Serves b.period (get_or pool.old b.start (pos 0)) period }
    ensures { Fills (over (ByLabels set) pool.old a b) at period pool.old pool.new result }
{
    let start = b.start;
    let from = a.start;
    let first = pool[start];
    let bare = beside::keeps_second(set);
    let shared = beside::keeps_shared(set);
    let count = beside::fill_beside(first, bare, shared, from, at, period, &mut *pool);
    outcome(count > 0)
}

// Fills the working row of a set operation.
fn fill_set(
    set: SetOperation,
    span: i64,
    at: usize,
    period: usize,
    pool: &mut [i32],
    a: Operand,
    b: Operand,
) -> Result<(), Refusal>
    requires fillable { Fillable (ByLabels set) (row_in pool.old a) (row_in pool.old b) }
    requires placed { Placed (ByLabels set) a b span at period pool.old }
    ensures { Fills (over (ByLabels set) pool.old a b) at period pool.old pool.new result }
{
    let a_start = a.start;
    let b_start = b.start;
    if one_cell::serves(a.period, pool[a_start], period) {
        return fill_first(set, span, at, period, pool, a, b);
    }
    if one_cell::serves(b.period, pool[b_start], period) {
        return fill_second(set, span, at, period, pool, a, b);
    }
    fill_pieces(set, span, at, period, pool, a, b)
}

// Fills the working row of an anchoring or of a set operation.
pub fn fill_pointwise(
    by: Pointwise,
    span: i64,
    at: usize,
    period: usize,
    pool: &mut [i32],
    a: Operand,
    b: Operand,
) -> Result<(), Refusal>
    requires fillable { Fillable (kind_of by) (row_in pool.old a) (row_in pool.old b) }
    requires placed { Placed (kind_of by) a b span at period pool.old }
    ensures { Fills (over (kind_of by) pool.old a b) at period pool.old pool.new result }
{
    match by {
        Pointwise::Anchor => fill_stepped(Pointwise::Anchor, span, at, period, pool, a, b),
        Pointwise::ByLabels(set) => fill_set(set, span, at, period, pool, a, b),
    }
}
