// Check 9, how two operands lie to each other, in one pass over their span.

#![tactic(auto)]

ghost use Rattle.std.specs.Prelude.{◌≡◌, true, ◌*ℤ◌};
ghost use Rattle.calendar.specs.Operation.Alignment.{partition};
ghost use Rattle.calendar.specs.Lists.{equal};
ghost use Rattle.calendar.specs.Checks.{aligned_as};
ghost use Rattle.calendar.specs.Questions.{given};
ghost use Rattle.cursors.specs.Found.{found, Sound};
ghost use Rattle.alignment.specs.Codes.{code_of, coded_label};
ghost use Rattle.alignment.specs.Fits.{alignment_of};
ghost use Rattle.alignment.specs.Pass.{Spanned, is_free, asks_rise, RiseAlike, Starts, Limited};

use row_check::scan;

mod changing;
mod comparing;
mod single;

// How a and b may have to lie to each other: in any way, as alter asks, as anchor asks, as the set operations ask.
#[derive(Clone, Copy)]
pub enum Alignment {
    Free,
    Partition,
    Subcalendar,
    Compatible,
}

// The number that stands for no label where the pass keeps labels as numbers: no label is as low.
const NO_LABEL: i64 = -9223372036854775807;

// A label, or none, as a number.
fn coded(x: Option<i64>) -> i64
    ensures { result ≡ code_of (found x) }
{
    match x {
        Some(j) => j,
        None => NO_LABEL,
    }
}

// The label, or none, of such a number.
fn decoded(x: i64) -> Option<i64>
    ensures { found result ≡ coded_label x }
{
    if x == NO_LABEL { None } else { Some(x) }
}

// An instant of the first turn that has a label.
fn labelled_instant(cells: &[i32], period: i64, distance: i64) -> i64
    requires { Sound period distance cells.now }
    ensures { Starts (given period distance cells.now) result }
{
    scan::leading(cells) as i64
}

// Whether a and b are aligned: each labelled instant of a span fits the one before, from a labelled one, which fits itself, up to the same
// a span later.
fn pass(
    k: Alignment,
    a_cells: &[i32],
    a_period: i64,
    a_distance: i64,
    b_cells: &[i32],
    b_period: i64,
    b_distance: i64,
    span: i64,
) -> bool
    requires sound { Sound a_period a_distance a_cells.now }
    requires sound_2 { Sound b_period b_distance b_cells.now }
    requires spanned { Spanned (given a_period a_distance a_cells.now) (given b_period b_distance b_cells.now) span }
    requires rise_alike { RiseAlike (alignment_of k) (given a_period a_distance a_cells.now) (given b_period b_distance b_cells.now) }
    ensures { result ≡ aligned_as (alignment_of k) (given a_period a_distance a_cells.now) (given b_period b_distance b_cells.now) }
{
    let mut t = labelled_instant(a_cells, a_period, a_distance);
    let end = t + span;
    let mut a = cursors::cursor_at(a_cells, a_period, a_distance, t);
    let mut b = cursors::cursor_at(b_cells, b_period, b_distance, t);
    let mut o = coded(cursors::cursor_label(a_cells, a_period, a_distance, a));
    let mut p = coded(cursors::cursor_label(b_cells, b_period, b_distance, b));
    loop {
        let x = cursors::cursor_label(a_cells, a_period, a_distance, a);
        let y = cursors::cursor_label(b_cells, b_period, b_distance, b);
        if comparing::either(x, y) {
            if !comparing::fits(k, decoded(o), decoded(p), x, y) {
                return false;
            }
            o = coded(x);
            p = coded(y);
        }
        if t == end {
            return true;
        }
        t += 1;
        a = cursors::cursor_next(a_cells, a_period, a_distance, a);
        b = cursors::cursor_next(b_cells, b_period, b_distance, b);
    }
}

// Whether a and b label the same instants and each granule of a lies in one of b, as alter asks. Where every instant has a label, a look
// at b's changes tells.
pub fn partitions(
    a_cells: &[i32],
    a_period: i64,
    a_distance: i64,
    b_cells: &[i32],
    b_period: i64,
    b_distance: i64,
    span: i64,
) -> bool
    requires sound { Sound a_period a_distance a_cells.now }
    requires sound_2 { Sound b_period b_distance b_cells.now }
    requires spanned { Spanned (given a_period a_distance a_cells.now) (given b_period b_distance b_cells.now) span }
    ensures { result ≡ aligned_as partition (given a_period a_distance a_cells.now) (given b_period b_distance b_cells.now) }
{
    if changing::is_whole(a_cells, a_period, a_distance) {
        if changing::is_whole(b_cells, b_period, b_distance) {
            return changing::changes_with(
                a_cells, a_period, a_distance, b_cells, b_period, b_distance, span,
            );
        }
    }
    pass(
        Alignment::Partition,
        a_cells,
        a_period,
        a_distance,
        b_cells,
        b_period,
        b_distance,
        span,
    )
}

// Whether the labels of a and b rise alike: over the span, which is whole turns of both, exactly if they do over a_period · b_period.
fn rise_alike(a_period: i64, a_distance: i64, b_period: i64, b_distance: i64) -> bool
    requires limited { Limited a_period a_distance }
    requires limited_2 { Limited b_period b_distance }
    ensures { result ≡ equal (a_distance *ℤ b_period) (b_distance *ℤ a_period) }
{
    let a = a_distance * b_period;
    let b = b_distance * a_period;
    a == b
}

// Whether an alignment asks nothing.
fn is_free(k: Alignment) -> bool
    ensures { result ≡ is_free (alignment_of k) }
{
    match k {
        Alignment::Free => true,
        Alignment::Partition => false,
        Alignment::Subcalendar => false,
        Alignment::Compatible => false,
    }
}

// Whether an alignment asks that the labels of a and b rise alike.
fn asks_rise(k: Alignment) -> bool
    ensures { result ≡ asks_rise (alignment_of k) }
{
    match k {
        Alignment::Free => false,
        Alignment::Partition => false,
        Alignment::Subcalendar => true,
        Alignment::Compatible => true,
    }
}

// Whether a and b are aligned, as an alignment asks that asks this: that is looked at first. Where one of them has one
// cell it is enough that the other has its labels, or none, and the set operations are content with two such others.
fn aligned_alike(
    k: Alignment,
    a_cells: &[i32],
    a_period: i64,
    a_distance: i64,
    b_cells: &[i32],
    b_period: i64,
    b_distance: i64,
    span: i64,
) -> bool
    requires sound { Sound a_period a_distance a_cells.now }
    requires sound_2 { Sound b_period b_distance b_cells.now }
    requires spanned { Spanned (given a_period a_distance a_cells.now) (given b_period b_distance b_cells.now) span }
    requires k_value { asks_rise (alignment_of k) ≡ true }
    ensures { result ≡ aligned_as (alignment_of k) (given a_period a_distance a_cells.now) (given b_period b_distance b_cells.now) }
{
    if !rise_alike(a_period, a_distance, b_period, b_distance) {
        return false;
    }
    if a_period == 1 {
        return one_cell::is_along(a_cells, a_period, a_distance, b_cells, b_period, b_distance);
    }
    if b_period == 1 {
        if comparing::is_compatible(k) {
            return one_cell::is_along(b_cells, b_period, b_distance, a_cells, a_period, a_distance);
        }
    }
    if comparing::is_compatible(k) {
        if single::are_own(a_cells, a_period, a_distance, b_cells, b_period, b_distance) {
            return true;
        }
    }
    pass(
        k, a_cells, a_period, a_distance, b_cells, b_period, b_distance, span,
    )
}

// Check 9: whether a and b lie to each other as the alignment asks.
pub fn aligned(
    k: Alignment,
    span: i64,
    a_cells: &[i32],
    a_period: i64,
    a_distance: i64,
    b_cells: &[i32],
    b_period: i64,
    b_distance: i64,
) -> bool
    requires sound { Sound a_period a_distance a_cells.now }
    requires sound_2 { Sound b_period b_distance b_cells.now }
    requires spanned { Spanned (given a_period a_distance a_cells.now) (given b_period b_distance b_cells.now) span }
    ensures { result ≡ aligned_as (alignment_of k) (given a_period a_distance a_cells.now) (given b_period b_distance b_cells.now) }
{
    if is_free(k) {
        return true;
    }
    if asks_rise(k) {
        return aligned_alike(
            k, a_cells, a_period, a_distance, b_cells, b_period, b_distance, span,
        );
    }
    partitions(
        a_cells, a_period, a_distance, b_cells, b_period, b_distance, span,
    )
}
