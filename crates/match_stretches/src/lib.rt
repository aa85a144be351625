// A stretch of a claimed row: the instants up to a label of a row that is followed, which all are to have one label, but for those with no label there.

#![tactic(auto)]

ghost use Rattle.std.specs.Prelude.{◌≡◌};
ghost use Rattle.std.specs.Int.Signed.{le_z};
ghost use Rattle.calendar.specs.Lists.{if_label, on_label};
ghost use Rattle.cursors.specs.Found.{found};
ghost use Rattle.kinds.specs.Stands.{row_in};
ghost use Rattle.match_stretches.specs.Stretch.{Room, Follows, Stretched, Led};

use cursors::Cursor;
use kinds::Operand;
use match_shared::{cells_of, still_same};

// Below every label of a row.
const BELOW_LABELS: i64 = -9223372036854775807;

// How far a claimed row is compared: the next instant, with its cursors in the row that is followed and in the claimed row; and
// whether all before agree.
#[derive(Clone, Copy)]
pub struct Compared {
    pub t: usize,
    pub cursor: Cursor,
    pub claim: Cursor,
    pub same: bool,
}

// Whether a label, where there is one, is at most `high`.
fn at_most(label: Option<i64>, high: i64) -> bool
    ensures { result ≡ if_label (found label) (λ j. le_z j high) }
{
    match label {
        Some(j) => j <= high,
        None => true,
    }
}

// `label` at an instant that has a label in the row that is followed, none at another.
fn where_labelled(followed: Option<i64>, label: Option<i64>) -> Option<i64>
    ensures { found result ≡ on_label (found followed) (λ j. found label) }
{
    match followed {
        Some(_) => label,
        None => None,
    }
}

// Compares the claimed row r at the instants that follow, as far as the row a has no label above `high`, and not beyond `size` instants: with
// `label` where a has a label, with none where it has none.
pub fn compare_stretch(
    label: Option<i64>,
    high: i64,
    from: Compared,
    size: usize,
    pool: &[i32],
    a: Operand,
    r: Operand,
) -> Compared
    requires room { Room a r size pool.now }
    requires follows { Follows (row_in pool.now a) (row_in pool.now r) size from }
    ensures { Stretched (found label) high (row_in pool.now a) (row_in pool.now r) size from result }
{
    let a_cells = cells_of(pool, a);
    let r_cells = cells_of(pool, r);
    let mut cursor = from.cursor;
    let mut claim = from.claim;
    let mut same = from.same;
    for t in from.t..size {
        let followed = cursors::cursor_label(a_cells, a.period, a.distance, cursor);
        if !at_most(followed, high) {
            return Compared {
                t,
                cursor,
                claim,
                same,
            };
        }
        let claimed = cursors::cursor_label(r_cells, r.period, r.distance, claim);
        same = still_same(same, claimed, where_labelled(followed, label));
        cursor = cursors::cursor_next(a_cells, a.period, a.distance, cursor);
        claim = cursors::cursor_next(r_cells, r.period, r.distance, claim);
    }
    Compared {
        t: size,
        cursor,
        claim,
        same,
    }
}

// Compares the claimed row at the instants before the first label of the row a, which are to have none.
pub fn compare_leading(size: usize, pool: &[i32], a: Operand, r: Operand) -> Compared
    requires { Room a r size pool.now }
    ensures { Led (row_in pool.now a) (row_in pool.now r) size result }
{
    let start = Cursor { index: 0, rise: 0 };
    let from = Compared {
        t: 0,
        cursor: start,
        claim: start,
        same: true,
    };
    compare_stretch(None, BELOW_LABELS, from, size, pool, a, r)
}
