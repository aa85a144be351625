// A claimed row beside the working row of a group, a shift or a renumbering: the label of an instant is the number of its label in the operand.

#![tactic(auto)]

ghost use Rattle.std.specs.Prelude.{◌≡◌, ◌^◌, ℤ, pos, negsuc, ◌+ℤ◌};
ghost use Rattle.std.proofs.Math.Option.{some, map};
ghost use Rattle.calendar.specs.Meaning.{Row, meant};
ghost use Rattle.calendar.specs.Compute.{anchored};
ghost use Rattle.calendar.specs.Questions.{given};
ghost use Rattle.granules.specs.Valid.{Valid};
ghost use Rattle.cursors.specs.Found.{found, Within};
ghost use Rattle.kinds.specs.Operations.{Numbers};
ghost use Rattle.kinds.specs.Stands.{row_in};
ghost use Rattle.fill_shared.specs.Fillable.{Fillable};
ghost use Rattle.fill_shared.specs.Placed.{over};
ghost use Rattle.match_shared.specs.Matching.{matched_as};
ghost use Rattle.match_shared.specs.Claims.{Claimed};
ghost use Rattle.match_unary.specs.Numbered.{kind_of, number_in, next_number, Counts};

use calendar::Refusal;
use fill_shared::last_before;
use fill_stretches::in_limits;
use fill_unary::renumbering::number_of;
use kinds::Operand;
use match_shared::{begin, cells_of, compared, outcome};

// The kinds over one row, with their numbers.
#[derive(Clone, Copy)]
pub enum Unary {
    Group(i64),
    Shift(i64),
    Renumber(i64),
}

// The last label of the operand before an instant, and its number.
#[derive(Clone, Copy)]
pub struct Counted {
    pub last: i64,
    pub number: i64,
}

// The number of the label j, which comes next behind one that has the number given.
fn next_number(by: Unary, number: i64, j: i64) -> i64
    requires numbers { Numbers (kind_of by) }
    requires within { Within (2 ^ 40) number }
    requires within_2 { Within (2 ^ 40) j }
    ensures { result ≡ next_number by number j }
{
    match by {
        Unary::Group(x) => integers::ceil_div(j, x),
        Unary::Shift(x) => j + x,
        Unary::Renumber(_) => number + 1,
    }
}

// The last label and its number behind an instant with the label.
fn next_counted(by: Unary, k: Counted, label: Option<i64>) -> Counted
    requires numbers { Numbers (kind_of by) }
    requires within { Within (2 ^ 40) k.number }
    requires within_2 { (j : ℤ) → found label ≡ some j → Within (2 ^ 40) j }
    ensures { (a : Row) (t : ℤ) → Valid a → Counts by a t k → found label ≡ meant a t → Counts by a (t +ℤ pos 1) result }
{
    match label {
        Some(j) => {
            if j == k.last {
                k
            } else {
                Counted {
                    last: j,
                    number: next_number(by, k.number, j),
                }
            }
        }
        None => k,
    }
}

// The number in the place of a label.
fn numbered(label: Option<i64>, number: i64) -> Option<i64>
    ensures { found result ≡ map (λ j. number) (found label) }
{
    match label {
        Some(_) => Some(number),
        None => None,
    }
}

// The number of the last label before the instant 0.
fn first_number(by: Unary, last: i64, cells: &[i32], period: i64, distance: i64) -> i64
    requires fillable { Fillable (kind_of by) (given period distance cells.now) (given period distance cells.now) }
    requires last_value { last ≡ anchored (given period distance cells.now) (negsuc 0) }
    ensures { result ≡ number_in by (given period distance cells.now) last }
{
    match by {
        Unary::Group(x) => integers::ceil_div(last, x),
        Unary::Shift(x) => last + x,
        Unary::Renumber(x) => number_of(x, last, cells, period, distance),
    }
}

// What the claimed row r is beside the working row.
pub fn match_unary(
    by: Unary,
    span: i64,
    period: usize,
    pool: &[i32],
    a: Operand,
    b: Operand,
    r: Operand,
) -> Result<bool, Refusal>
    requires fillable { Fillable (kind_of by) (row_in pool.now a) (row_in pool.now b) }
    requires claimed { Claimed (kind_of by) a b r span period pool.now }
    ensures { result ≡ matched_as (over (kind_of by) pool.now a b) (row_in pool.now r) }
{
    let cells = cells_of(pool, a);
    let last = last_before(cells, a.period, a.distance);
    let mut k = Counted {
        last,
        number: first_number(by, last, cells, a.period, a.distance),
    };
    let mut cursor = cursors::cursor_at(cells, a.period, a.distance, 0);
    let mut seen = begin();
    for t in 0..period {
        let own = cursors::cursor_label(cells, a.period, a.distance, cursor);
        cursor = cursors::cursor_next(cells, a.period, a.distance, cursor);
        k = next_counted(by, k, own);
        let label = numbered(own, k.number);
        if !in_limits(label) {
            return Err(Refusal::LabelOutsideLimits);
        }
        seen = compared(label, pool, r, seen);
    }
    outcome(seen.labelled, seen.same)
}
