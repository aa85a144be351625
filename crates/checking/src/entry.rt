// The check of an entry: its heading and its row beside what a conversion would leave behind the rows before it.
//
// The pool holds the claimed row and not the working row, so the claimed row is known by what it means: it is right exactly if it is least, the working turn is
// a whole number of its turns, and it has the labels of the result at each instant of the working turn.

ghost use Rattle.std.specs.Prelude.{◌≡◌, true, ◌↔◌, List, ℕ, ◌+◌, ◌-◌, ◌*◌, ◌≤◌, pos, ◌≤ℤ◌, length, take, IsSome, IfSome};
ghost use Rattle.calendar.specs.Meaning.{Row};
ghost use Rattle.calendar.specs.Operation.{Operation};
ghost use Rattle.calendar.specs.Limits.{pool_limit, heading_length};
ghost use Rattle.calendar.specs.Outcome.{converted, at_rows, judged};
ghost use Rattle.calendar.specs.Table.{entry_at};
ghost use Rattle.kinds.specs.Operations as Kinds;
ghost use Rattle.kinds.specs.Stands.{row_in, Stands};
ghost use Rattle.entries.specs.Naming.{Names};
ghost use Rattle.fill_shared.specs.Placed.{over};
ghost use Rattle.row_entry.specs.Entering.{operand_of};
ghost use Rattle.standing.specs.Tests.{Ends};
ghost use Rattle.checking.specs.Claims.{Behind, EntryClaimed, NamedClaimed, Judges};
ghost use Rattle.checking.specs.Weighing.{Multiple, MayBeRight, Weighable, judged_as, weighed};

use calendar::Refusal;
use entries::Named;
use kinds::{Kind, Operand};
use operand_checks::Extent;
use row_entry::HEADING_LENGTH;

// The row whose heading is the j-th of the first k, or one of no cells.
fn operand_before(headings: &[u32], k: usize, j: usize) -> Operand
    requires { heading_length * k ≤ length headings.now }
    ensures { result ≡ operand_of (take (heading_length * k) headings.now) j }
{
    if j < k {
        row_entry::operand_at(headings, j)
    } else {
        Operand {
            start: 0,
            period: 0,
            distance: 0,
            granules: 0,
        }
    }
}

// Whether a period and a distance are the same multiple of p and n.
fn is_multiple(period: u32, distance: u32, p: u32, n: u32) -> bool
    requires { (1 ≤ p) × (n ≤ p) }
    ensures { (result ≡ true) ↔ Multiple period distance p n }
{
    let times = period / p;
    if times * p != period {
        return false;
    }
    times * n == distance
}

// The cell behind the claimed row of the entry k, where that row may be right by its heading and its own cells: it stands
// behind the rows before it, is least with the granules that its heading says, and the working turn is a whole number of
// its turns.
fn claim_of(extent: Extent, k: usize, used: usize, headings: &[u32], pool: &[i32]) -> Option<usize>
    requires heading_length_in_bounds { heading_length * k + heading_length ≤ length headings.now }
    requires used_in_bounds { (used ≤ length pool.now) × (length pool.now ≤ pool_limit) }
    requires pos_bound { (pos 0 ≤ℤ extent.period) × (extent.period ≤ℤ pos pool_limit) }
    requires pos_bound_2 { (pos 0 ≤ℤ extent.distance) × (extent.distance ≤ℤ pos pool_limit) }
    ensures test { IsSome result ↔ MayBeRight extent k used headings.now pool.now }
    ensures ends { IfSome result (Ends headings.now pool.now k used) }
{
    let end = standing::row_stands(headings, pool, k, used)?;
    let at = HEADING_LENGTH * k;
    let period = row_entry::number(extent.period);
    let distance = row_entry::number(extent.distance);
    is_multiple(period, distance, headings[at + 1], headings[at + 2]).then_some(end)
}

// How many operands a kind names.
fn operands(kind: Kind) -> u32
    ensures { result ≡ Kinds.operands kind }
{
    match kind {
        Kind::Bottom => 0,
        Kind::Group(_) => 1,
        Kind::Shift(_) => 1,
        Kind::Alter(_) => 2,
        Kind::Combine => 2,
        Kind::Anchor => 2,
        Kind::Select(_) => 2,
        Kind::ByLabels(_) => 2,
        Kind::Renumber(_) => 1,
    }
}

// What a comparison comes to, with a row that may be right or one that stands in for it.
fn judge(matched: Result<bool, Refusal>, claim: Option<usize>) -> Result<Option<usize>, Refusal>
    ensures { result ≡ judged_as matched claim }
{
    let same = matched?;
    Ok(if same { claim } else { None })
}

// Compares the claimed row r with the working row. Where it cannot be right the first operand stands in for it, so that checks 12 and 11 come first; bottom,
// which has none, passes both.
fn weigh(
    kind: Kind,
    extent: Extent,
    pool: &[i32],
    a: Operand,
    b: Operand,
    r: Operand,
    claim: Option<usize>,
) -> Result<Option<usize>, Refusal>
    requires weighable { Weighable kind extent a b pool.now }
    requires pos_bound { IsSome claim → (pos 0 ≤ℤ r.period) × Stands pool.now r }
    ensures { result ≡ weighed (over kind pool.now a b) (row_in pool.now r) claim }
{
    if claim.is_some() {
        let with_row = matching::compare(kind, extent.span, extent.period as usize, pool, a, b, r);
        return judge(with_row, claim);
    }
    if operands(kind) < 1 {
        return Ok(None);
    }
    let without = matching::compare(kind, extent.span, extent.period as usize, pool, a, b, a);
    judge(without, claim)
}

// Checks the entry of an operation over the rows of earlier entries.
fn check_named(
    named: Named,
    k: usize,
    used: usize,
    headings: &[u32],
    pool: &[i32],
) -> Result<Option<usize>, Refusal>
    requires { NamedClaimed named k headings.now pool.now used }
    ensures { (l : List Row) (o : Operation ℕ) → length l ≡ k → Behind l headings.now pool.now used → Names k o named → Judges k used headings.now pool.now (converted (at_rows l o) (length pool.now - used)) result }
{
    let kind = named.kind;
    let a = operand_before(headings, k, named.first);
    let b = operand_before(headings, k, named.second);
    let room = pool.len() - used;
    let extent = row_entry::check_in(kind, room as i64, pool, a, b)?;
    let claim = claim_of(extent, k, used, headings, pool);
    let r = row_entry::operand_at(headings, k);
    weigh(kind, extent, pool, a, b, r, claim)
}

// Checks the entry k behind the rows of the entries before it, which are right and end before the cell `used`.
pub fn check_entry(
    table: &[i32],
    k: usize,
    used: usize,
    headings: &[u32],
    pool: &[i32],
) -> Result<Option<usize>, Refusal>
    requires { EntryClaimed table.now k headings.now pool.now used }
    ensures { (l : List Row) → length l ≡ k → Behind l headings.now pool.now used → Judges k used headings.now pool.now (judged l (length pool.now - used) (entry_at table.now k)) result }
{
    let e = entries::entry_at(table, k);
    let named = entries::read(e, k)?;
    check_named(named, k, used, headings, pool)
}
