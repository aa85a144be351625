// The row of an entry that has passed checks 4 to 6, entered behind the rows of the entries before it.

#![tactic(auto)]

ghost use Rattle.std.specs.Prelude.{◌≡◌, List, ◌∷◌, ◌++◌, ℕ, ◌+◌, ◌-◌, ◌*◌, ◌≤◌, pos, ◌≤ℤ◌, length, take, drop};
ghost use Rattle.integers.specs.Parts.{up};
ghost use Rattle.calendar.specs.Meaning.{Row};
ghost use Rattle.calendar.specs.Limits.{pool_limit, heading_length};
ghost use Rattle.calendar.specs.Granules as G;
ghost use Rattle.calendar.specs.Questions.{given};
ghost use Rattle.calendar.specs.Least.{least};
ghost use Rattle.calendar.specs.Reply.Reply.{answer};
ghost use Rattle.calendar.specs.Outcome.{converted, at_rows};
ghost use Rattle.calendar.specs.Operation.{Operation};
ghost use Rattle.entries.specs.Naming.{Names};
ghost use Rattle.kinds.specs.Operations.{operands, Numbers, SoundFirst};
ghost use Rattle.kinds.specs.Stands.{row_in, CountedFirst};
ghost use Rattle.fill_shared.specs.Placed.{over};
ghost use Rattle.operand_checks.specs.Admission.{admission, checked_reply};
ghost use Rattle.row_entry.specs.Stores.{Stores};
ghost use Rattle.row_entry.specs.Entering.{operand_of, NamedDue, Before, Enterable, Worked, Added, Became};

use calendar::Refusal;
use entries::Named;
use kinds::{Kind, Operand};
use operand_checks::Extent;

// How many numbers a heading has: start, period, distance and granules.
pub const HEADING_LENGTH: usize = 4;

// The row whose heading is the j-th.
pub fn operand_at(headings: &[u32], j: usize) -> Operand
    requires { heading_length * j + heading_length ≤ length headings.now }
    ensures { result ≡ operand_of headings.now j }
{
    let at = HEADING_LENGTH * j;
    Operand {
        start: headings[at] as usize,
        period: headings[at + 1] as i64,
        distance: headings[at + 2] as i64,
        granules: headings[at + 3] as i64,
    }
}

// A number of a heading.
pub fn number(z: i64) -> u32
    requires { (pos 0 ≤ℤ z) × (z ≤ℤ pos pool_limit) }
    ensures { result ≡ up z }
{
    z as u32
}

// Writes the k-th heading.
fn write_heading(
    headings: &mut [u32],
    k: usize,
    start: u32,
    period: u32,
    distance: u32,
    granules: u32,
)
    requires { heading_length * k + heading_length ≤ length headings.old }
    ensures { headings.new ≡ take (heading_length * k) headings.old ++ (start ∷ period ∷ distance ∷ granules ∷ drop (heading_length * k + heading_length) headings.old) }
{
    let at = HEADING_LENGTH * k;
    headings[at] = start;
    headings[at + 1] = period;
    headings[at + 2] = distance;
    headings[at + 3] = granules;
}

// The checks of an operation over rows of the pool: 7 by their granules, then the others.
pub fn check_in(
    kind: Kind,
    room: i64,
    pool: &[i32],
    a: Operand,
    b: Operand,
) -> Result<Extent, Refusal>
    requires numbers { Numbers kind }
    requires sound_first { SoundFirst (operands kind) (row_in pool.now a) (row_in pool.now b) }
    requires counted_first { CountedFirst (operands kind) pool.now a b }
    requires before { Before (length pool.now) a }
    requires before_2 { Before (length pool.now) b }
    requires pool_len_bound { length pool.now ≤ pool_limit }
    requires pos_bound { (pos 0 ≤ℤ room) × (room ≤ℤ pos pool_limit) }
    ensures { checked_reply result ≡ admission (over kind pool.now a b) (up room) }
{
    if !operand_checks::are_full(kind, a, b) {
        return Err(Refusal::OperandNotFull);
    }
    let a_start = a.start;
    let a_end = fill_shared::end_of(a, pool.len());
    let b_start = b.start;
    let b_end = fill_shared::end_of(b, pool.len());
    operand_checks::check(
        kind,
        room,
        &pool[a_start..a_end],
        a.period,
        a.distance,
        &pool[b_start..b_end],
        b.period,
        b.distance,
    )
}

// The period and the granules of a least row.
#[derive(Clone, Copy)]
struct Shape {
    period: i64,
    granules: i64,
}

// The shape of the least row of the working row from `used` on.
fn least_of(period: i64, distance: i64, used: usize, pool: &[i32]) -> Shape
    requires { Worked period distance used pool.now }
    ensures period { result.period ≡ pos (least (given period distance (take (up period) (drop used pool.now)))).period }
    ensures granules { result.granules ≡ pos (G.granules (least (given period distance (take (up period) (drop used pool.now))))) }
{
    let end = used + period as usize;
    let granules = counts::granules(&pool[used..end], period, distance);
    let found = least_form::least_period(&pool[used..end], period, distance, granules);
    Shape {
        period: found.period,
        granules: least_form::least_granules(period, granules, found.period),
    }
}

// Writes the heading of the least row of the working row from `used` on; the answer is the cell behind the least row.
fn finish(
    period: i64,
    distance: i64,
    k: usize,
    used: usize,
    headings: &mut [u32],
    pool: &[i32],
) -> usize
    requires worked { Worked period distance used pool.now }
    requires heading_length_in_bounds { heading_length * k + heading_length ≤ length headings.old }
    ensures { Added k used headings.old pool.now (least (given period distance (take (up period) (drop used pool.now)))) result headings.new pool.now }
{
    let least = least_of(period, distance, used, pool);
    let rise = least_form::least_distance(period, distance, least.period);
    write_heading(
        headings,
        k,
        number(used as i64),
        number(least.period),
        number(rise),
        number(least.granules),
    );
    used + least.period as usize
}

// Fills in the working row of an operation that has passed its checks, and enters its least row.
fn write(
    kind: Kind,
    extent: Extent,
    a: Operand,
    b: Operand,
    k: usize,
    used: usize,
    headings: &mut [u32],
    pool: &mut [i32],
) -> Result<usize, Refusal>
    requires enterable { Enterable kind a b k used headings.old pool.old }
    requires used_value { admission (over kind pool.old a b) (length pool.old - used) ≡ answer extent }
    ensures lengths { (length headings.new ≡ length headings.old) × (length pool.new ≡ length pool.old) }
    ensures became { Became k used headings.old pool.old (converted (over kind pool.old a b) (length pool.old - used)) result headings.new pool.new }
{
    fill::fill(
        kind,
        extent.span,
        used,
        extent.period as usize,
        &mut *pool,
        a,
        b,
    )?;
    Ok(finish(extent.period, extent.distance, k, used, headings, pool))
}

// Enters the row of an operation over rows of the pool.
fn enter(
    kind: Kind,
    a: Operand,
    b: Operand,
    k: usize,
    used: usize,
    headings: &mut [u32],
    pool: &mut [i32],
) -> Result<usize, Refusal>
    requires { Enterable kind a b k used headings.old pool.old }
    ensures lengths { (length headings.new ≡ length headings.old) × (length pool.new ≡ length pool.old) }
    ensures became { Became k used headings.old pool.old (converted (over kind pool.old a b) (length pool.old - used)) result headings.new pool.new }
{
    let room = pool.len() - used;
    let extent = check_in(kind, room as i64, pool, a, b)?;
    write(kind, extent, a, b, k, used, headings, pool)
}

// Enters the row of an operation over the rows of earlier entries. After a refusal the headings are as they were, and so are the first `used` cells; those
// behind are scratch.
pub fn enter_named(
    named: Named,
    k: usize,
    used: usize,
    headings: &mut [u32],
    pool: &mut [i32],
) -> Result<usize, Refusal>
    requires { NamedDue named k headings.old pool.old used }
    ensures lengths { (length headings.new ≡ length headings.old) × (length pool.new ≡ length pool.old) }
    ensures became { (l : List Row) (o : Operation ℕ) → length l ≡ k → Stores l headings.old pool.old used → Names k o named → Became k used headings.old pool.old (converted (at_rows l o) (length pool.old - used)) result headings.new pool.new }
{
    let kind = named.kind;
    let first = operand_at(headings, named.first);
    let second = operand_at(headings, named.second);
    enter(kind, first, second, k, used, headings, pool)
}
