// The row of an entry, and the questions to it.

ghost use Rattle.std.specs.Prelude.{◌≡◌, ◌≤◌, pos, length, IfSome};
ghost use Rattle.calendar.specs.Questions as Q;
ghost use Rattle.calendar.specs.Questions.{given, up_from_instant, up_from_granule};
ghost use Rattle.open_map.specs.Answers.{number_reply};
ghost use Rattle.open_steps.specs.Answers.{step_reply};
ghost use Rattle.open_row.specs.Inquiries.{nth_reply, between_reply};
ghost use Rattle.questions.specs.Answers.{placed_reply, up_reply, parts_reply, counted, parts_after, may_be_late, late_reply};

use calendar::Refusal;
use floats::Allowance;

// How many entries a table has at most, and how many numbers a heading has.
const ENTRIES: usize = 64;

const HEADING: usize = 4;

#[derive(Clone, Copy)]
pub struct Row<'a> {
    pub entry: i64,
    pub cells: &'a [i32],
    pub period: u32,
    pub distance: u32,
}

// The cells of the row that starts so many cells behind the first.
fn cells_of<'a>(pool: &'a [i32], start: u32, period: u32) -> &'a [i32] {
    let from = start as usize;
    pool.get(from..from + period as usize).unwrap_or(&pool[..0])
}

// The row of the entry k, if the table has one. Start, period and distance are read of its heading.
pub fn row_at<'a>(k: i64, headings: &[u32], pool: &'a [i32]) -> Option<Row<'a>>
    ensures { IfSome result (λ r. (r.entry ≡ k) × (1 ≤ r.period)) }
{
    let at = usize::try_from(k).ok()?;
    if ENTRIES <= at {
        return None;
    }
    let heading = headings.get(HEADING * at..HEADING * at + 3)?;
    let period = heading[1];
    if period == 0 {
        return None;
    }
    Some(Row {
        entry: k,
        cells: cells_of(pool, heading[0], period),
        period,
        distance: heading[2],
    })
}

impl<'a> Row<'a> {
    // The slot of an instant, and its place there.
    pub fn up_instant(self, t: i64) -> Result<Option<(i64, u64)>, Refusal>
        ensures { placed_reply result ≡ up_from_instant (given (pos self.entry.period) (pos self.entry.distance) self.entry.cells.now) t }
    {
        questions::up_instant(
            t,
            self.cells,
            i64::from(self.period),
            i64::from(self.distance),
        )
    }

    // The slot of another row that holds a slot.
    pub fn up_granule(self, label: i64, of: Row) -> Result<Option<i64>, Refusal>
        ensures { up_reply result ≡ up_from_granule (given (pos self.entry.period) (pos self.entry.distance) self.entry.cells.now) (given (pos of.entry.period) (pos of.entry.distance) of.entry.cells.now) label }
    {
        questions::up_granule(
            label,
            self.cells,
            i64::from(self.period),
            i64::from(self.distance),
            of.cells,
            i64::from(of.period),
            i64::from(of.distance),
        )
    }

    // How many slots of another row make up a slot; `parts` is left with them.
    pub fn down(self, label: i64, parts: &mut [i64], of: Row) -> Result<usize, Refusal>
        ensures answer { parts_reply result ≡ counted (Q.down (given (pos self.entry.period) (pos self.entry.distance) self.entry.cells.now) (given (pos of.entry.period) (pos of.entry.distance) of.entry.cells.now) label (length parts.old)) }
        ensures list { parts.new ≡ parts_after (length parts.old) (Q.down (given (pos self.entry.period) (pos self.entry.distance) self.entry.cells.now) (given (pos of.entry.period) (pos of.entry.distance) of.entry.cells.now) label (length parts.old)) }
    {
        questions::down::down(
            label,
            parts,
            self.cells,
            i64::from(self.period),
            i64::from(self.distance),
            of.cells,
            i64::from(of.period),
            i64::from(of.distance),
        )
    }

    // The open instant so many on or back.
    pub fn nth_open(self, t: i64, n: i64) -> Result<Option<i64>, Refusal>
        ensures { step_reply result ≡ nth_reply (given (pos self.entry.period) (pos self.entry.distance) self.entry.cells.now) t n }
    {
        open_row::nth_open(
            t,
            n,
            self.cells,
            i64::from(self.period),
            i64::from(self.distance),
        )
    }

    // How many open instants there are behind the one, up to the other.
    pub fn between(self, from: i64, to: i64) -> Result<i64, Refusal>
        ensures { number_reply result ≡ between_reply (given (pos self.entry.period) (pos self.entry.distance) self.entry.cells.now) from to }
    {
        open_row::between(
            from,
            to,
            self.cells,
            i64::from(self.period),
            i64::from(self.distance),
        )
    }

    // Whether a slot may be d instants late.
    pub fn may_be_late(self, label: i64, d: i64, allowance: Allowance) -> Result<bool, Refusal>
        ensures { late_reply result ≡ may_be_late (given (pos self.entry.period) (pos self.entry.distance) self.entry.cells.now) label d allowance }
    {
        questions::may_be_late(
            label,
            d,
            allowance,
            self.cells,
            i64::from(self.period),
            i64::from(self.distance),
        )
    }
}
