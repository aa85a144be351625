// Questions to a row, put through a reader that borrows it.

#![tactic(auto)]

ghost use Rattle.std.specs.Prelude.{◌≡◌, length};
ghost use Rattle.calendar.specs.Questions as Q;
ghost use Rattle.calendar.specs.Questions.{given, up_from_instant, up_from_granule};
ghost use Rattle.open_map.specs.Answers.{number_reply};
ghost use Rattle.open_row.specs.Inquiries.{nth_reply, between_reply};
ghost use Rattle.open_steps.specs.Answers.{step_reply};
ghost use Rattle.questions.specs.Answers.{placed_reply, up_reply, parts_reply, counted, parts_after, FiguresOf, least_period, shortening_reply, late_reply, may_be_late};
ghost use Rattle.row_maps.specs.Making.{made, map_reply, map_after, refusal};

use calendar::Refusal;
use floats::{Allowance, Figures};
use least_form::Shortest;

// One row, borrowed together with its period and distance.
#[derive(Clone, Copy)]
pub struct Reader<'a> {
    pub cells: &'a [i32],
    pub period: i64,
    pub distance: i64,
}

impl<'a> Reader<'a> {
    // The label of the instant t and its place among the slot's own instants, from 1, or none. Refuses 13 for a row
    // that is not sound, then 14 for t outside ±1,000,000,000. Costs one pass over the row, and a walk over the slot
    // up to t.
    pub fn up_instant(self, t: i64) -> Result<Option<(i64, u64)>, Refusal>
        ensures { placed_reply result ≡ up_from_instant (given self.entry.period self.entry.distance self.entry.cells.now) t }
    {
        questions::up_instant(t, self.cells, self.period, self.distance)
    }

    // Openness, mean length of a slot and mean spacing, each rounded once, of a row with so many slots in its period.
    // Refuses 13, also where it has another number of slots. Costs three passes over the row.
    pub fn figures(self, granules: i64) -> Result<Figures, Refusal>
        ensures { FiguresOf (given self.entry.period self.entry.distance self.entry.cells.now) granules result }
    {
        questions::figures(granules, self.cells, self.period, self.distance)
    }

    // The least period of the row, and how many common divisors of period, distance and slots were tried for it, the
    // greatest first. Refuses 13. Costs three passes over the row, and at most one for each try.
    pub fn least_period(self) -> Result<Shortest, Refusal>
        ensures { shortening_reply result ≡ least_period (given self.entry.period self.entry.distance self.entry.cells.now) }
    {
        questions::least_period(self.cells, self.period, self.distance)
    }

    // Whether a delivery may be d instants late on the slot z. Refuses 13, 14 for z or d outside the limits, 18 for a
    // fixed allowance that is negative, infinite or no number and for a share that is not 1/256 to 1 in steps of
    // 1/256, 15 where z is no label. Costs three passes over the row at most, and two walks over the slot.
    pub fn may_be_late(self, z: i64, d: i64, allowance: Allowance) -> Result<bool, Refusal>
        ensures { late_reply result ≡ may_be_late (given self.entry.period self.entry.distance self.entry.cells.now) z d allowance }
    {
        questions::may_be_late(z, d, allowance, self.cells, self.period, self.distance)
    }

    // So many steps on from x, or back for `steps` below 0, each to the next open instant; for 0 it is x where x is
    // open, and else none. Refuses 13, then 14 for x outside ±1,000,000,000 or steps outside ±1,000,000. Costs four
    // passes over the row at most.
    pub fn nth_open(self, x: i64, steps: i64) -> Result<Option<i64>, Refusal>
        ensures { step_reply result ≡ nth_reply (given self.entry.period self.entry.distance self.entry.cells.now) x steps }
    {
        open_row::nth_open(x, steps, self.cells, self.period, self.distance)
    }

    // How many open instants t there are with x < t ≤ y, and minus that for the pair the other way round. Refuses 13,
    // then 14 for x or y outside ±1,000,000,000. Costs four passes over the row at most.
    pub fn between(self, x: i64, y: i64) -> Result<i64, Refusal>
        ensures { number_reply result ≡ between_reply (given self.entry.period self.entry.distance self.entry.cells.now) x y }
    {
        open_row::between(x, y, self.cells, self.period, self.distance)
    }

    // The label of the slot of h that contains the whole slot z, or none. Refuses 13 for this row and for h, 14 for z
    // outside ±1,000,000,000, 15 where z is no label. Costs three passes over this row at most, one over h, and a
    // walk over the slot.
    pub fn up_granule<'b>(self, h: Reader<'b>, z: i64) -> Result<Option<i64>, Refusal>
        ensures { up_reply result ≡ up_from_granule (given self.entry.period self.entry.distance self.entry.cells.now) (given h.entry.period h.entry.distance h.entry.cells.now) z }
    {
        questions::up_granule(
            z,
            self.cells,
            self.period,
            self.distance,
            h.cells,
            h.period,
            h.distance,
        )
    }

    // The labels of the slots of g that make up the slot z, rising, in `parts`, and how many they are; the rest of
    // the list is zero, and all of it after a refusal. Refuses 13 for this row and for g, 14, 15, 16 where they do
    // not make up the slot, 17 where the list is too short. Costs three passes over this row at most, one over g, and
    // a walk over the slot and those of g that meet it.
    pub fn down<'g, 'p>(self, g: Reader<'g>, z: i64, parts: &'p mut [i64]) -> Result<usize, Refusal>
        ensures answer { parts_reply result ≡ counted (Q.down (given self.entry.period self.entry.distance self.entry.cells.now) (given g.entry.period g.entry.distance g.entry.cells.now) z (length parts.old)) }
        ensures list { parts.new ≡ parts_after (length parts.old) (Q.down (given self.entry.period self.entry.distance self.entry.cells.now) (given g.entry.period g.entry.distance g.entry.cells.now) z (length parts.old)) }
    {
        questions::down::down(
            z,
            parts,
            self.cells,
            self.period,
            self.distance,
            g.cells,
            g.period,
            g.distance,
        )
    }

    // The open map of the row, in `words`: one bit for each cell, set where the cell has a label; all zero after a
    // refusal. Refuses 13, also where the words are not as many as the row takes. Costs two passes over the row.
    pub fn open_map<'w>(self, words: &'w mut [u64]) -> Result<(), Refusal>
        ensures answered { made result ≡ refusal (map_reply (given self.entry.period self.entry.distance self.entry.cells.now) (length words.old)) }
        ensures written { words.new ≡ map_after (length words.old) (map_reply (given self.entry.period self.entry.distance self.entry.cells.now) (length words.old)) }
    {
        row_maps::make(words, self.cells, self.period, self.distance)
    }
}
