// What an entry names: its kind with its numbers, and its operands.

ghost use Rattle.std.specs.Prelude.{◌≡◌, ℕ, pos, ◌≤ℤ◌};
ghost use Rattle.calendar.specs.Operation.{Operation};
ghost use Rattle.calendar.specs.Reply.Reply.{answer};
ghost use Rattle.calendar.specs.Table.{named};
ghost use Rattle.kinds.specs.Operations.{operands};
ghost use Rattle.entries.specs.Entries.{entry_of};
ghost use Rattle.entries.specs.Naming.{KindOf, second_of, Names};

use super::{Entry, Named};
use kinds::{Alteration, Kind, Pick, Selection, SetOperation};

fn pick_of(e: Entry) -> Pick
    ensures { (result.x ≡ e.x) × (result.y ≡ e.y) }
{
    Pick {
        x: i64::from(e.x),
        y: i64::from(e.y),
    }
}

fn alteration_of(e: Entry) -> Alteration
    ensures { (result.x ≡ e.x) × (result.y ≡ e.y) × (result.z ≡ e.z) }
{
    Alteration {
        x: i64::from(e.x),
        y: i64::from(e.y),
        z: i64::from(e.z),
    }
}

// The kind with its numbers, by its number 0 to 12.
fn kind_of(e: Entry) -> Kind
    ensures { (k : ℕ) (o : Operation ℕ) → named k (entry_of e) ≡ answer o → KindOf e o result }
{
    let kind = e.kind;
    match kind {
        0 => Kind::Bottom,
        1 => Kind::Group(i64::from(e.x)),
        2 => Kind::Shift(i64::from(e.x)),
        3 => Kind::Alter(alteration_of(e)),
        4 => Kind::Combine,
        5 => Kind::Anchor,
        6 => Kind::Select(Selection::Down(pick_of(e))),
        7 => Kind::Select(Selection::Up),
        8 => Kind::Select(Selection::Intersecting(pick_of(e))),
        9 => Kind::ByLabels(SetOperation::Union),
        10 => Kind::ByLabels(SetOperation::Intersection),
        11 => Kind::ByLabels(SetOperation::Difference),
        _ => Kind::Renumber(i64::from(e.x)),
    }
}

// The second operand of a kind, by its entry.
fn second_of(kind: Kind, first: i32, second: i32) -> i32
    ensures { result ≡ second_of (operands kind) first second }
{
    match kind {
        Kind::Bottom => first,
        Kind::Group(_) => first,
        Kind::Shift(_) => first,
        Kind::Alter(_) => second,
        Kind::Combine => second,
        Kind::Anchor => second,
        Kind::Select(_) => second,
        Kind::ByLabels(_) => second,
        Kind::Renumber(_) => first,
    }
}

// The operation that the entry names, if it passes checks 4, 5 and 6.
pub fn names(e: Entry) -> Named
    requires { (pos 0 ≤ℤ e.first) × (pos 0 ≤ℤ e.second) }
    ensures { (k : ℕ) (o : Operation ℕ) → named k (entry_of e) ≡ answer o → Names k o result }
{
    let kind = kind_of(e);
    let second = second_of(kind, e.first, e.second);
    Named {
        kind,
        first: e.first as usize,
        second: second as usize,
    }
}
