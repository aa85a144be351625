// Check 7, from the numbers of the headings alone: an operand is full where it has as many granules per period as its distance says.

ghost use Rattle.std.specs.Prelude.{◌≡◌, List, ℤ};
ghost use Rattle.calendar.specs.Checks.{full_operands};
ghost use Rattle.calendar.specs.Granules.{full};
ghost use Rattle.kinds.specs.Operations.{operation_of, operands};
ghost use Rattle.kinds.specs.Stands.{row_in, Counted, CountedFirst};

use kinds::{Kind, Operand};

// Whether every whole number is a label of the operand.
fn is_full(a: Operand) -> bool
    ensures { (pool : List ℤ) → Counted pool a → result ≡ full (row_in pool a) }
{
    a.granules == a.distance
}

// Whether each operand that must be full is.
pub fn are_full(kind: Kind, a: Operand, b: Operand) -> bool
    ensures { (pool : List ℤ) → CountedFirst (operands kind) pool a b → result ≡ full_operands (operation_of kind (row_in pool a) (row_in pool b)) }
{
    match kind {
        Kind::Bottom => true,
        Kind::Group(_) => is_full(a),
        Kind::Shift(_) => true,
        Kind::Renumber(_) => true,
        Kind::Alter(_) => { if is_full(a) { is_full(b) } else { false } }
        Kind::Combine => true,
        Kind::Select(_) => true,
        Kind::Anchor => is_full(a),
        Kind::ByLabels(_) => true,
    }
}
