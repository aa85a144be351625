// The checks of an entry's operands and of its room: 7 in its own file; 8 for the span, 9, 10, 8 for the working period, in document 01's order.

#![tactic(auto)]

ghost use Rattle.std.specs.Prelude.{◌≡◌, true, pos, ◌≤ℤ◌};
ghost use Rattle.integers.specs.Parts.{up};
ghost use Rattle.calendar.specs.Checks.{full_operands};
ghost use Rattle.calendar.specs.Limits.{pool_limit};
ghost use Rattle.calendar.specs.Questions.{given};
ghost use Rattle.kinds.specs.Operations.{operation_of, operands, Numbers, SoundFirst};
ghost use Rattle.operand_checks.specs.Admission.{admission, checked_reply};
ghost use Rattle.operand_checks.specs.Shared.{IsRoom, whole_turn, fitted};

use alignment::Alignment;
use calendar::Refusal;
pub use fullness::are_full;
use kinds::Kind;

mod altered;
mod fullness;
mod grouping;
mod spanning;

// The span of an operation, its working period and the distance that goes with it.
#[derive(Clone, Copy)]
pub struct Extent {
    pub span: i64,
    pub period: i64,
    pub distance: i64,
}

// 8, where span and working period are those of the one operand, or 1.
fn whole(room: i64, period: i64, distance: i64) -> Result<Extent, Refusal>
    requires { IsRoom room }
    ensures { checked_reply result ≡ fitted (whole_turn period distance) (up room) }
{
    if period <= room {
        Ok(Extent {
            span: period,
            period,
            distance,
        })
    } else {
        Err(Refusal::TooLong)
    }
}

// The checks behind 7 of an operation over two rows, or over one that is given twice.
pub fn check(
    kind: Kind,
    room: i64,
    a_cells: &[i32],
    a_period: i64,
    a_distance: i64,
    b_cells: &[i32],
    b_period: i64,
    b_distance: i64,
) -> Result<Extent, Refusal>
    requires numbers { Numbers kind }
    requires sound_first { SoundFirst (operands kind) (given a_period a_distance a_cells.now) (given b_period b_distance b_cells.now) }
    requires b_cells_value { full_operands (operation_of kind (given a_period a_distance a_cells.now) (given b_period b_distance b_cells.now)) ≡ true }
    requires pos_bound { (pos 0 ≤ℤ room) × (room ≤ℤ pos pool_limit) }
    ensures { checked_reply result ≡ admission (operation_of kind (given a_period a_distance a_cells.now) (given b_period b_distance b_cells.now)) (up room) }
{
    match kind {
        Kind::Bottom => whole(room, 1, 1),
        Kind::Group(x) => grouping::grouped(x, room, a_period, a_distance),
        Kind::Shift(_) => whole(room, a_period, a_distance),
        Kind::Renumber(_) => whole(
            room,
            a_period,
            counts::granules(a_cells, a_period, a_distance),
        ),
        Kind::Alter(by) => altered::alter(
            by, room, a_cells, a_period, a_distance, b_cells, b_period, b_distance,
        ),
        Kind::Combine => spanning::spanned(
            Alignment::Free,
            room,
            a_cells,
            a_period,
            a_distance,
            b_cells,
            b_period,
            b_distance,
        ),
        Kind::Select(_) => spanning::spanned(
            Alignment::Free,
            room,
            a_cells,
            a_period,
            a_distance,
            b_cells,
            b_period,
            b_distance,
        ),
        Kind::Anchor => spanning::spanned(
            Alignment::Subcalendar,
            room,
            a_cells,
            a_period,
            a_distance,
            b_cells,
            b_period,
            b_distance,
        ),
        Kind::ByLabels(_) => spanning::spanned(
            Alignment::Compatible,
            room,
            a_cells,
            a_period,
            a_distance,
            b_cells,
            b_period,
            b_distance,
        ),
    }
}
