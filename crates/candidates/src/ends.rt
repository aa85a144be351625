// The first instant of a granule, with the cursors in its row and in another one.

ghost use Rattle.std.specs.Prelude.{◌≡◌, true, ◌^◌};
ghost use Rattle.std.proofs.Math.Option.{some};
ghost use Rattle.calendar.specs.Meaning.{meant};
ghost use Rattle.calendar.specs.Lists.{first};
ghost use Rattle.calendar.specs.Granules.{granule};
ghost use Rattle.calendar.specs.Questions.{given};
ghost use Rattle.cursors.specs.Found.{Sound, Within};
ghost use Rattle.cursors.specs.Cursor.{cursor_at};

use cursors::Cursor;

// An instant, with its cursors in the granule's row and in the other one.
#[derive(Clone, Copy)]
pub struct Instant {
    pub at: i64,
    pub own: Cursor,
    pub other: Cursor,
}

// The first instant of g's granule j, of which t is one: t itself, where that is known.
pub fn began(
    fresh: bool,
    j: i64,
    t: i64,
    g: Cursor,
    h: Cursor,
    g_cells: &[i32],
    g_period: i64,
    g_distance: i64,
    h_cells: &[i32],
    h_period: i64,
    h_distance: i64,
) -> Instant
    requires sound { Sound g_period g_distance g_cells.now }
    requires sound_2 { Sound h_period h_distance h_cells.now }
    requires within { Within (2 ^ 50) t }
    requires t_value { meant (given g_period g_distance g_cells.now) t ≡ some j }
    requires g_value { g ≡ cursor_at (given g_period g_distance g_cells.now) t }
    requires h_value { h ≡ cursor_at (given h_period h_distance h_cells.now) t }
    requires t_value_2 { fresh ≡ true → t ≡ first (granule (given g_period g_distance g_cells.now) j) }
    ensures at { result.at ≡ first (granule (given g_period g_distance g_cells.now) j) }
    ensures own { result.own ≡ cursor_at (given g_period g_distance g_cells.now) result.at }
    ensures other { result.other ≡ cursor_at (given h_period h_distance h_cells.now) result.at }
    ensures near { Within (2 ^ 58) result.at }
{
    if fresh {
        return Instant {
            at: t,
            own: g,
            other: h,
        };
    }
    let at = granule_ends::first_instant(g_cells, g_period, g_distance, t);
    let own = cursors::cursor_at(g_cells, g_period, g_distance, at);
    let other = cursors::cursor_at(h_cells, h_period, h_distance, at);
    Instant { at, own, other }
}
