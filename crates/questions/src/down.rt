// Down: the slots of one row that make up a slot of another.

ghost use Rattle.std.specs.Prelude.{◌≡◌, pos, length, replicate};
ghost use Rattle.calendar.specs.Questions.{given};
ghost use Rattle.calendar.specs.Questions as Q;
ghost use Rattle.questions.specs.Answers.{parts_reply, counted, parts_after};

use calendar::{Calendar, Refusal};

// Makes the whole list zero.
pub fn clear(parts: &mut [i64])
    ensures { parts.new ≡ replicate (length parts.old) (pos 0) }
{
    parts.fill(0);
}

// The labels of g's slots that make up the slot z of h, rising, in `parts`; the rest of it is zero, and all of it
// after a refusal. Refuses 13 for h and for g, 14, 15, 16, 17. Costs a pass over each row, for check 13 and to find
// the slot, and a walk over the slot and the gaps of g beside it.
pub fn down(
    z: i64,
    parts: &mut [i64],
    h_cells: &[i32],
    h_period: i64,
    h_distance: i64,
    g_cells: &[i32],
    g_period: i64,
    g_distance: i64,
) -> Result<usize, Refusal>
    ensures answer { parts_reply result ≡ counted (Q.down (given h_period h_distance h_cells.now) (given g_period g_distance g_cells.now) z (length parts.old)) }
    ensures list { parts.new ≡ parts_after (length parts.old) (Q.down (given h_period h_distance h_cells.now) (given g_period g_distance g_cells.now) z (length parts.old)) }
{
    clear(&mut *parts);
    if !row_check::sound(h_cells, h_period, h_distance) {
        return Err(Refusal::RowNotSound);
    }
    if !row_check::sound(g_cells, g_period, g_distance) {
        return Err(Refusal::RowNotSound);
    }
    if !Calendar::in_range(z) {
        return Err(Refusal::ArgumentOutsideLimits);
    }
    let instant = row_check::instant_of(h_cells, h_period, h_distance, z);
    let Some(t) = instant else {
        return Err(Refusal::NotALabel);
    };
    let first = granule_ends::first_instant(h_cells, h_period, h_distance, t);
    let walked = parts::parts_of(
        z,
        first,
        &mut *parts,
        h_cells,
        h_period,
        h_distance,
        g_cells,
        g_period,
        g_distance,
    );
    match walked {
        Some(count) => {
            if parts.len() < count {
                clear(&mut *parts);
                return Err(Refusal::ListTooShort);
            }
            Ok(count)
        }
        None => {
            clear(&mut *parts);
            Err(Refusal::PartsIncomplete)
        }
    }
}
