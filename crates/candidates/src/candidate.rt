// The granules of a in question for one granule of b: what an instant says of them.

ghost use Rattle.std.specs.Prelude.{◌≡◌, ◌^◌};
ghost use Rattle.calendar.specs.Questions.{given};
ghost use Rattle.cursors.specs.Found.{Sound, Within};
ghost use Rattle.cursors.specs.Cursor.{cursor_at};
ghost use Rattle.containment.specs.Sides.{Overlaps};
ghost use Rattle.candidates.specs.Tallies.{counts, CandidateAt};

use containment::CursorPair;
use containment::seen::Seen;
use cursors::Cursor;

// What an instant says of the granules in question: none shows that was not looked at, one shows that is not in question, the next one
// shows, or b's granule is over.
#[derive(Clone, Copy)]
pub enum Candidate {
    Nothing,
    Passed(i64),
    Next(i64),
    End,
}

// Whether a's granule at the place is in question for b's: it lies in it, or need not.
fn counts_at(
    whole: bool,
    a_cells: &[i32],
    a_period: i64,
    a_distance: i64,
    b_cells: &[i32],
    b_period: i64,
    b_distance: i64,
    place: CursorPair,
) -> bool
    requires sound { Sound a_period a_distance a_cells.now }
    requires sound_2 { Sound b_period b_distance b_cells.now }
    requires overlaps { Overlaps (given a_period a_distance a_cells.now) (given b_period b_distance b_cells.now) place }
    ensures { result ≡ counts whole (given a_period a_distance a_cells.now) (given b_period b_distance b_cells.now) place.i place.k }
{
    if !whole {
        return true;
    }
    containment::inside_at(
        a_cells, a_period, a_distance, b_cells, b_period, b_distance, place,
    )
}

// What the instant t, with its cursors, says of the granules in question for b's granule i, which began before it: the label of a
// looked at last is `latest`, once one is looked at.
pub fn candidate_at(
    whole: bool,
    i: i64,
    t: i64,
    a: Cursor,
    b: Cursor,
    looked: bool,
    latest: i64,
    a_cells: &[i32],
    a_period: i64,
    a_distance: i64,
    b_cells: &[i32],
    b_period: i64,
    b_distance: i64,
) -> Candidate
    requires sound { Sound a_period a_distance a_cells.now }
    requires sound_2 { Sound b_period b_distance b_cells.now }
    requires within { Within (2 ^ 59) t }
    requires a_value { a ≡ cursor_at (given a_period a_distance a_cells.now) t }
    requires b_value { b ≡ cursor_at (given b_period b_distance b_cells.now) t }
    ensures { CandidateAt whole (given a_period a_distance a_cells.now) (given b_period b_distance b_cells.now) i t looked latest result }
{
    let seen = containment::seen::seen_at(
        i, t, b, a, b_cells, b_period, b_distance, a_cells, a_period, a_distance,
    );
    match seen {
        Seen::Off => return Candidate::Nothing,
        Seen::Bare => return Candidate::Nothing,
        Seen::Over => return Candidate::End,
        Seen::Of(j) => {
            if looked {
                if j == latest {
                    return Candidate::Nothing;
                }
            }
            let place = CursorPair {
                b: a,
                k: j,
                a: b,
                i,
            };
            let in_question = counts_at(
                whole, a_cells, a_period, a_distance, b_cells, b_period, b_distance, place,
            );
            if in_question {
                return Candidate::Next(j);
            }
            Candidate::Passed(j)
        }
    }
}
