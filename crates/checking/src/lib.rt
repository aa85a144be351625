// The check of finished headings and rows, whoever made them: they are compared, entry by entry, with what a conversion would leave, and nothing is written.

#![tactic(auto)]

ghost use Rattle.std.specs.Prelude.{◌≡◌, ◌&&◌, [], ◌*◌, ◌≤◌, drop};
ghost use Rattle.calendar.specs.Limits.{entry_limit, heading_length};
ghost use Rattle.standing.specs.Tests.{all_zero, all_empty};
ghost use Rattle.verdicts.specs.Check as Check;
ghost use Rattle.checking.specs.Claims.{TableClaimed};

use row_entry::HEADING_LENGTH;

mod entry;

// What the check comes to.
pub use verdicts::Verdict;

// Whether the numbers behind the headings of n entries are 0, and the cells from `used` on empty.
fn rest_is_empty(headings: &[u32], pool: &[i32], n: usize, used: usize) -> bool
    requires { n ≤ entry_limit }
    ensures { result ≡ all_zero (drop (heading_length * n) headings.now) && all_empty (drop used pool.now) }
{
    if !standing::is_clear(headings, HEADING_LENGTH * n) {
        return false;
    }
    standing::is_blank(pool, used)
}

// Checks the n entries of a table, and then the rest.
fn check_entries(table: &[i32], n: usize, headings: &[u32], pool: &[i32]) -> Verdict
    requires { TableClaimed table.now n headings.now pool.now }
    ensures { result ≡ Check.check_entries table.now headings.now pool.now n 0 [] }
{
    let mut used = 0;
    for k in 0..n {
        let judged = entry::check_entry(table, k, used, headings, pool);
        match judged {
            Err(refusal) => return Verdict::Refused(refusal.number(), k as u32),
            Ok(None) => return Verdict::Wrong(k as u32),
            Ok(Some(end)) => used = end,
        }
    }
    if rest_is_empty(headings, pool, n, used) {
        Verdict::Accepted
    } else {
        Verdict::Wrong(n as u32)
    }
}

// Checks headings, four numbers an entry, and rows that stand in a pool: accepted exactly when `convert` answers the table and would leave just these numbers and
// cells in lists of these lengths. Refuses 1, 2 and 3 for the lists, with entry 0, and 4 to 12 as `convert` does, for the first entry that calls for it or whose heading or row
// is wrong; a refusal comes before what is wrong at the same entry. Wrong names that entry, or the number of entries where only the rest is wrong. Costs time as
// `convert` does, in proportion to span and working period of each entry, and to its row for each divisor that is tried; no memory, and no list of its own.
pub fn check(table: &[i32], headings: &[u32], pool: &[i32]) -> Verdict
    ensures { result ≡ Check.check table.now headings.now pool.now }
{
    let begun = entries::begin(table, headings.len() / HEADING_LENGTH, pool.len());
    match begun {
        Err(refusal) => Verdict::Refused(refusal.number(), 0),
        Ok(n) => check_entries(table, n, headings, pool),
    }
}
