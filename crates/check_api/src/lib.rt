// The check of finished lists in plain numbers, as C takes it: `jogipahn_c` hands it on under its name for C.

#![tactic(auto)]

ghost use Rattle.std.specs.Prelude.{◌≡◌};
ghost use Rattle.verdicts.specs.Check as Check;
ghost use Rattle.check_api.specs.Codes.{verdict_code};

use verdicts::Verdict;

// A verdict as a number.
fn verdict_code(v: Verdict) -> i64
    ensures { result ≡ verdict_code v }
{
    match v {
        Verdict::Accepted => 0,
        Verdict::Refused(number, entry) => 100 * (number as i64) + entry as i64,
        Verdict::Wrong(entry) => -1 - entry as i64,
    }
}

// Checks headings, four numbers an entry, and rows: 0 where they are accepted; 100 times the refusal's number plus its entry; or -1 - entry for the first entry whose
// heading or row is wrong, the number of entries standing for the rest.
pub fn check(table: &[i32], headings: &[u32], pool: &[i32]) -> i64
    ensures { result ≡ verdict_code (Check.check table.now headings.now pool.now) }
{
    let verdict = checking::check(table, headings, pool);
    verdict_code(verdict)
}
