// The check of finished lists, for C: include/jogipahn.h declares the function.

ghost use Rattle.std.specs.Prelude.{◌≡◌};
ghost use Rattle.verdicts.specs.Check.{check};
ghost use Rattle.check_api.specs.Codes.{verdict_code};

// Checks finished headings, four numbers an entry, and rows: 0 where they are accepted, 100 times a refusal's number plus its entry, or -1 - entry where an entry
// (or, with the number of entries, only the rest) is wrong.
#[unsafe(no_mangle)]
pub extern "C" fn jogipahn_check(table: &[i32], headings: &[u32], pool: &[i32]) -> i64
    ensures { result ≡ verdict_code (check table.now headings.now pool.now) }
{
    check_api::check(table, headings, pool)
}
