// The civil calendar, for C: include/jogipahn.h declares the functions.

ghost use Rattle.std.specs.Prelude.{◌≡◌, length};
ghost use Rattle.civil.specs.Instants.{instant_reply};
ghost use Rattle.civil.specs.Asked.{date_reply};
ghost use Rattle.civil_api.specs.Codes.{table_code, table_left, DateLeft, instant_code, instant_left};

// The civil table in a list, with zeros behind it: 66; or -1 with zeros alone if the list is shorter.
#[unsafe(no_mangle)]
pub extern "C" fn jogipahn_civil_table(table: &mut [i32]) -> i64
    ensures code { result ≡ table_code (length table.old) }
    ensures table { table.new ≡ table_left (length table.old) }
{
    civil_api::table(table)
}

// The date of the instant t: 0.
#[unsafe(no_mangle)]
pub extern "C" fn jogipahn_date(t: i64, year: &mut i64, month: &mut i64, day: &mut i64) -> i64
    ensures { DateLeft (date_reply t) result year.new month.new day.new }
{
    civil_api::date(t, year, month, day)
}

// The instant of a date, in `t`: 0.
#[unsafe(no_mangle)]
pub extern "C" fn jogipahn_instant(year: i64, month: i64, day: i64, t: &mut i64) -> i64
    ensures code { result ≡ instant_code (instant_reply year month day) }
    ensures instant { t.new ≡ instant_left (instant_reply year month day) }
{
    civil_api::instant(year, month, day, t)
}
