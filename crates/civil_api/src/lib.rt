// The civil calendar in plain numbers, as C takes it: `jogipahn_c` hands each function on under its name for C.

#![tactic(auto)]

ghost use Rattle.std.specs.Prelude.{◌≡◌, pos, length, get_or};
ghost use Rattle.civil.specs.Instants.{instant_reply};
ghost use Rattle.civil.specs.Asked.{date_reply};
ghost use Rattle.civil_api.specs.Codes.{table_code, table_left, DateLeft, instant_code, instant_left};

// The number at the place i of a list of n numbers: that of the civil table if the list holds all of it, and 0 else.
fn number_at(n: usize, i: usize) -> i32
    ensures { result ≡ get_or (table_left n) i (pos 0) }
{
    if n < 66 {
        return 0;
    }
    if i >= 66 {
        return 0;
    }
    let numbers = civil_table::table();
    numbers[i]
}

// The civil table in a list, with zeros behind it: 66; or -1 with zeros alone if the list is shorter.
pub fn table(list: &mut [i32]) -> i64
    ensures code { result ≡ table_code (length list.old) }
    ensures list { list.new ≡ table_left (length list.old) }
{
    let n = list.len();
    for (i, x) in list.iter_mut().enumerate() {
        *x = number_at(n, i);
    }
    if n < 66 { -1 } else { 66 }
}

// The date of the instant t: 0; or a refusal, with zeros.
pub fn date(t: i64, year: &mut i64, month: &mut i64, day: &mut i64) -> i64
    ensures { DateLeft (date_reply t) result year.new month.new day.new }
{
    let dated = dates::date_of(t);
    match dated {
        Ok(d) => {
            let y = d.year;
            *year = y;
            *month = d.month as i64;
            *day = d.day as i64;
            0
        }
        Err(x) => {
            *year = 0;
            *month = 0;
            *day = 0;
            codes::refusal_code(x)
        }
    }
}

// The instant of a date: 0; or a refusal, with zero.
pub fn instant(year: i64, month: i64, day: i64, t: &mut i64) -> i64
    ensures code { result ≡ instant_code (instant_reply year month day) }
    ensures instant { t.new ≡ instant_left (instant_reply year month day) }
{
    let found = dates::instant_of(year, month, day);
    match found {
        Ok(i) => {
            *t = i;
            0
        }
        Err(x) => {
            *t = 0;
            codes::refusal_code(x)
        }
    }
}
