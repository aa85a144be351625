// Open maps, for C: include/jogipahn.h declares the functions.

ghost use Rattle.std.specs.Prelude.{◌≡◌, length};
ghost use Rattle.calendar.specs.Questions.{given};
ghost use Rattle.codes.specs.Codes.{count_code, value_code, value_left};
ghost use Rattle.open_map.specs.Maps.{map_given};
ghost use Rattle.open_map.specs.Inquiries.{count_reply, next_reply, last_reply};
ghost use Rattle.row_maps.specs.Making.{map_reply, map_after, refusal};
ghost use Rattle.open_api.specs.Codes.{map_code};

// The open map of a row, in `words`: 0; the words are zero after a refusal.
#[unsafe(no_mangle)]
pub extern "C" fn jogipahn_open_map(
    cells: &[i32],
    period: i64,
    distance: i64,
    words: &mut [u64],
) -> i64
    ensures code { result ≡ map_code (refusal (map_reply (given period distance cells.now) (length words.old))) }
    ensures words { words.new ≡ map_after (length words.old) (map_reply (given period distance cells.now) (length words.old)) }
{
    open_api::map(cells, period, distance, words)
}

// How many open instants there are from s up to but not including t.
#[unsafe(no_mangle)]
pub extern "C" fn jogipahn_count_open(words: &[u64], period: i64, s: i64, t: i64) -> i64
    ensures { result ≡ count_code (count_reply (map_given period words.now) s t) }
{
    open_api::count(words, period, s, t)
}

// The next open instant above x, in `found`: 0.
#[unsafe(no_mangle)]
pub extern "C" fn jogipahn_next_open(words: &[u64], period: i64, x: i64, found: &mut i64) -> i64
    ensures code { result ≡ value_code (next_reply (map_given period words.now) x) }
    ensures found { found.new ≡ value_left (next_reply (map_given period words.now) x) }
{
    open_api::next(words, period, x, found)
}

// The last open instant below x, in `found`: 0.
#[unsafe(no_mangle)]
pub extern "C" fn jogipahn_last_open(words: &[u64], period: i64, x: i64, found: &mut i64) -> i64
    ensures code { result ≡ value_code (last_reply (map_given period words.now) x) }
    ensures found { found.new ≡ value_left (last_reply (map_given period words.now) x) }
{
    open_api::last(words, period, x, found)
}
