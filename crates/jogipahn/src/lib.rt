// The calendar core: all that a caller uses is named in this file.
//
// A calendar gives some instants, which are whole numbers (days, say, or hours), a label; the instants with one label
// are a slot. Labels never fall, and repeat: a row of `period` cells holds the labels of the instants 0 to period -
// 1, and a period later every label is greater by `distance`. The cell of an instant with no label is
// `Calendar::EMPTY`.
//
// A table describes calendars, six numbers an entry: kind, first, second, x, y, z. `convert` turns each entry into the
// shortest row that means its calendar; a `Reader` of such a row, or of any other, answers questions. Anything may be
// handed in: the answer is one value or one refusal, by document 01's numbers.
//
//     kind                     x                  y         z         its calendar
//     0   bottom                                                      each instant is its own label
//     1   group first          1 to 1,000,000                         x slots in a row become one
//     2   shift first          a label                                x is added to each label
//     3   alter first, second  1 to 1,000,000     1 to x    a change  of x slots of second in a row the y-th gets z
//                                                                     slots of first more
//     4   combine                                                     first's labels where a slot of second lies in
//                                                                     one of first
//     5   anchor                                                      the last label of second, wherever first has one
//     6   select-down          a position, not 0  how many            of first's slots in each of second's: y from the
//                                                                     x-th on, from the end if x < 0
//     7   select-up                                                   first's slots that hold a whole slot of second
//     8   select-by-meeting    a position, not 0  how many            of first's slots that meet each of second's: y
//                                                                     from the x-th on
//     9   union, 10 intersection, 11 difference                       by labels
//     12  renumber first       a label                                the labels one by one; the least that is not
//                                                                     below x gets 1
//
// Numbers that a kind does not name are 0. `first` and `second` are entries before this one.
//
// A caller's code names `jogipahn` alone. Its line in crates.txt names beside `jogipahn` each crate that declares a
// type whose values the caller makes or takes apart, since a proof cites a type where it is declared:
//     calendar     Calendar, Refusal                  headings     Heading
//     conversion   ConversionError                    least_form   Shortest
//     floats       Allowance, Figures                 dates        Date
//     reader       Reader                             journal      RecordError
//     steps        Walk, Progress, Lengths            verdicts     Verdict
// A value that is only handed on, as a refusal within an answer, needs none. `crates/caller` is such a program.

#![tactic(auto)]

ghost use Rattle.std.specs.Prelude.{◌≡◌};
ghost use Rattle.civil.specs.Table.{civil_table as civil_numbers};

// The most entries of a table, the most cells of a pool or a row, and the greatest lateness that may be asked about.
pub use calendar::{ENTRY_LIMIT, LATE_LIMIT, POOL_LIMIT};

// Bottom's constants, the empty cell and the limits of labels: `Calendar::{BOTTOM_PERIOD, BOTTOM_DISTANCE,
// BOTTOM_LABEL, EMPTY, LEAST_LABEL, GREATEST_LABEL}` and `Calendar::bottom()`.
pub use calendar::Calendar;

// Why something is refused, with its number for each name (`number`), 1 to 18 of document 01, 19 and 20 of 02:
//     1  TableLength            the table's length is not 6 times 1 to 64
//     2  TooFewHeadings         fewer headings than entries
//     3  PoolTooLong            a pool above 4,194,304 cells
//     4  UnknownKind            a kind that is not 0 to 12
//     5  OperandNotEarlier      an operand that is no earlier entry
//     6  NumberOutsideLimits    x, y or z outside the kind's limits
//     7  OperandNotFull         an operand lacks a label that the kind needs
//     8  TooLong                span or working period above the room
//     9  NotAligned             the operands do not fit each other
//     10 GranuleEmptied         alter leaves a slot with nothing
//     11 LabelOutsideLimits     a label is outside ±1,000,000,000
//     12 NothingLabelled        no instant would have a label
//     13 RowNotSound            the cells are not as many as the period, not 1 <= distance <= period <= 4,194,304,
//                               a label is outside the limits, no cell has a label, or labels fall
//     14 ArgumentOutsideLimits  a label or an instant outside ±1,000,000,000, or a lateness outside 0 to 1,048,576
//     15 NotALabel              a label that the row does not have
//     16 PartsIncomplete        the slots do not make up the whole slot
//     17 ListTooShort           the list cannot hold the parts, or the answers of a batch
//     18 AllowanceNotAllowed    a fixed allowance that is negative, infinite or no number, or a share that is not
//                               1/256 to 1 in steps of 1/256
//     19 TextNotAllowed         text that breaks the rules of a table's text
//     20 NoSuchDate             a date that does not exist
pub use calendar::Refusal;

// convert(table, headings, pool): the rows of all entries into the pool, one behind the other, and where each stands
// into the headings. Refuses 1 to 3 for the lists and 4 to 12 for an entry; then every cell is empty and every
// heading zero. Costs time in proportion to the working rows and a few divisors of each, and no memory.
pub use headings::convert;

// Where an entry's row starts in the pool, its period, its distance and its slots per period.
pub use headings::Heading;

// Why a table is refused: the refusal's number, and the entry.
pub use conversion::ConversionError;

// The same with four plain numbers for each heading.
pub use conversion::convert as convert_plain;

// The conversion in steps, an entry a call, with four plain numbers for each heading; a `Walk` is the state, which the
// caller keeps. Left alone, the lists of a finished walk are those of `convert`.
//     start_walk(table, headings, pool)         makes checks 1 to 3 and empties both lists
//     step_walk(walk, table, headings, pool)    tests the rows that stand, and takes the entry that is due; a walk that
//                                               has ended stays as it is, and so do the lists
// `progress` of the walk that is given says Due(entry) for more, Done, or Refused(number, entry), with both lists empty;
// 13 says that the lists are not as long as at the start, or don't hold the rows of the entries before and nothing else.
pub use steps::{Lengths, Progress, Walk, start as start_walk, step as step_walk};

// The same with a record for each heading. The walk counts four numbers a heading, and any number of headings may be lent.
pub use walk_records::{start as start_walk_records, step as step_walk_records};

// check(table, headings, pool): finished headings, four plain numbers each, and rows, whoever made them. Accepted exactly
// when `convert` answers the table and would leave just these lists, cells behind the last row and numbers behind the last
// heading included. Else Refused(number, entry) or Wrong(entry) at the first entry that `convert` refuses, or whose
// heading or row is not right; a refusal comes first at an entry, and Wrong with the number of entries says that only the
// rest is not right. Nothing is written. Costs time as `convert` does, and no memory.
pub use checking::check;
pub use verdicts::Verdict;

// The same with a record for each heading.
pub use heading_records::check as check_records;

// sheet(text, out): a table's text, a line for each entry, to its sheet, a line for each row or one for a refusal (19 for a
// text that breaks the rules), in a lent list with zeros behind it. Some(n) says how long the sheet is; None, that the
// list, then all zero, does not hold it. SHEET_LIMIT bytes hold any.
pub use sheet_text::{SHEET_LIMIT, sheet};

// A journal keeps tables in a file, one appended after another: records of a table's text and a trailer of six bytes
// that points back to it. Whatever reaches the file of an append that is cut, opening finds the last table that is
// whole.
//     open_journal(book)            where the last table's text starts in these bytes and how many it has:
//                                   Some((start, n)), or None
//     journal_record(text, out)     what appending a text writes, in a lent list with zeros behind it: Ok(n). An error,
//                                   Refused(line) for a text that is refused with 19 or TooShort, leaves the list all
//                                   zero. RECORD_LIMIT bytes are never too short
//     last_trailer(window, base)    the same search in a part of a file that starts `base` bytes behind its start: the
//                                   trailer's place in the window and its body's length. Parts are read from the
//                                   file's end, and each shares five bytes with the next
pub use journal::{
    RECORD_LIMIT, RecordError, last_trailer, open as open_journal, record as journal_record,
};

// A row with its period and distance. Its questions refuse 13 for a row that is not sound, and pass over the row once
// for that:
//     up_instant(t)        the slot of an instant and its place there, from 1, or none; refuses 14
//     up_granule(h, z)     the slot of h that holds all of slot z, or none; refuses 14, 15
//     down(g, z, parts)    the slots of g that make up slot z, rising, in a lent list; refuses 14, 15, 16, 17, and
//                          leaves the list zero then
//     figures(granules)    openness, mean length of a slot and mean spacing of a row with so many slots in its period;
//                          refuses 13 for another number
//     least_period()       the least period, and how many divisors were tried for it
//     may_be_late(z, d, a) whether slot z may be d instants late; refuses 14, 18, 15
//     open_map(words)      the open map of the row, in lent words
//     nth_open(x, n)       n open instants on from x, or back for an n below 0; for 0 it is x where x is open, or none;
//                          refuses 14
//     between(x, y)        how many open instants t there are with x < t <= y, and minus that for the pair the other
//                          way round; refuses 14
// Beyond the pass over each row up and down take time in proportion to the slots and their gaps.
pub use reader::Reader;

// Answers, and how late a delivery may be.
pub use floats::{Allowance, Figures};
pub use least_form::Shortest;

// The questions with plain parameters (what is asked, then each row's cells, period and distance), for callers that
// hold no reader.
pub use questions::down::down;
pub use questions::{figures, least_period, may_be_late, up_granule, up_instant};

// Many questions to one row in a call, which passes over the row once for rule 13. Each answer is that of the single
// question as a number, in lent lists: `codes` has 1 or 0 for each question, or a refusal's number below zero.
//     up_instants(ts, codes, labels, places, cells, period, distance)    1 with a label and a place in the other lists, 0
//                                                                        with none
//     up_granules(zs, codes, labels, g's row, h's row)                   1 with a label in the other list, 0 with none
//     may_be_late_each(zs, d, a, codes, cells, period, distance)         1 for yes, 0 for no
// The call answers the number of questions, or -17 where a lent list is shorter than that; then all lists are zero, and else
// what is behind the answers.
pub use batches::instants::up_instants;
pub use batches::lateness::may_be_late_each;
pub use batches::slots::up_granules;

// The civil calendar: the Gregorian months and years, run backward without end. Instant 1 is 1 January 2001, month 1 is
// January 2001 and year 1 is 2001.
//     civil_table()                   the table for `convert`: months are entry 9, years entry 10. It takes 11
//                                     headings and 332,046 cells
//     date_of(t)                      the date of an instant, its year by the civil number; refuses 14
//     instant_of(year, month, day)    the instant of a date; refuses 20, then 14
pub use dates::{Date, date_of, instant_of};

// The civil calendar's table, of the crate of that name.
pub fn civil_table() -> [i32; 66]
    ensures { result ≡ civil_numbers }
{
    civil_table::table()
}

// Open maps: one bit for each cell of a row, set where the cell has a label, in words of 64 bits: cell c is bit c mod 64 of
// word c / 64. A map stands for its open instants, which repeat every period. Refuses 13 for a number of words that does
// not fit the period, a period outside 1 to POOL_LIMIT, a bit set behind the last cell, or no bit set; then 14 for an
// instant outside the limits, and for s > t.
//     make_open_map(words, cells, period, distance)   the map of a row; refuses 13 as a question to the row does and
//                                                     where the words are not as many as it takes, and leaves zeros then
//     count_open(words, period, s, t)                 how many open instants there are from s up to but not including t
//     next_open(words, period, x)                     the next open instant above x
//     last_open(words, period, x)                     the last open instant below x
//     nth_open(words, period, x, n)                   the n-th open instant after x, or before x for an n below 0; for 0
//                                                     it is x, or None where x is not open; n is within ±1,000,000
//     between_open(words, period, x, y)               how many open instants t there are with x < t <= y, and minus that
//                                                     for the pair the other way round
// Making one passes over the row twice. A question passes over the words, not the cells: three times at the most.
pub use open_map::{count as count_open, last as last_open, next as next_open};
pub use open_steps::{between as between_open, nth as nth_open};
pub use row_maps::make as make_open_map;
