// What the program is called with.

// The usage.
pub(crate) const TEXT: &str =
    "slots rows <TABLE                         the row of each entry: period, distance, cells
slots month YEAR MONTH ENTRY <TABLE       the month as a wall calendar, \".\" for a closed day
slots up ENTRY WHEN <TABLE                the slot that holds a day, and the place of the day there
slots up ENTRY LABEL OF <TABLE            the slot of entry OF that holds the slot LABEL of ENTRY
slots down ENTRY LABEL OF <TABLE          the slots of entry OF that make up the slot LABEL of ENTRY
slots late ENTRY LABEL DAYS ALLOWED <TABLE
                                          whether the slot LABEL may be so many days late; ALLOWED is a number
                                          of days, or a share of the slot such as 1/2
slots nth ENTRY WHEN N <TABLE             the N-th open day after a day, or before it for an N below 0
slots between ENTRY FROM TO <TABLE        how many open days there are behind FROM up to TO
slots picture ENTRY [YEAR] <TABLE         a picture (SVG) of a year of the entry, or of its period, 1,120 days at most
slots append BOOK <TABLE                  puts the table behind the others in the file BOOK
slots last BOOK                           the rows of the last table in BOOK
slots check SHEET <TABLE                  whether the file SHEET has the table's rows, as slots rows prints them
TABLE has six numbers a line for each entry; entries are counted from 0. WHEN, FROM and TO are dates such as
2026-11-16, or instants: day 1 is 2001-01-01.
";
