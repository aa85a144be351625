// The calendar type with its constants, and the refusals by name.

#![tactic(auto)]

ghost use Rattle.std.specs.Prelude.{◌≡◌};
ghost use Rattle.calendar.specs.Meaning.{empty, bottom_row};
ghost use Rattle.calendar.specs.Limits.{in_range};
ghost use Rattle.calendar.specs.Refusals.{number_of, row_of_calendar};

// The most entries that a table has.
pub const ENTRY_LIMIT: usize = 64;

// The most cells that a pool or a row has.
pub const POOL_LIMIT: usize = 4194304;

pub const LONGEST_PERIOD: i64 = POOL_LIMIT as i64;

// The longest lateness that may be asked about, in instants.
pub const LATE_LIMIT: i64 = 1048576;

// A calendar whose row has one cell: its period, its distance and the row.
#[derive(Clone, Copy)]
pub struct Calendar {
    pub period: i64,
    pub distance: i64,
    pub row: [i32; 1],
}

impl Calendar {
    // The cell of an instant that has no label.
    pub const EMPTY: i32 = -2147483648;
    // Labels and instants are from -1,000,000,000 to 1,000,000,000.
    pub const LEAST_LABEL: i64 = -1000000000;

    pub const GREATEST_LABEL: i64 = 1000000000;

    pub const BOTTOM_PERIOD: i64 = 1;

    pub const BOTTOM_DISTANCE: i64 = 1;

    pub const BOTTOM_LABEL: i32 = 0;

    // Bottom: each instant is its own label.
    pub fn bottom() -> Calendar
        ensures { row_of_calendar result ≡ bottom_row }
    {
        Calendar {
            period: Calendar::BOTTOM_PERIOD,
            distance: Calendar::BOTTOM_DISTANCE,
            row: [Calendar::BOTTOM_LABEL; 1],
        }
    }

    pub fn empty_cell() -> i32
        ensures { result ≡ empty }
    {
        Calendar::EMPTY
    }

    // z may be a label or a given instant.
    pub fn in_range(z: i64) -> bool
        ensures { result ≡ in_range z }
    {
        Calendar::LEAST_LABEL <= z && z <= Calendar::GREATEST_LABEL
    }
}

// Why a table, an entry, a row or a question is refused: a name for each of the numbers 1 to 20.
#[derive(Clone, Copy)]
pub enum Refusal {
    TableLength,
    TooFewHeadings,
    PoolTooLong,
    UnknownKind,
    OperandNotEarlier,
    NumberOutsideLimits,
    OperandNotFull,
    TooLong,
    NotAligned,
    GranuleEmptied,
    LabelOutsideLimits,
    NothingLabelled,
    RowNotSound,
    ArgumentOutsideLimits,
    NotALabel,
    PartsIncomplete,
    ListTooShort,
    AllowanceNotAllowed,
    TextNotAllowed,
    NoSuchDate,
}

impl Refusal {
    pub fn number(self) -> u32
        ensures { result ≡ number_of self }
    {
        match self {
            Refusal::TableLength => 1,
            Refusal::TooFewHeadings => 2,
            Refusal::PoolTooLong => 3,
            Refusal::UnknownKind => 4,
            Refusal::OperandNotEarlier => 5,
            Refusal::NumberOutsideLimits => 6,
            Refusal::OperandNotFull => 7,
            Refusal::TooLong => 8,
            Refusal::NotAligned => 9,
            Refusal::GranuleEmptied => 10,
            Refusal::LabelOutsideLimits => 11,
            Refusal::NothingLabelled => 12,
            Refusal::RowNotSound => 13,
            Refusal::ArgumentOutsideLimits => 14,
            Refusal::NotALabel => 15,
            Refusal::PartsIncomplete => 16,
            Refusal::ListTooShort => 17,
            Refusal::AllowanceNotAllowed => 18,
            Refusal::TextNotAllowed => 19,
            Refusal::NoSuchDate => 20,
        }
    }
}
