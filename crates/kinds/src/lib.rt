// A stored row that an operation is over, by where it stands in the pool; and the operations, by kind.

#![tactic(auto)]

// The row of an earlier entry, by the numbers of its heading: its first cell in the pool, its period, its distance and its granules.
#[derive(Clone, Copy)]
pub struct Operand {
    pub start: usize,
    pub period: i64,
    pub distance: i64,
    pub granules: i64,
}

// Alter's numbers: of x coarse granules the y-th gets z fine ones more.
#[derive(Clone, Copy)]
pub struct Alteration {
    pub x: i64,
    pub y: i64,
    pub z: i64,
}

// Document 01's Pick: y positions from x on, counted from the end where x is below zero.
#[derive(Clone, Copy)]
pub struct Pick {
    pub x: i64,
    pub y: i64,
}

// The kinds select-down, select-up and select-by-meeting.
#[derive(Clone, Copy)]
pub enum Selection {
    Down(Pick),
    Up,
    Intersecting(Pick),
}

// Document 01's kinds 9, 10 and 11.
#[derive(Clone, Copy)]
pub enum SetOperation {
    Union,
    Intersection,
    Difference,
}

// The thirteen kinds with their numbers.
#[derive(Clone, Copy)]
pub enum Kind {
    Bottom,
    Group(i64),
    Shift(i64),
    Alter(Alteration),
    Combine,
    Anchor,
    Select(Selection),
    ByLabels(SetOperation),
    Renumber(i64),
}
