// The loops that fill in the working row of an operation over one row: shift, renumber and group.

#![tactic(auto)]

pub mod grouping;
pub mod renumbering;
pub mod shifting;
