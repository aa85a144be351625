// Combine and the selections beside a claimed row: along the granules of one row, each of which is decided once, where its first label shows.

#![tactic(auto)]

pub mod combining;
pub mod selecting;
