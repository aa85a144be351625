// Combine and the selections: along the granules of one row, each of which is decided once, where its first label shows.

#![tactic(auto)]

pub mod combining;
mod picking;
pub mod selecting;
