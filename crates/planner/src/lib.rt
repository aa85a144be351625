// What the planners' program answers of a converted table: its arguments, the questions, months and pictures. Nothing is
// promised here but safety and an end: what is printed is what the proved functions answer, and is tested.

#![tactic(auto)]

pub mod arguments;
pub mod ask;
pub mod down;
pub mod late;
pub mod month;
pub mod picture;
pub mod refusals;
pub mod row;
pub mod show;
pub mod year;
