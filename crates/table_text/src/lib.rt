// A table's text, read into numbers.

#![tactic(auto)]

mod entry;
mod number;
mod table;

pub use table::{TABLE_LENGTH, TEXT_LIMIT, read_table};
