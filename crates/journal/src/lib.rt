// A journal of tables as text: records one behind the other, each a table's text and a trailer that points back to it.

#![tactic(auto)]

mod opened;
mod records;
mod search;

pub use opened::{Step, open, step_back};
pub use records::{RECORD_LIMIT, RecordError, TRAILER_LENGTH, record};
pub use search::last_trailer;
