// What a journal is and means; its records, stored values and cursors; and its log, row by row.
#![tactic(auto)]

mod above;
mod cursor;
mod fault;
mod limits;
mod place;
mod reader;
mod record;
mod row;
mod step;
mod store;
mod stored;
#[cfg(test)]
mod tests;
mod writer;

pub use above::{append_and_read, restore_whole, row_count};
pub use fault::{Cursor, JournalFault};
pub use limits::in_limits;
pub use place::Place;
pub use reader::LogReader;
pub use record::{Record, record_size, write_record};
pub use row::RowView;
pub use step::Step;
pub use store::Journal;
pub use stored::{read_stored, write_stored};
pub use writer::{row_size, write_row};
