// The table of chain heads: entries and their bytes, the head of a pair and the slot to write, what a table is, and two
// tables in lent memory.
#![tactic(auto)]

mod byte;
mod entry;
mod fault;
mod pair;
mod staged;
mod store;
#[cfg(test)]
mod tests;

pub use byte::ByteTable;
pub use entry::{EMPTY, Entry};
pub use fault::TableFault;
pub use pair::{Head, choices_stand, compute_write_offset, read_latest_entry};
pub use staged::StagedTable;
pub use store::{Table, read_table};
