// The split journal: records, stored values and a directory of sections, each in lent memory.
#![tactic(auto)]

mod directory;
mod place;
mod records;
mod section;
mod sorted;
mod store;

pub use section::Section;
pub use store::SplitJournal;
