// Where a row goes, and where a restore cuts.
ghost use Rattle.std.specs.Prelude.{◌≡◌, ◌+◌, ◌<◌, length, if◌then◌else◌, nat_eq, slice_set};

use crate::section::Section;

// The index of its section's entry, the bytes behind the records and behind the stored values, and the entry as it was.
#[derive(Clone, Copy)]
pub struct Spot {
    pub at: usize,
    pub row: usize,
    pub byte: usize,
    pub entry: Section,
}

// Where a restore cuts a directory: the index of the section's entry, and the entry as it is then, without rows where
// none is kept.
#[derive(Clone, Copy)]
pub struct Cut {
    pub at: usize,
    pub entry: Section,
}

// Enters what a cut leaves of its section, and answers how many entries stand then.
pub fn enter(directory: &mut [Section], cut: Cut) -> usize
    requires { 0 < cut.entry.rows → cut.at < length directory.old }
    ensures used { result ≡ (if nat_eq cut.entry.rows 0 then cut.at else cut.at + 1) }
    ensures directory { directory.new ≡ (if nat_eq cut.entry.rows 0 then directory.old else slice_set directory.old cut.at cut.entry) }
{
    let at = cut.at;
    let entry = cut.entry;
    if entry.rows == 0 {
        return at;
    }
    directory[at] = entry;
    at + 1
}
