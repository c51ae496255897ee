// Finding a section in a directory.
#![tactic(auto, using(crate::proofs::Halving::directory))]

ghost use Rattle.std.specs.Prelude.{◌≡◌, suc, ◌^◌, ◌<◌, nat_lt};
ghost use Rattle.split.specs.Directory.{Rising, Rising-prop, end_byte, end_row, entry_of, highest_of, numbers, top};

use crate::section::Section;
use crate::sorted::Sorted;

// Entries that rise, and that end within what a number holds.
#[derive(Clone, Copy)]
pub struct Directory<'a> {
    pub sections: &'a [Section],
    ghost rising: { Rising 0 (numbers sections.now) } by { Rising-prop 0 (numbers sections.now) },
    ghost row: { end_row 0 sections.now < 2 ^ 64 },
    ghost byte: { end_byte 0 sections.now < 2 ^ 64 },
}

impl<'a> Sorted for Directory<'a> {
    ghost numbers = { λ d. numbers d.sections.now };

    ghost rise = { λ d. d.rising };

    fn count(&self) -> usize {
        self.sections.len()
    }

    fn number(&self, at: usize) -> u64 {
        self.sections[at].number
    }
}

impl<'a> Directory<'a> {
    // The row and the byte behind the last entry's.
    pub fn end(&self) -> (u64, u64)
        ensures row { result.0 ≡ end_row 0 self.now.sections.now }
        ensures byte { result.1 ≡ end_byte 0 self.now.sections.now }
    {
        match self.sections.last() {
            Some(last) => (last.first_row + last.rows, last.first_byte + last.bytes),
            None => (0, 0),
        }
    }

    // The last entry's number, or none.
    pub fn highest(&self) -> Option<u64>
        ensures { result ≡ highest_of self.now.sections.now }
    {
        self.sections.last().map(|last| last.number)
    }

    // Is a section below the last entry's?
    pub fn is_below(&self, section: u64) -> bool
        ensures { result ≡ nat_lt (suc section) (top 0 self.now.sections.now) }
    {
        self.highest().is_some_and(|last| section < last)
    }

    // A section's entry; one without rows, where its rows would stand, if it has none.
    pub fn entry_of(&self, section: u64) -> Section
        ensures { result ≡ entry_of section 0 0 self.now.sections.now }
    {
        let (first_row, first_byte) = match self.sections.get(self.before(section)) {
            Some(entry) if entry.number == section => return *entry,
            Some(entry) => (entry.first_row, entry.first_byte),
            None => self.end(),
        };
        Section {
            number: section,
            first_row,
            first_byte,
            rows: 0,
            bytes: 0,
        }
    }
}
