// What stops a journal, and where a value lies.
ghost use Rattle.std.specs.Prelude.{◌≡◌};
ghost use Rattle.journal.specs.Faults.{journal_number};

use crate::place::Place;

// The place of a value: its section, where its stored bytes begin there, and how many they are with their check.
#[derive(Clone, Copy, PartialEq, Eq, Debug)]
pub struct Cursor {
    pub section: u64,
    pub offset: u64,
    pub size: u32,
}

#[derive(Clone, Copy, PartialEq, Eq, Debug)]
pub enum JournalFault {
    // A section has fewer bytes than stated, or these are no whole records.
    Restore(u64),
    // A row does not fit in its section.
    Full(u64),
    // A section is below the highest with rows.
    Below(u64),
    // There is no row at a place.
    NoRow(Place),
    // No row has a value at this place.
    NoValue(Cursor),
    // A stored check is wrong: the stored one, and that of the bytes.
    Check(u32, u32),
    // Bytes are no value of their kind, with their place where they have one.
    Kind(Option<Cursor>),
}

impl JournalFault {
    // The number by which the project knows the refusal; the enum is what code goes by.
    pub fn number(&self) -> u8
        ensures { result ≡ journal_number self.now }
    {
        match self {
            JournalFault::Restore(_) => 7,
            JournalFault::Full(_) => 10,
            JournalFault::Below(_) => 13,
            JournalFault::NoRow(_) => 14,
            JournalFault::NoValue(_) => 16,
            JournalFault::Check(_, _) => 17,
            JournalFault::Kind(_) => 18,
        }
    }
}
