// The head of a pair of entries, and the slot to write.
ghost use Rattle.std.specs.Prelude.{◌≡◌, ◌<◌};
ghost use Rattle.table.specs.Choices.{Choices};
ghost use Rattle.table.specs.Entries.{head, slot};

use crate::entry::Entry;

// Not `Result<Option<Entry>, _>`: three cases of equal rank, and `Ok(None)` would say less than `Vacant`.
#[derive(Clone, Copy, PartialEq, Eq, Debug)]
pub enum Head {
    // Neither entry is whole.
    Vacant,
    // The only whole entry, or the one of higher epoch.
    Latest(Entry),
    // Both are whole and of the same epoch.
    Equal,
}

pub fn read_latest_entry(entry1: &Entry, entry2: &Entry) -> Head
    ensures { result ≡ head entry1.now entry2.now }
{
    match (entry1.is_valid(), entry2.is_valid()) {
        (true, true) if entry1.epoch == entry2.epoch => Head::Equal,
        (true, true) if entry1.epoch < entry2.epoch => Head::Latest(*entry2),
        (true, _) => Head::Latest(*entry1),
        (false, true) => Head::Latest(*entry2),
        (false, false) => Head::Vacant,
    }
}

// The slot to write an epoch to.
pub fn compute_write_offset(entry1: &Entry, entry2: &Entry, epoch: u64) -> u64
    ensures value { result ≡ slot epoch entry1.now entry2.now }
    ensures two { result < 2 }
{
    if entry1.is_of(epoch) {
        0
    } else if entry2.is_of(epoch) {
        1
    } else if entry1.is_empty() {
        0
    } else if entry2.is_empty() {
        1
    } else if entry1.epoch < entry2.epoch {
        0
    } else {
        1
    }
}

// The worked cases of heads and slots; and the slot chosen for an epoch never holds the head among the epochs before.
pub fn choices_stand()
    ensures { Choices }
{}
