// A table in lent bytes, 29 to an entry. Each change is durable at once.
ghost use Rattle.std.specs.Prelude.{◌≡◌, [], ◌∷◌, Ok};
ghost use Rattle.table.specs.Lent.{IsByteGood, byte_means, byte_most, making_check};

use crate::entry::Entry;
use crate::fault::TableFault;
use crate::store::{Table, check_count, find_place};
use codec::fill_part;

// No heap: the memory is lent and of a fixed size, so the count of entries stands beside it.
#[derive(Drop)]
pub struct ByteTable<'a> {
    bytes: &'a mut [u8],
    entries: usize,
    pub ghost ok: { IsByteGood bytes.now entries },
}

impl<'a> ByteTable<'a> {
    // May a table be made of this many entries? Refuses with 8 where the bytes are too few.
    pub fn check(bytes: &[u8], entries: u64) -> Result<(), TableFault>
        ensures { result ≡ making_check (byte_most bytes.now) entries }
    {
        check_count(entries, (bytes.len() / 29) as u64)
    }

    // The table of the first entries that lie in the bytes.
    pub fn new(bytes: &'a mut [u8], entries: u64) -> ByteTable<'a>
        requires { making_check (byte_most bytes.old) entries ≡ Ok tt }
        ensures same { result.bytes.ghost_name ≡ bytes.entry.ghost_name }
        ensures bytes { result.bytes.now ≡ bytes.old }
        ensures entries { result.entries ≡ entries }
    {
        ByteTable {
            bytes,
            entries: entries as usize,
        }
    }
}

#[tactic(auto, using(crate::proofs::InBytes::in_bytes), unfolding(crate::specs::Lent::entry_at))]
impl<'a> Table for ByteTable<'a> {
    ghost means = { λ t. byte_means t.bytes.now t.entries };

    ghost lent = { λ t. t.bytes.ghost_name ∷ [] };

    fn len(&self) -> u64 {
        self.entries as u64
    }

    fn most(&self) -> u64 {
        (self.bytes.len() / 29) as u64
    }

    fn read(&self, index: u64) -> Result<Entry, TableFault> {
        let at = 29 * find_place(index, self.entries)?;
        Ok(Entry::decode(&self.bytes[at..at + 29]))
    }

    fn write(&mut self, index: u64, entry: Entry) -> Result<(), TableFault> {
        let at = 29 * find_place(index, self.entries)?;
        entry.encode(&mut self.bytes[at..at + 29]);
        Ok(())
    }

    fn resize(&mut self, count: u64) -> Result<(), TableFault> {
        check_count(count, self.most())?;
        let count = count as usize;
        let entries = self.entries;
        if count > entries {
            fill_part(self.bytes, 29 * entries, 29 * count, 0);
        }
        self.entries = count;
        Ok(())
    }

    fn sync(&mut self) {}
}
