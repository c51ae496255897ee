// A table in two lent tables of entries, working and durable. A change reaches the durable one by a sync.
ghost use Rattle.std.specs.Prelude.{◌≡◌, [], ◌∷◌, ◌++◌, take, drop, Ok};
ghost use Rattle.table.specs.Lent.{making_check, IsStagedGood, staged_means, staged_most};

use crate::entry::{EMPTY, Entry};
use crate::fault::TableFault;
use crate::store::{Table, check_count, find_place};
use codec::fill_part;

// No heap: both tables are lent and of a fixed size, so the counts of entries stand beside them.
#[derive(Drop)]
pub struct StagedTable<'a> {
    working: &'a mut [Entry],
    durable: &'a mut [Entry],
    len: usize,
    durable_len: usize,
    pub ghost ok: { IsStagedGood working.now durable.now len durable_len },
}

impl<'a> StagedTable<'a> {
    // May a table be made of this many entries? Refuses with 8 where one of the two is too short.
    pub fn check(working: &[Entry], durable: &[Entry], entries: u64) -> Result<(), TableFault>
        ensures { result ≡ making_check (staged_most working.now durable.now) entries }
    {
        check_count(entries, working.len().min(durable.len()) as u64)
    }

    // The table of the first durable entries, which are copied to the working ones.
    pub fn new(working: &'a mut [Entry], durable: &'a mut [Entry], entries: u64) -> StagedTable<'a>
        requires { making_check (staged_most working.old durable.old) entries ≡ Ok tt }
        ensures same_working { result.working.ghost_name ≡ working.entry.ghost_name }
        ensures same_durable { result.durable.ghost_name ≡ durable.entry.ghost_name }
        ensures working { result.working.now ≡ take entries durable.old ++ drop entries working.old }
        ensures durable { result.durable.now ≡ durable.old }
        ensures len { result.len ≡ entries }
        ensures durable_len { result.durable_len ≡ entries }
    {
        let len = entries as usize;
        working[0..len].copy_from_slice(&durable[0..len]);
        StagedTable {
            working,
            durable,
            len,
            durable_len: len,
        }
    }
}

impl<'a> Table for StagedTable<'a> {
    ghost means = { λ t. staged_means t.working.now t.durable.now t.len t.durable_len };

    ghost lent = { λ t. t.working.ghost_name ∷ (t.durable.ghost_name ∷ []) };

    fn len(&self) -> u64 {
        self.len as u64
    }

    fn most(&self) -> u64 {
        self.working.len().min(self.durable.len()) as u64
    }

    fn read(&self, index: u64) -> Result<Entry, TableFault> {
        let at = find_place(index, self.len)?;
        Ok(self.working[at])
    }

    fn write(&mut self, index: u64, entry: Entry) -> Result<(), TableFault> {
        let at = find_place(index, self.len)?;
        self.working[at] = entry;
        Ok(())
    }

    fn resize(&mut self, count: u64) -> Result<(), TableFault> {
        check_count(count, self.most())?;
        let count = count as usize;
        let len = self.len;
        if count > len {
            fill_part(self.working, len, count, EMPTY);
        }
        self.len = count;
        Ok(())
    }

    fn sync(&mut self) {
        let len = self.len;
        // Not `copy_from_slice`: no rule covers one field behind `&mut self` that is read while its neighbour is lent.
        for i in 0..len {
            self.durable[i] = self.working[i];
        }
        self.durable_len = len;
    }
}
