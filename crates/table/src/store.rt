// What a table is, and reading a pair of any.
ghost use Rattle.std.specs.Prelude.{◌≡◌, ℕ, ◌≤◌, List, length};
ghost use Rattle.table.specs.Lent.{making_check};
ghost use Rattle.table.specs.Store.{TableMeaning, apply, pair_answer, place_answer, read_answer, resize_after, resize_answer, sync, write_after, write_answer};

use crate::entry::Entry;
use crate::fault::TableFault;

pub trait Table {
    // The entries now and those that are durable, the most, whether each change is durable at once, and the record of
    // what was asked where one is kept.
    ghost means: { Self → TableMeaning };

    // The lent memory that it stands over, by the names under which the prover follows it. No call changes it, so that
    // whoever lent the memory knows what it holds afterwards.
    ghost lent: { Self → List ℕ };

    fn len(&self) -> u64
        ensures value { result ≡ length (means self.now).cells }
        ensures within { result ≤ (means self.now).most };

    fn most(&self) -> u64
        ensures { result ≡ (means self.now).most };

    fn read(&self, index: u64) -> Result<Entry, TableFault>
        ensures { result ≡ read_answer (means self.now) index };

    fn write(&mut self, index: u64, entry: Entry) -> Result<(), TableFault>
        ensures answer { result ≡ write_answer (means self.old) index }
        ensures after { means self.new ≡ write_after (means self.old) index entry }
        ensures same { lent self.new ≡ lent self.old };

    fn resize(&mut self, count: u64) -> Result<(), TableFault>
        ensures answer { result ≡ resize_answer (means self.old) count }
        ensures after { means self.new ≡ resize_after (means self.old) count }
        ensures same { lent self.new ≡ lent self.old };

    fn sync(&mut self)
        ensures after { means self.new ≡ apply (means self.old) sync }
        ensures same { lent self.new ≡ lent self.old };
}

// Where an entry stands among so many.
pub(crate) fn find_place(index: u64, len: usize) -> Result<usize, TableFault>
    ensures { result ≡ place_answer len index }
{
    if index < len as u64 {
        Ok(index as usize)
    } else {
        Err(TableFault::PastEnd(index))
    }
}

// May so many entries stand in a table of such a most? Refuses with 8.
pub(crate) fn check_count(count: u64, most: u64) -> Result<(), TableFault>
    ensures { result ≡ making_check most count }
{
    if count <= most {
        Ok(())
    } else {
        Err(TableFault::TooMany)
    }
}

// The two slots of a pair.
pub fn read_table<T: Table>(table: &T, index: u32) -> Result<(Entry, Entry), TableFault>
    ensures { result ≡ pair_answer (T.means table.now) index }
{
    let at = 2 * index as u64;
    let entry1 = table.read(at)?;
    let entry2 = table.read(at + 1)?;
    Ok((entry1, entry2))
}
