// What a journal is.
ghost use Rattle.std.specs.Prelude.{◌≡◌, ℕ, ◌+◌, Bool, List, length};
ghost use Rattle.journal.specs.Answers.{append_after, append_answer, fits_answer, get_answer, highest_answer, restore_after, restore_answer, size_answer};
ghost use Rattle.journal.specs.Rows.{JournalMeaning, apply, clear, sync, value_answer, value_end};

use crate::fault::{Cursor, JournalFault};
use crate::place::Place;
use crate::record::Record;
use codec::{Key, Value};

pub trait Journal<K: Key, V: Value> {
    // For each section its rows and how many of them are durable, whether each append is durable at once, and the record
    // of what was asked where one is kept.
    ghost means: { Self → JournalMeaning K };

    // Is there space in a section for a row with a value of so many bytes.
    ghost space: { Self → ℕ → ℕ → Bool };

    // The lent memory that it stands over, by the names under which the prover follows it. No call changes it.
    ghost lent: { Self → List ℕ };

    // Does a row with this value fit in a section?
    fn fits(&self, section: u64, value: &V) -> bool
        ensures { result ≡ fits_answer (K.Key.WIDTH + 28) (means self.now) (space self.now section (length (V.Value.encoding value.now))) section (V.Value.encoding value.now) };

    // Adds a row to a section; answers its position, its value's offset and the size of its stored value.
    fn append(
        &mut self,
        section: u64,
        key: &K,
        next: Place,
        value: &V,
    ) -> Result<(u64, u64, u32), JournalFault>
        ensures answer { result ≡ append_answer (K.Key.WIDTH + 28) (means self.old) (space self.old section (length (V.Value.encoding value.now))) section (V.Value.encoding value.now) }
        ensures after { means self.new ≡ append_after (K.Key.WIDTH + 28) (means self.old) (space self.old section (length (V.Value.encoding value.now))) section key.now next.section next.position (V.Value.encoding value.now) }
        ensures same { lent self.new ≡ lent self.old };

    // The record at a place.
    fn get(&self, place: Place) -> Result<Record<K>, JournalFault>
        ensures { result ≡ get_answer (means self.now) place.section place.position };

    // The value at a cursor.
    fn value(&self, cursor: Cursor) -> Result<V, JournalFault>
        ensures { result ≡ value_answer V.Value.decoding (means self.now) cursor };

    // The bytes of a section's records.
    fn size(&self, section: u64) -> u64
        ensures { result ≡ size_answer (K.Key.WIDTH + 28) (means self.now) section };

    // The bytes of a section's stored values.
    fn value_end(&self, section: u64) -> u64
        ensures { result ≡ value_end (means self.now) section };

    // The highest section with rows, or none.
    fn highest(&self) -> Option<u64>
        ensures { result ≡ highest_answer (means self.now) };

    // Makes the sections from first to last durable.
    fn sync(&mut self, first: u64, last: u64)
        ensures after { means self.new ≡ apply (K.Key.WIDTH + 28) (means self.old) (sync first last) }
        ensures same { lent self.new ≡ lent self.old };

    // Keeps the earlier sections and the rows of one that take so many bytes, and drops the rest.
    fn restore(&mut self, section: u64, bytes: u64) -> Result<(), JournalFault>
        ensures answer { result ≡ restore_answer (K.Key.WIDTH + 28) (means self.old) section bytes }
        ensures after { means self.new ≡ restore_after (K.Key.WIDTH + 28) (means self.old) section bytes }
        ensures same { lent self.new ≡ lent self.old };

    // Drops all rows.
    fn clear(&mut self)
        ensures after { means self.new ≡ apply (K.Key.WIDTH + 28) (means self.old) clear }
        ensures same { lent self.new ≡ lent self.old };
}
