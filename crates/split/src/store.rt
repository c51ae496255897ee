// The split journal.
ghost use Rattle.std.specs.Prelude.{◌≡◌, ◌+◌, ◌*◌, ◌≤◌, ◌&&◌, [], ◌∷◌, length, take};
ghost use Rattle.journal.specs.Rows.{in_bounds, stored_bytes, value_end};
ghost use Rattle.split.specs.Directory.{top};
ghost use Rattle.split.specs.Parts.{IsSplitGood, byte_total, directory_of, records_from, row_total, rows_at};
ghost use Rattle.split.specs.Single.{Laid-prop};

use crate::directory::Directory;
use crate::place::{Cut, Spot, enter};
use crate::records::Records;
use crate::section::Section;
use crate::sorted::Sorted;
use codec::{DecodedKey, Key, Value};
use journal::{
    Cursor, Journal, JournalFault, Place, Record, in_limits, read_stored, record_size,
    write_record, write_stored,
};
use std::marker::PhantomData;

// Records, stored values and a directory of sections in lent memory; `used` entries of the directory stand. No heap: each
// memory is of a fixed size, so the count stands beside it.
#[derive(Drop)]
pub struct SplitJournal<'a, K: DecodedKey> {
    records: &'a mut [u8],
    values: &'a mut [u8],
    directory: &'a mut [Section],
    used: usize,
    kind: PhantomData<K>,
    // The memory holds sections in good order.
    pub ghost ok: { IsSplitGood K.DecodedKey.decoding K.Key.WIDTH used directory.now records.now values.now K.Key.bytes } by { Laid-prop },
}

impl<'a, K: DecodedKey> SplitJournal<'a, K> {
    ghost use Rattle.split.specs.Plans.{IsEntry, cut_answer, place_answer};
    ghost use Rattle.split.specs.Whole.{meaning, parts, space};

    // An empty journal over this memory.
    pub fn new(
        records: &'a mut [u8],
        values: &'a mut [u8],
        directory: &'a mut [Section],
    ) -> SplitJournal<'a, K>
        ensures same_records { result.records.ghost_name ≡ records.entry.ghost_name }
        ensures same_values { result.values.ghost_name ≡ values.entry.ghost_name }
        ensures same_directory { result.directory.ghost_name ≡ directory.entry.ghost_name }
        ensures records { result.records.now ≡ records.old }
        ensures values { result.values.now ≡ values.old }
        ensures directory { result.directory.now ≡ directory.old }
        ensures used { result.used ≡ 0 }
    {
        SplitJournal {
            records,
            values,
            directory,
            used: 0,
            kind: PhantomData,
        }
    }

    // The entries in use.
    fn sections(&self) -> Directory<'_>
        ensures entries { result.sections.now ≡ directory_of 0 0 (parts self.now) }
        ensures top { top 0 result.sections.now ≡ (meaning self.now).sections }
    {
        Directory {
            sections: &self.directory[..self.used],
        }
    }

    // A section's entry, and what stands in the memory for it.
    fn entry(&self, section: u64) -> Section
        ensures number { result.number ≡ section }
        ensures own { IsEntry (parts self.now) result }
        ensures rows { result.rows ≡ length ((meaning self.now).rows section) }
        ensures bytes { result.bytes ≡ value_end (meaning self.now) section }
        ensures records { result.first_row * (K.Key.WIDTH + 28) + result.rows * (K.Key.WIDTH + 28) ≤ length self.now.records.now }
        ensures values { result.first_byte + result.bytes ≤ length self.now.values.now }
    {
        self.sections().entry_of(section)
    }

    // The records of an entry.
    fn records(&self, entry: Section) -> Records<'_>
        requires within { entry.first_row * (K.Key.WIDTH + 28) + entry.rows * (K.Key.WIDTH + 28) ≤ length self.now.records.now }
        requires own { IsEntry (parts self.now) entry }
        ensures width { result.width ≡ K.Key.WIDTH }
        ensures rows { result.rows ≡ entry.rows }
        ensures bytes { result.bytes.now ≡ records_from K.Key.bytes 0 ((meaning self.now).rows entry.number) }
    {
        let width = K::WIDTH;
        let rows = entry.rows as usize;
        let first = entry.first_row as usize * (width + 28);
        Records {
            bytes: &self.records[first..first + rows * (width + 28)],
            width,
            rows,
        }
    }

    // Where the next record and the next stored value go.
    fn end(&self) -> (usize, usize)
        ensures row { result.0 ≡ row_total (parts self.now) * (K.Key.WIDTH + 28) }
        ensures byte { result.1 ≡ byte_total (parts self.now) }
        ensures within { (result.0 ≤ length self.now.records.now) × (result.1 ≤ length self.now.values.now) }
    {
        let (rows, bytes) = self.sections().end();
        (rows as usize * record_size::<K>(), bytes as usize)
    }

    // Does a row with a value of so many bytes fit in the section of an entry?
    fn has_room(&self, entry: Section, len: usize) -> bool
        requires own { IsEntry (parts self.now) entry }
        requires short { len ≤ 4096 }
        ensures { result ≡ (space self.now entry.number len && in_bounds (K.Key.WIDTH + 28) (meaning self.now) entry.number (len + 4)) }
    {
        let (row, byte) = self.end();
        let record = record_size::<K>();
        let stored = len + 4;
        record <= self.records.len() - row
            && stored <= self.values.len() - byte
            && (entry.rows > 0 || self.used < self.directory.len())
            && in_limits(entry.rows, entry.bytes, record as u64, stored as u64)
    }

    // Where a row with a value of so many bytes goes, or why it does not.
    fn place(&self, section: u64, len: usize) -> Result<Spot, JournalFault>
        requires { len ≤ 4096 }
        ensures { result ≡ place_answer self.now section len }
    {
        let sections = self.sections();
        if sections.is_below(section) {
            return Err(JournalFault::Below(section));
        }
        let entry = self.entry(section);
        if !self.has_room(entry, len) {
            return Err(JournalFault::Full(section));
        }
        let (row, byte) = self.end();
        Ok(Spot {
            at: sections.before(section),
            row,
            byte,
            entry,
        })
    }

    // The stored bytes of the first rows of an entry.
    fn kept_bytes(&self, entry: Section, rows: u64) -> u64
        requires within { entry.first_row * (K.Key.WIDTH + 28) + entry.rows * (K.Key.WIDTH + 28) ≤ length self.now.records.now }
        requires own { IsEntry (parts self.now) entry }
        requires few { rows ≤ entry.rows }
        ensures { result ≡ stored_bytes (take rows (rows_at entry.number (parts self.now))) }
    {
        if rows == entry.rows {
            return entry.bytes;
        }
        self.records(entry).offset(rows as usize)
    }

    // Where a restore to so many record bytes of a section cuts the directory, and the section's entry then; or why it is
    // refused.
    fn cut(&self, section: u64, bytes: u64) -> Result<Cut, JournalFault>
        ensures { result ≡ cut_answer self.now section bytes }
    {
        let entry = self.entry(section);
        let size = record_size::<K>() as u64;
        if bytes > entry.rows * size || bytes % size != 0 {
            return Err(JournalFault::Restore(section));
        }
        let rows = bytes / size;
        Ok(Cut {
            at: self.sections().before(section),
            entry: Section {
                rows,
                bytes: self.kept_bytes(entry, rows),
                ..entry
            },
        })
    }
}

impl<'a, K: DecodedKey, V: Value> Journal<K, V> for SplitJournal<'a, K> {
    ghost use Rattle.split.specs.Whole.{meaning, space};

    ghost means = { λ j. meaning j };

    ghost space = { λ j. space j };

    ghost lent = { λ j. j.records.ghost_name ∷ (j.values.ghost_name ∷ (j.directory.ghost_name ∷ [])) };

    fn fits(&self, section: u64, value: &V) -> bool {
        self.has_room(self.entry(section), value.encode_size())
    }

    fn append(
        &mut self,
        section: u64,
        key: &K,
        next: Place,
        value: &V,
    ) -> Result<(u64, u64, u32), JournalFault> {
        let len = value.encode_size();
        let size = record_size::<K>();
        let stored = len + 4;
        let Spot {
            at,
            row,
            byte,
            entry,
        } = self.place(section, len)?;
        write_record(
            &mut self.records[row..row + size],
            key,
            next,
            entry.bytes,
            stored as u32,
        );
        write_stored(&mut self.values[byte..byte + stored], value);
        self.directory[at] = Section {
            rows: entry.rows + 1,
            bytes: entry.bytes + stored as u64,
            ..entry
        };
        self.used = at + 1;
        Ok((entry.rows, entry.bytes, stored as u32))
    }

    fn get(&self, place: Place) -> Result<Record<K>, JournalFault> {
        let entry = self.entry(place.section);
        if place.position >= entry.rows {
            return Err(JournalFault::NoRow(place));
        }
        Ok(Record::decode(self.records(entry).at(place.position as usize)))
    }

    fn value(&self, cursor: Cursor) -> Result<V, JournalFault> {
        let entry = self.entry(cursor.section);
        if !self.records(entry).has_place(cursor.offset, cursor.size) {
            return Err(JournalFault::NoValue(cursor));
        }
        let at = (entry.first_byte + cursor.offset) as usize;
        let end = at + cursor.size as usize;
        read_stored(&self.values[at..end], cursor)
    }

    fn size(&self, section: u64) -> u64 {
        self.entry(section).rows * record_size::<K>() as u64
    }

    fn value_end(&self, section: u64) -> u64 {
        self.entry(section).bytes
    }

    fn highest(&self) -> Option<u64> {
        self.sections().highest()
    }

    fn sync(&mut self, _first: u64, _last: u64) {}

    fn restore(&mut self, section: u64, bytes: u64) -> Result<(), JournalFault> {
        let cut = self.cut(section, bytes)?;
        self.used = enter(self.directory, cut);
        Ok(())
    }

    fn clear(&mut self) {
        self.used = 0;
    }
}
