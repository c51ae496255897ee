// A journal in lent bytes: the log's rows, and zeros behind them. Each change is durable at once.
ghost use Rattle.std.specs.Prelude.{◌≡◌, ◌+◌, ◌*◌, ◌/◌, ◌^◌, ◌<◌, ◌&&◌, [], ◌∷◌, length};
ghost use Rattle.journal.specs.Answers.{answered, append_answer};
ghost use Rattle.journal.specs.Flat.{cut};
ghost use Rattle.journal.specs.Log.{log_bytes};
ghost use Rattle.journal.specs.Rows.{in_limits, later_than, restore_fault, stored_of};
ghost use Rattle.log_journal.specs.Kept.{IsLogGood, IsLogGood-prop, log_end, opened, rows_in, section_in};

use crate::walk::{Tally, cut_end, end, highest, record_at, tally_of, value_at};
use codec::{DecodedKey, Key, Value, fill_part};
use journal::{
    Cursor, Journal, JournalFault, Place, Record, in_limits, record_size, row_size, write_row,
};
use std::marker::PhantomData;

// Its rows take the first `used` bytes.
// No heap: the bytes are lent and of a fixed size, so the count of those in use stands beside them.
#[derive(Drop)]
pub struct LogJournal<'a, K: Key> {
    bytes: &'a mut [u8],
    used: usize,
    kind: PhantomData<K>,
    pub ghost ok: { IsLogGood K.Key.WIDTH bytes.now used } by { IsLogGood-prop K.Key.WIDTH bytes.now used },
}

impl<'a, K: Key> LogJournal<'a, K> {
    // Keeps the good rows at the front, and zeroes what stands behind them.
    pub fn open(bytes: &'a mut [u8]) -> LogJournal<'a, K>
        ensures same { result.bytes.ghost_name ≡ bytes.entry.ghost_name }
        ensures bytes { result.bytes.now ≡ opened K.Key.WIDTH bytes.old }
        ensures rows { rows_in K.Key.WIDTH result.bytes.now ≡ rows_in K.Key.WIDTH bytes.old }
        ensures used { result.used ≡ log_end K.Key.WIDTH bytes.old }
    {
        let used = end::<K>(bytes);
        let len = bytes.len();
        fill_part(bytes, used, len, 0);
        LogJournal {
            bytes,
            used,
            kind: PhantomData,
        }
    }
}

impl<'a, K: DecodedKey> LogJournal<'a, K> {
    ghost use Rattle.log_journal.specs.Held.{has_space, held};

    // Does a value's row fit behind the rows, in a section of so many rows and stored bytes?
    fn has_place<V: Value>(&self, tally: Tally, value: &V) -> bool
        requires { tally.rows * (K.Key.WIDTH + 28) < 2 ^ 64 }
        ensures { result ≡ (has_space self.now (length (V.Value.encoding value.now)) && in_limits (K.Key.WIDTH + 28) tally.rows tally.bytes (length (stored_of (V.Value.encoding value.now)))) }
    {
        let size = record_size::<K>() as u64;
        let stored = value.encode_size() as u64 + 4;
        row_size::<K, V>(value) <= self.bytes.len() - self.used
            && in_limits(tally.rows, tally.bytes, size, stored)
    }

    // Has a higher section rows?
    fn has_later(&self, section: u64) -> bool
        ensures { result ≡ later_than section (held K.DecodedKey.decoding self.now) }
    {
        highest::<K>(self.bytes).is_some_and(|high| section < high)
    }

    // What an append answers: the new row's position, its value's offset and the size of its stored value.
    fn place<V: Value>(&self, section: u64, value: &V) -> Result<(u64, u64, u32), JournalFault>
        ensures { result ≡ append_answer (K.Key.WIDTH + 28) (held K.DecodedKey.decoding self.now) (has_space self.now (length (V.Value.encoding value.now))) section (V.Value.encoding value.now) }
    {
        if self.has_later(section) {
            return Err(JournalFault::Below(section));
        }
        let tally = tally_of::<K>(self.bytes, section);
        if !self.has_place(tally, value) {
            return Err(JournalFault::Full(section));
        }
        Ok((tally.rows, tally.bytes, value.encode_size() as u32 + 4))
    }

    // Where the rows end that a restore keeps.
    fn restored_end(&self, section: u64, bytes: u64) -> Result<usize, JournalFault>
        ensures { result ≡ answered (restore_fault (K.Key.WIDTH + 28) (held K.DecodedKey.decoding self.now) section bytes) (length (log_bytes (cut section_in section (bytes / (K.Key.WIDTH + 28)) (rows_in K.Key.WIDTH self.now.bytes.now)))) }
    {
        let size = record_size::<K>() as u64;
        let tally = tally_of::<K>(self.bytes, section);
        if tally.rows * size < bytes || bytes % size != 0 {
            return Err(JournalFault::Restore(section));
        }
        Ok(cut_end::<K>(self.bytes, section, bytes / size))
    }
}

impl<'a, K: DecodedKey, V: Value> Journal<K, V> for LogJournal<'a, K> {
    ghost use Rattle.log_journal.specs.Held.{has_space, held};

    ghost means = { held K.DecodedKey.decoding };

    ghost space = { λ j section. has_space j };

    ghost lent = { λ j. j.bytes.ghost_name ∷ [] };

    fn fits(&self, section: u64, value: &V) -> bool {
        self.has_place(tally_of::<K>(self.bytes, section), value)
    }

    fn append(
        &mut self,
        section: u64,
        key: &K,
        next: Place,
        value: &V,
    ) -> Result<(u64, u64, u32), JournalFault> {
        let answer = self.place(section, value)?;
        let end = self.used + row_size::<K, V>(value);
        write_row(&mut self.bytes[self.used..end], section, key, next, value);
        self.used = end;
        Ok(answer)
    }

    fn get(&self, place: Place) -> Result<Record<K>, JournalFault> {
        record_at::<K>(self.bytes, place).ok_or(JournalFault::NoRow(place))
    }

    fn value(&self, cursor: Cursor) -> Result<V, JournalFault> {
        value_at::<K, V>(self.bytes, cursor)
    }

    fn size(&self, section: u64) -> u64 {
        tally_of::<K>(self.bytes, section).rows * record_size::<K>() as u64
    }

    fn value_end(&self, section: u64) -> u64 {
        tally_of::<K>(self.bytes, section).bytes
    }

    fn highest(&self) -> Option<u64> {
        highest::<K>(self.bytes)
    }

    fn sync(&mut self, first: u64, last: u64) {}

    fn restore(&mut self, section: u64, bytes: u64) -> Result<(), JournalFault> {
        let kept = self.restored_end(section, bytes)?;
        fill_part(self.bytes, kept, self.used, 0);
        self.used = kept;
        Ok(())
    }

    fn clear(&mut self) {
        fill_part(self.bytes, 0, self.used, 0);
        self.used = 0;
    }
}
