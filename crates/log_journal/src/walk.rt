// Questions to the good rows at the front of some bytes.
ghost use Rattle.std.specs.Prelude.{◌≡◌, ◌+◌, ◌*◌, ◌≤◌, ◌++◌, length, drop, Some};
ghost use Rattle.journal.specs.Answers.{highest_answer, record_there};
ghost use Rattle.journal.specs.Flat.{cut};
ghost use Rattle.journal.specs.Rows.{row_at, stored_of, value_answer, value_end, value_there};
ghost use Rattle.journal.specs.Log.{Rising, log_bytes};
ghost use Rattle.log_journal.specs.Kept.{keeps_row, log_end, log_means, rows_in, section_in};

use codec::{DecodedKey, Key, Value};
use journal::{Cursor, JournalFault, LogReader, Place, Record};

// How many bytes the rows take. The bytes in front are theirs, and each is a row that could be written there.
pub fn end<K: Key>(log: &[u8]) -> usize
    ensures end { result ≡ log_end K.Key.WIDTH log.now }
    ensures front { log.now ≡ log_bytes (rows_in K.Key.WIDTH log.now) ++ drop result log.now }
    ensures rising { Rising K.Key.WIDTH 0 (rows_in K.Key.WIDTH log.now) }
{
    LogReader::<K>::new(log).map(|row| row.size()).sum()
}

// How many rows a section has, and how many bytes their stored values.
#[derive(Clone, Copy)]
pub struct Tally {
    pub rows: u64,
    pub bytes: u64,
}

pub fn tally_of<K: DecodedKey>(log: &[u8], section: u64) -> Tally
    ensures rows { result.rows ≡ length ((log_means K.DecodedKey.decoding K.Key.WIDTH log.now).rows section) }
    ensures bytes { result.bytes ≡ value_end (log_means K.DecodedKey.decoding K.Key.WIDTH log.now) section }
    ensures within { result.rows * (K.Key.WIDTH + 28) + result.bytes ≤ length log.now }
{
    let mut tally = Tally { rows: 0, bytes: 0 };
    for row in LogReader::<K>::new(log) {
        if row.section == section {
            tally.rows += 1;
            tally.bytes += row.value.len() as u64 + 4;
        }
    }
    tally
}

// The highest section with rows.
pub fn highest<K: DecodedKey>(log: &[u8]) -> Option<u64>
    ensures { result ≡ highest_answer (log_means K.DecodedKey.decoding K.Key.WIDTH log.now) }
{
    LogReader::<K>::new(log).last().map(|row| row.section)
}

// The record at a position of a section.
pub fn record_at<K: DecodedKey>(log: &[u8], place: Place) -> Option<Record<K>>
    ensures { result ≡ record_there ((log_means K.DecodedKey.decoding K.Key.WIDTH log.now).rows place.section) place.position (row_at ((log_means K.DecodedKey.decoding K.Key.WIDTH log.now).rows place.section) place.position) }
{
    let mut left = place.position;
    let mut offset = 0;
    for row in LogReader::<K>::new(log) {
        if row.section != place.section {
            continue;
        }
        let size = row.value.len() as u32 + 4;
        if left == 0 {
            return Some(Record {
                key: K::decode(row.key),
                next: row.next,
                value_offset: offset,
                value_size: size,
            });
        }
        left -= 1;
        offset += size as u64;
    }
    None
}

// The value at a cursor.
pub fn value_at<K: DecodedKey, V: Value>(log: &[u8], cursor: Cursor) -> Result<V, JournalFault>
    ensures { result ≡ value_answer V.Value.decoding (log_means K.DecodedKey.decoding K.Key.WIDTH log.now) cursor }
{
    let mut offset = 0;
    for row in LogReader::<K>::new(log) {
        if row.section != cursor.section {
            continue;
        }
        let size = row.value.len() as u64 + 4;
        if offset == cursor.offset && size == cursor.size as u64 {
            return read_value(row.value, cursor);
        }
        offset += size;
    }
    Err(JournalFault::NoValue(cursor))
}

// The value of bytes whose check is right. Not `read_stored`: the check stands apart, and the reader has compared it.
fn read_value<V: Value>(value: &[u8], place: Cursor) -> Result<V, JournalFault>
    ensures { result ≡ value_there V.Value.decoding place (Some (stored_of value.now)) }
{
    V::decode(value).ok_or(JournalFault::Kind(Some(place)))
}

// Where the rows end that a restore keeps: those of earlier sections, and the first `rows` of a section.
pub fn cut_end<K: Key>(log: &[u8], section: u64, rows: u64) -> usize
    ensures { result ≡ length (log_bytes (cut section_in section rows (rows_in K.Key.WIDTH log.now))) }
{
    let mut left = rows;
    let mut end = 0;
    for row in LogReader::<K>::new(log) {
        let Some(rest) = keeps(section, left, row.section) else {
            return end;
        };
        left = rest;
        end += row.size();
    }
    end
}

// How many more rows of a section are kept once a row is, or none where that row is dropped.
fn keeps(section: u64, left: u64, own: u64) -> Option<u64>
    ensures { result ≡ keeps_row section left own }
{
    if own < section {
        Some(left)
    } else if own == section && 0 < left {
        Some(left - 1)
    } else {
        None
    }
}
