// A row's record: its key, the place of the next row of its chain, and where its value lies in the section.
ghost use Rattle.std.specs.Prelude.{◌≡◌, ◌+◌, length};
ghost use Rattle.journal.specs.Layouts.{RecordFits, record_encoding, record_with};

use crate::place::Place;
use codec::{Key, Number};

// The next place is `Place::NONE` in the last row of a chain.
#[derive(Drop)]
pub struct Record<K> {
    pub key: K,
    pub next: Place,
    pub value_offset: u64,
    pub value_size: u32,
}

// How many bytes the record of a key takes.
pub fn record_size<K: Key>() -> usize
    ensures { result ≡ K.Key.WIDTH + 28 }
{
    K::WIDTH + 28
}

// Fills `out` with the record of these parts. `Record::encode` calls it; a key that is only borrowed stands in no record.
pub fn write_record<K: Key>(
    out: &mut [u8],
    key: &K,
    next: Place,
    value_offset: u64,
    value_size: u32,
)
    requires { length out.old ≡ K.Key.WIDTH + 28 }
    ensures { out.new ≡ record_encoding K.Key.bytes (record_with key.now next.section next.position value_offset value_size) }
{
    let wide = K::WIDTH;
    key.encode(&mut out[0..wide]);
    next.section.put(&mut out[wide..wide + 8]);
    next.position.put(&mut out[wide + 8..wide + 16]);
    value_offset.put(&mut out[wide + 16..wide + 24]);
    value_size.put(&mut out[wide + 24..wide + 28]);
}

impl<K: Key> Record<K> {
    pub fn encode(&self, out: &mut [u8])
        requires { length out.old ≡ K.Key.WIDTH + 28 }
        ensures { out.new ≡ record_encoding K.Key.bytes self.now }
    {
        write_record(
            out,
            &self.key,
            self.next,
            self.value_offset,
            self.value_size,
        );
    }

    // The record that bytes write: it encodes to them again, and no other does.
    pub fn decode(from: &[u8]) -> Record<K>
        requires { length from.now ≡ K.Key.WIDTH + 28 }
        ensures back { record_encoding K.Key.bytes result ≡ from.now }
        ensures one { (s : Record K) → RecordFits s → record_encoding K.Key.bytes s ≡ from.now → result ≡ s }
    {
        let wide = K::WIDTH;
        Record {
            key: K::decode(&from[0..wide]),
            next: Place {
                section: u64::take(&from[wide..wide + 8]),
                position: u64::take(&from[wide + 8..wide + 16]),
            },
            value_offset: u64::take(&from[wide + 16..wide + 24]),
            value_size: u32::take(&from[wide + 24..wide + 28]),
        }
    }
}
