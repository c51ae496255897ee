// A stored value: its encoding, then its check.
ghost use Rattle.std.specs.Prelude.{◌≡◌, ◌+◌, length, Some, Ok};
ghost use Rattle.journal.specs.Rows.{stored_of, value_there};

use crate::fault::{Cursor, JournalFault};
use codec::{Number, Value};
use crc32c::checksum;

// Fills `out` with a value and its check. Reading it at any place gives the value.
pub fn write_stored<V: Value>(out: &mut [u8], value: &V)
    requires { length out.old ≡ length (V.encoding value.now) + 4 }
    ensures written { out.new ≡ stored_of (V.encoding value.now) }
    ensures back { (c : Cursor) → value_there V.decoding c (Some out.new) ≡ Ok value.now }
{
    let size = value.encode_size();
    value.encode(&mut out[0..size]);
    let check = checksum(&out[0..size]);
    check.put(&mut out[size..size + 4]);
}

// The value of stored bytes at a place: 16 where they are too few for a check, 17 where the check is wrong, 18 where they
// are no value of the kind. A value that is read is stored as these bytes.
pub fn read_stored<V: Value>(stored: &[u8], place: Cursor) -> Result<V, JournalFault>
    ensures answer { result ≡ value_there V.decoding place (Some stored.now) }
    ensures back { (v : V) → result ≡ Ok v → stored_of (V.encoding v) ≡ stored.now }
{
    if stored.len() < 4 {
        return Err(JournalFault::NoValue(place));
    }
    let (encoding, check) = stored.split_at(stored.len() - 4);
    let check = u32::take(check);
    let own = checksum(encoding);
    if own != check {
        return Err(JournalFault::Check(check, own));
    }
    V::decode(encoding).ok_or(JournalFault::Kind(Some(place)))
}
