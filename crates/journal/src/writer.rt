// One row of a log.
ghost use Rattle.std.specs.Prelude.{◌≡◌, ◌+◌, length};
ghost use Rattle.journal.specs.Log.{Writable, head_bytes, log_row, row_bytes, row_len, tail_bytes};

use crate::place::Place;
use codec::{Key, Number, Value};
use crc32c::checksum;

// How many bytes the row of a value takes.
pub fn row_size<K: Key, V: Value>(value: &V) -> usize
    ensures { result ≡ row_len K.Key.WIDTH (length (V.Value.encoding value.now)) }
{
    34 + K::WIDTH + value.encode_size()
}

// Fills `out` with one row.
pub fn write_row<K: Key, V: Value>(out: &mut [u8], section: u64, key: &K, next: Place, value: &V)
    requires { length out.old ≡ row_len K.Key.WIDTH (length (V.Value.encoding value.now)) }
    ensures written { out.new ≡ row_bytes (log_row section (K.Key.bytes key.now) next.section next.position (V.Value.encoding value.now)) }
    ensures writable { Writable K.Key.WIDTH (log_row section (K.Key.bytes key.now) next.section next.position (V.Value.encoding value.now)) }
{
    let head = 26 + K::WIDTH;
    let end = out.len();
    write_head(&mut out[0..head], section, key, next);
    write_tail(&mut out[head..end], value);
}

// The mark, the section, the key and the next place.
fn write_head<K: Key>(out: &mut [u8], section: u64, key: &K, next: Place)
    requires { length out.old ≡ 26 + K.WIDTH }
    ensures { out.new ≡ head_bytes section (K.bytes key.now) next.section next.position }
{
    let wide = K::WIDTH;
    out[0..2].copy_from_slice(&[0x46, 0x5a]);
    section.put(&mut out[2..10]);
    key.encode(&mut out[10..10 + wide]);
    next.section.put(&mut out[10 + wide..18 + wide]);
    next.position.put(&mut out[18 + wide..26 + wide]);
}

// The value with its length and its check.
fn write_tail<V: Value>(out: &mut [u8], value: &V)
    requires { length out.old ≡ 8 + length (V.encoding value.now) }
    ensures { out.new ≡ tail_bytes (V.encoding value.now) }
{
    let size = value.encode_size();
    (size as u32).put(&mut out[0..4]);
    value.encode(&mut out[4..4 + size]);
    let check = checksum(&out[4..4 + size]);
    check.put(&mut out[4 + size..8 + size]);
}
