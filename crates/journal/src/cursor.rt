// The bytes of a cursor.
ghost use Rattle.std.specs.Prelude.{◌≡◌, length};
ghost use Rattle.journal.specs.Layouts.{cursor_bytes, cursor_read};

use crate::fault::Cursor;
use codec::Number;

impl Cursor {
    pub fn encode(&self, out: &mut [u8])
        requires { length out.old ≡ 20 }
        ensures written { out.new ≡ cursor_bytes self.now }
        ensures back { cursor_read out.new ≡ self.now }
    {
        self.section.put(&mut out[0..8]);
        self.offset.put(&mut out[8..16]);
        self.size.put(&mut out[16..20]);
    }

    pub fn decode(from: &[u8]) -> Cursor
        requires { length from.now ≡ 20 }
        ensures value { result ≡ cursor_read from.now }
        ensures back { cursor_bytes result ≡ from.now }
    {
        Cursor {
            section: u64::take(&from[0..8]),
            offset: u64::take(&from[8..16]),
            size: u32::take(&from[16..20]),
        }
    }
}
