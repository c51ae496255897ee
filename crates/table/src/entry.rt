// An entry of the table, 29 bytes: where the newest row of a chain lies, since which epoch, and how many rows were added
// to the chain since its pair was last moved.
ghost use Rattle.std.specs.Prelude.{◌≡◌, length};
ghost use Rattle.table.specs.Entries.{checks, entry, entry_bytes, entry_check, entry_read, failing, is_empty, of_epoch, whole};

use codec::Number;
use crc32c::checksum;

#[derive(Clone, Copy, PartialEq, Eq, Debug)]
pub struct Entry {
    pub epoch: u64,
    pub section: u64,
    pub position: u64,
    pub added: u8,
    pub crc: u32,
}

// The empty entry: all bytes zero.
pub const EMPTY: Entry = Entry {
    epoch: 0,
    section: 0,
    position: 0,
    added: 0,
    crc: 0,
};

impl Entry {
    // The whole entry of these numbers.
    pub fn new(epoch: u64, section: u64, position: u64, added: u8) -> Entry
        ensures { result ≡ entry epoch section position added }
    {
        let entry = Entry {
            epoch,
            section,
            position,
            added,
            crc: 0,
        };
        Entry {
            crc: entry.compute_crc(),
            ..entry
        }
    }

    // The check of all that stands before it: the first 25 bytes.
    fn compute_crc(&self) -> u32
        ensures { result ≡ entry_check self.now.epoch self.now.section self.now.position self.now.added }
    {
        let mut bytes = [0u8; 29];
        self.encode(&mut bytes);
        checksum(&bytes[0..25])
    }

    pub fn is_empty(&self) -> bool
        ensures { result ≡ is_empty self.now }
    {
        *self == EMPTY
    }

    // Not empty, and of this epoch.
    pub(crate) fn is_of(&self, epoch: u64) -> bool
        ensures { result ≡ of_epoch epoch self.now }
    {
        !self.is_empty() && self.epoch == epoch
    }

    fn checks(&self) -> bool
        ensures { result ≡ checks self.now }
    {
        self.crc == self.compute_crc()
    }

    // Whole: not empty, and its check is right.
    pub fn is_valid(&self) -> bool
        ensures { result ≡ whole self.now }
    {
        !self.is_empty() && self.checks()
    }

    // Failing: neither empty nor whole.
    pub fn is_failing(&self) -> bool
        ensures { result ≡ failing self.now }
    {
        !self.is_empty() && !self.checks()
    }

    pub fn encode(&self, out: &mut [u8])
        requires { length out.old ≡ 29 }
        ensures written { out.new ≡ entry_bytes self.now }
        ensures back { entry_read out.new ≡ self.now }
    {
        self.epoch.put(&mut out[0..8]);
        self.section.put(&mut out[8..16]);
        self.position.put(&mut out[16..24]);
        self.added.put(&mut out[24..25]);
        self.crc.put(&mut out[25..29]);
    }

    pub fn decode(from: &[u8]) -> Entry
        requires { length from.now ≡ 29 }
        ensures value { result ≡ entry_read from.now }
        ensures back { entry_bytes result ≡ from.now }
    {
        Entry {
            epoch: u64::take(&from[0..8]),
            section: u64::take(&from[8..16]),
            position: u64::take(&from[16..24]),
            added: u8::take(&from[24..25]),
            crc: u32::take(&from[25..29]),
        }
    }
}
