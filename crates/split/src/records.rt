// The records of a section.
#![tactic(auto, using(crate::proofs::Found::places))]

ghost use Rattle.std.specs.Prelude.{◌≡◌, ◌+◌, ◌*◌, ◌<◌, ◌≤◌, length, get_or, take, drop};
ghost use Rattle.split.specs.Directory.{Rising, Rising-prop};
ghost use Rattle.split.specs.Places.{has_place, offsets, sizes};

use crate::sorted::Sorted;
use codec::Number;

// As many as the rows, width + 28 bytes each, where keys have the width; value offsets rise.
#[derive(Clone, Copy)]
pub struct Records<'a> {
    pub bytes: &'a [u8],
    pub width: usize,
    pub rows: usize,
    ghost narrow: { width ≤ 64 },
    ghost all: { rows * (width + 28) ≤ length bytes.now },
    ghost rising: { Rising 0 (offsets width rows bytes.now) } by { Rising-prop 0 (offsets width rows bytes.now) },
}

impl<'a> Sorted for Records<'a> {
    ghost numbers = { λ r. offsets r.width r.rows r.bytes.now };

    ghost rise = { λ r. r.rising };

    fn count(&self) -> usize {
        self.rows
    }

    fn number(&self, at: usize) -> u64 {
        self.offset(at)
    }
}

impl<'a> Records<'a> {
    // The record of a row.
    pub fn at(&self, row: usize) -> &'a [u8]
        requires { row < self.now.rows }
        ensures { result.now ≡ take (self.now.width + 28) (drop (row * (self.now.width + 28)) self.now.bytes.now) }
    {
        let size = self.width + 28;
        let at = row * size;
        &self.bytes[at..at + size]
    }

    // Where its value begins.
    pub fn offset(&self, row: usize) -> u64
        requires { row < self.now.rows }
        ensures { result ≡ get_or (offsets self.now.width self.now.rows self.now.bytes.now) row 0 }
    {
        let at = self.width + 16;
        u64::take(&self.at(row)[at..at + 8])
    }

    // The size of its stored value.
    fn size(&self, row: usize) -> u32
        requires { row < self.now.rows }
        ensures { result ≡ get_or (sizes self.now.width self.now.rows self.now.bytes.now) row 0 }
    {
        let at = self.width + 24;
        u32::take(&self.at(row)[at..at + 4])
    }

    // Has a row its value at this offset, of this size?
    pub fn has_place(&self, offset: u64, size: u32) -> bool
        ensures { result ≡ has_place offset size (offsets self.now.width self.now.rows self.now.bytes.now) (sizes self.now.width self.now.rows self.now.bytes.now) }
    {
        let row = self.before(offset);
        row < self.rows && self.offset(row) == offset && self.size(row) == size
    }
}
