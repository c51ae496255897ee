// Reading a log, row by row.
ghost use Rattle.std.specs.Prelude.{◌≡◌, ℕ, ◌+◌, ◌≤◌, cond, List, ◌++◌, length, drop, replicate, Some, None, IfSome};
ghost use Rattle.std.specs.Option.{option_map};
ghost use Rattle.journal.specs.Log.{KeyWide, LogRow, Rising, Shows, at_after, blank, is_row, last_after, log_bytes, look, row_len, row_of, row_shown, rows_in, shown, stands};

use crate::place::Place;
use crate::row::RowView;
use crate::step::Step;
use codec::{Key, Number};
use crc32c::checksum;
use std::marker::PhantomData;

// Stands over a log of keys of one kind, in front of the next row, which is at `at`: each step says where it stands.
#[derive(Drop)]
pub struct LogReader<'a, K> {
    log: &'a [u8],
    at: usize,
    last: u64,
    kind: PhantomData<K>,
    ghost ok: { at ≤ length log.now },
}

impl<'a, K: Key> LogReader<'a, K> {
    ghost use Rattle.journal.specs.Left.{rows_left};

    pub fn new(log: &'a [u8]) -> LogReader<'a, K>
        ensures log { result.log.now ≡ log.now }
        ensures at { result.at ≡ 0 }
        ensures last { result.last ≡ 0 }
        ensures left { rows_left K.Key.WIDTH result ≡ rows_in K.Key.WIDTH log.now }
        ensures rows { (rows : List LogRow) (zeros : ℕ) → Rising K.Key.WIDTH 0 rows → log.now ≡ log_bytes rows ++ replicate zeros 0 → Shows K.Key.WIDTH result.log.now result.last result.at rows (blank (length (log_bytes rows))) }
    {
        LogReader {
            log,
            at: 0,
            last: 0,
            kind: PhantomData,
        }
    }

    pub fn step(&mut self) -> Step<'a>
        ensures shown { shown result ≡ look K.Key.WIDTH self.old.last self.old.at (drop self.old.at self.old.log.now) }
        ensures key { KeyWide K.Key.WIDTH (shown result) }
        ensures at { self.new.at ≡ at_after K.Key.WIDTH (shown result) }
        ensures last { self.new.last ≡ last_after self.old.last (shown result) }
        ensures log { self.new.log.now ≡ self.old.log.now }
    {
        let step = look(&self.log[self.at..], K::WIDTH, self.last, self.at);
        if let Step::Row { row, .. } = &step {
            self.at += row.size();
            self.last = row.section;
        }
        step
    }
}

// The rows, one after the other, up to the first place that shows none, where the reader stays.
impl<'a, K: Key> Iterator for LogReader<'a, K> {
    ghost use Rattle.std.specs.Iterator.{item_count};
    ghost use Rattle.journal.specs.Left.{GivesRow, rows_left};

    type Item = RowView<'a>;

    ghost next_gives = { GivesRow K.Key.WIDTH };

    ghost remaining = { item_count (rows_left K.Key.WIDTH) };

    fn next(&mut self) -> Option<RowView<'a>> {
        match self.step() {
            Step::Row { row, .. } => Some(row),
            _ => None,
        }
    }
}

// Reads the front of `rest`, which stands at `at`.
fn look<'a>(rest: &'a [u8], width: usize, last: u64, at: usize) -> Step<'a>
    requires { width ≤ 64 }
    ensures shown { shown result ≡ look width last at rest.now }
    ensures key { KeyWide width (shown result) }
    ensures stands { stands (shown result) ≡ at }
    ensures within { at_after width (shown result) ≤ at + length rest.now }
{
    if rest.len() < 2 || rest[0] == 0 && rest[1] == 0 {
        return Step::Blank { at };
    }
    match good_row(rest, width, last) {
        Some(row) => Step::Row { at, row },
        None => Step::Spoiled { at },
    }
}

// The good row that `rest` begins with, if it does.
fn good_row<'a>(rest: &'a [u8], width: usize, last: u64) -> Option<RowView<'a>>
    requires { width ≤ 64 }
    ensures row { option_map row_shown result ≡ cond (is_row width last rest.now) (Some (row_of width rest.now)) None }
    ensures key { IfSome result (λ v. length v.key.now ≡ width) }
    ensures within { IfSome result (λ v. row_len width (length v.value.now) ≤ length rest.now) }
{
    if rest.len() < 34 + width || rest[0] != 0x46 || rest[1] != 0x5a {
        return None;
    }
    let section = u64::take(&rest[2..10]);
    let size = u32::take(&rest[26 + width..30 + width]) as usize;
    if section < last || size > 4096 || rest.len() < 34 + width + size {
        return None;
    }
    let value = &rest[30 + width..30 + width + size];
    let check = u32::take(&rest[30 + width + size..34 + width + size]);
    if check != checksum(value) {
        return None;
    }
    Some(RowView {
        section,
        key: &rest[10..10 + width],
        next: Place {
            section: u64::take(&rest[10 + width..18 + width]),
            position: u64::take(&rest[18 + width..26 + width]),
        },
        value,
    })
}
