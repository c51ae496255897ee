// Each journal through one script of calls, in memory that is exactly full and a byte short, and a log opened over damage.
use codec::{Sealed, Serial, Window};
use journal::{
    Cursor, Journal, JournalFault, Place, append_and_read, restore_whole, row_count, write_row,
};
use log_journal::LogJournal;
use split::{Section, SplitJournal};
use std::test::Fail;

// Unlike an assertion, what fails here is answered.
fn check(holds: bool, what: &'static str) -> Result<(), Fail> {
    if holds { Ok(()) } else { Err(Fail::new(what)) }
}

// The window from a day to day 1,000.
fn window(first: u8) -> Window {
    Window::new(first as u64, 1000)
}

fn at(section: u64, position: u64) -> Place {
    Place { section, position }
}

// Appends the window from day `first` under serial `first`.
fn put<J: Journal<Serial, Window>>(
    journal: &mut J,
    section: u64,
    next: Place,
    first: u8,
) -> Result<(u64, u64, u32), JournalFault> {
    let key = Serial {
        value: first as u64,
    };
    journal.append(section, &key, next, &window(first))
}

// Is the row of serial `first` at a place, with this next place, and its value at this offset?
fn holds<J: Journal<Serial, Window>>(
    journal: &J,
    place: Place,
    first: u8,
    next: Place,
    offset: u64,
) -> bool {
    let Ok(record) = journal.get(place) else {
        return false;
    };
    let cursor = Cursor {
        section: place.section,
        offset,
        size: 20,
    };
    record.key.value == first as u64
        && record.next == next
        && record.value_offset == offset
        && record.value_size == 20
        && journal.value(cursor) == Ok(window(first))
}

// The record bytes and the stored bytes of a section.
fn sizes<J: Journal<Serial, Window>>(journal: &J, section: u64) -> (u64, u64) {
    (journal.size(section), journal.value_end(section))
}

// Two rows in section 2 and two in section 5, each with the one before it as its next, and no place for a fifth.
fn filled<J: Journal<Serial, Window>>(journal: &mut J) -> Result<(), Fail> {
    check(put(journal, 2, Place::NONE, 1) == Ok((0, 0, 20)), "row 1")?;
    check(put(journal, 2, at(2, 0), 2) == Ok((1, 20, 20)), "row 2")?;
    check(put(journal, 5, at(2, 1), 3) == Ok((0, 0, 20)), "row 3")?;
    check(put(journal, 5, at(5, 0), 4) == Ok((1, 20, 20)), "row 4")
}

// All four rows are there, and nothing else.
fn all<J: Journal<Serial, Window>>(journal: &J) -> Result<(), Fail> {
    check(journal.highest() == Some(5), "the highest section")?;
    check(sizes(journal, 2) == (72, 40), "the sizes of section 2")?;
    check(sizes(journal, 3) == (0, 0), "the sizes of section 3")?;
    check(sizes(journal, 5) == (72, 40), "the sizes of section 5")?;
    check(holds(journal, at(2, 0), 1, Place::NONE, 0), "row (2, 0)")?;
    check(holds(journal, at(2, 1), 2, at(2, 0), 20), "row (2, 1)")?;
    check(holds(journal, at(5, 0), 3, at(2, 1), 0), "row (5, 0)")?;
    check(holds(journal, at(5, 1), 4, at(5, 0), 20), "row (5, 1)")
}

// No refusal changes a row: 13, also where the row would not fit, 10, 14, 16 and 7.
fn refused<J: Journal<Serial, Window>>(journal: &mut J) -> Result<(), Fail> {
    for section in [0, 2, 4] {
        let below = put(journal, section, Place::NONE, 9);
        check(below == Err(JournalFault::Below(section)), "13")?;
    }
    for section in [5, 6, u64::MAX] {
        check(!journal.fits(section, &window(9)), "a fifth row fits")?;
        let full = put(journal, section, Place::NONE, 9);
        check(full == Err(JournalFault::Full(section)), "10")?;
    }
    for place in [at(2, 2), at(3, 0), at(5, 2), at(6, 0), Place::NONE] {
        let none = journal.get(place).err();
        check(none == Some(JournalFault::NoRow(place)), "14")?;
    }
    for (section, offset, size) in [
        (2, 1, 20),
        (2, 0, 19),
        (2, 0, 40),
        (3, 0, 20),
        (5, 40, 20),
        (6, 0, 0),
    ] {
        let cursor = Cursor {
            section,
            offset,
            size,
        };
        check(
            journal.value(cursor) == Err(JournalFault::NoValue(cursor)),
            "16",
        )?;
    }
    for (section, bytes) in [(5, 71), (5, 1), (5, 108), (3, 36), (u64::MAX, u64::MAX)] {
        let torn = journal.restore(section, bytes);
        check(torn == Err(JournalFault::Restore(section)), "7")?;
    }
    all(journal)
}

// A restore keeps the earlier sections and the stated rows, and drops the rest.
fn restored<J: Journal<Serial, Window>>(journal: &mut J) -> Result<(), Fail> {
    check(journal.restore(5, 72) == Ok(()), "a restore to all rows")?;
    all(journal)?;
    check(
        restore_whole(journal, 5) == Ok(()),
        "a restore to the own size",
    )?;
    all(journal)?;
    check(row_count(journal, 5) == 2, "the rows of section 5")?;
    check(journal.restore(5, 36) == Ok(()), "a restore to one row")?;
    check(sizes(journal, 5) == (36, 20), "one row of section 5")?;
    check(holds(journal, at(5, 0), 3, at(2, 1), 0), "row (5, 0) kept")?;
    let gone = journal.get(at(5, 1)).err();
    check(
        gone == Some(JournalFault::NoRow(at(5, 1))),
        "row (5, 1) dropped",
    )?;
    check(
        put(journal, 5, at(2, 0), 6) == Ok((1, 20, 20)),
        "a row again",
    )?;
    check(holds(journal, at(5, 1), 6, at(2, 0), 20), "the row again")?;
    check(journal.restore(5, 0) == Ok(()), "a restore to no row")?;
    check(
        journal.highest() == Some(2),
        "section 2 is the highest again",
    )?;
    check(sizes(journal, 2) == (72, 40), "section 2 whole")?;
    check(journal.restore(2, 36) == Ok(()), "a restore of section 2")?;
    check(row_count(journal, 2) == 1, "the row of section 2")?;
    check(
        holds(journal, at(2, 0), 1, Place::NONE, 0),
        "row (2, 0) kept",
    )?;
    check(
        put(journal, 3, at(2, 0), 7) == Ok((0, 0, 20)),
        "a row in section 3",
    )?;
    check(
        journal.restore(2, 0) == Ok(()),
        "a restore of an earlier section",
    )?;
    check(journal.highest().is_none(), "no section has rows")
}

// A row is read again where it was appended, and a clear drops all.
fn cleared<J: Journal<Serial, Window>>(journal: &mut J) -> Result<(), Fail> {
    let key = Serial { value: 8 };
    match append_and_read(journal, 7, &key, at(1, 2), &window(8)) {
        Ok((record, value)) => {
            check(record.key == key && record.next == at(1, 2), "the record")?;
            check(value == window(8), "the value")?;
        }
        Err(_) => return Err(Fail::new("a row was refused")),
    }
    journal.clear();
    check(
        journal.highest().is_none(),
        "a section has rows after a clear",
    )?;
    check(sizes(journal, 7) == (0, 0), "sizes after a clear")?;
    let gone = journal.get(at(7, 0)).err();
    check(
        gone == Some(JournalFault::NoRow(at(7, 0))),
        "a row after a clear",
    )
}

// The whole script, for an empty journal with space for four rows in two sections.
fn script<J: Journal<Serial, Window>>(journal: &mut J) -> Result<(), Fail> {
    check(
        journal.highest().is_none(),
        "an empty journal has a highest section",
    )?;
    check(sizes(journal, 2) == (0, 0), "an empty journal has bytes")?;
    filled(journal)?;
    all(journal)?;
    refused(journal)?;
    journal.sync(0, 5);
    all(journal)?;
    restored(journal)?;
    cleared(journal)?;
    filled(journal)?;
    all(journal)
}

// 18: the bytes of a sealed value are no window.
fn other_kind<J: Journal<Serial, Sealed> + Journal<Serial, Window>>(
    journal: &mut J,
) -> Result<(), Fail> {
    let key = Serial { value: 1 };
    let sealed = Sealed::new(&[7; 5]);
    let placed = <J as Journal<Serial, Sealed>>::append(journal, 0, &key, Place::NONE, &sealed);
    check(placed == Ok((0, 0, 9)), "a sealed value is placed")?;
    let cursor = Cursor {
        section: 0,
        offset: 0,
        size: 9,
    };
    let read = <J as Journal<Serial, Window>>::value(journal, cursor);
    check(read == Err(JournalFault::Kind(Some(cursor))), "18")
}

const NO_SECTION: Section = Section {
    number: 0,
    first_row: 0,
    first_byte: 0,
    rows: 0,
    bytes: 0,
};

// A row of a window takes 58 bytes.
#[test]
fn log_script(_rt: HostRuntime) -> Result<(), Fail> {
    let mut bytes = [0u8; 4 * 58];
    let mut journal = LogJournal::<Serial>::open(&mut bytes);
    script(&mut journal)
}

// A record takes 36 bytes, and a stored window 20.
#[test]
fn split_script(_rt: HostRuntime) -> Result<(), Fail> {
    let mut records = [1u8; 4 * 36];
    let mut values = [2u8; 4 * 20];
    let mut directory = [NO_SECTION; 2];
    let mut journal = SplitJournal::<Serial>::new(&mut records, &mut values, &mut directory);
    script(&mut journal)
}

#[test]
fn other_kinds(_rt: HostRuntime) -> Result<(), Fail> {
    let mut bytes = [0u8; 100];
    other_kind(&mut LogJournal::<Serial>::open(&mut bytes))?;
    let mut records = [0u8; 36];
    let mut values = [0u8; 9];
    let mut directory = [NO_SECTION; 1];
    other_kind(&mut SplitJournal::<Serial>::new(&mut records, &mut values, &mut directory))
}

// How many rows fit into one section, of four.
fn fitting<J: Journal<Serial, Window>>(journal: &mut J) -> u64 {
    let mut rows = 0u64;
    for first in 1..5u8 {
        let fits = journal.fits(3, &window(first));
        match put(journal, 3, Place::NONE, first) {
            Ok(_) if fits => rows = rows.saturating_add(1),
            Err(fault) if !fits && fault == JournalFault::Full(3) => {}
            _ => return 99,
        }
    }
    rows
}

fn fitting_log(bytes: &mut [u8]) -> u64 {
    fitting(&mut LogJournal::<Serial>::open(bytes))
}

fn fitting_split(records: &mut [u8], values: &mut [u8], directory: &mut [Section]) -> u64 {
    fitting(&mut SplitJournal::<Serial>::new(records, values, directory))
}

// Memory that is exactly full, and a byte, or an entry, short.
#[test]
fn room(rt: HostRuntime) {
    assert_eq!(rt; fitting_log(&mut [0u8; 174]), 3);
    assert_eq!(rt; fitting_log(&mut [0u8; 173]), 2);
    assert_eq!(rt;
        fitting_split(&mut [0u8; 108], &mut [0u8; 60], &mut [NO_SECTION; 1]),
        3
    );
    assert_eq!(rt;
        fitting_split(&mut [0u8; 107], &mut [0u8; 60], &mut [NO_SECTION; 1]),
        2
    );
    assert_eq!(rt;
        fitting_split(&mut [0u8; 108], &mut [0u8; 59], &mut [NO_SECTION; 1]),
        2
    );
    assert_eq!(rt;
        fitting_split(&mut [0u8; 108], &mut [0u8; 60], &mut [NO_SECTION; 0]),
        0
    );
}

// Two rows of section 3, in 116 bytes, and four zeros.
fn two_rows() -> [u8; 120] {
    let mut log = [0u8; 120];
    write_row(
        &mut log[0..58],
        3,
        &Serial { value: 1 },
        Place::NONE,
        &window(1),
    );
    write_row(
        &mut log[58..116],
        3,
        &Serial { value: 2 },
        at(3, 0),
        &window(2),
    );
    log
}

// Opens a log: is row (3, 0) as it was, is row (3, 1), and which sizes has section 3?
fn opened(bytes: &mut [u8]) -> (bool, bool, (u64, u64)) {
    let journal = LogJournal::<Serial>::open(bytes);
    (
        holds(&journal, at(3, 0), 1, Place::NONE, 0),
        holds(&journal, at(3, 1), 2, at(3, 0), 20),
        sizes(&journal, 3),
    )
}

// What a damaged byte of a log's last row leaves of it.
#[derive(Clone, Copy, PartialEq, Eq, Debug)]
enum Left {
    // The row is dropped, and its bytes are zeroed.
    Nothing,
    // It stands in another section.
    Elsewhere,
    // It stands where it stood, with another key or next place.
    Changed,
}

// By the byte's place in the row.
fn left_of(at: usize) -> Left {
    match at {
        // The section, but for its last byte, which falls below the first row's when its lowest bit is turned.
        2..9 => Left::Elsewhere,
        10..34 => Left::Changed,
        _ => Left::Nothing,
    }
}

// One bit of each byte of the last row is turned, one at a time: the first row stays, and the second is kept if it is
// still a good row.
#[test]
fn damaged(rt: HostRuntime) {
    let whole = two_rows();
    let mut log = whole;
    assert_eq!(rt; opened(&mut log), (true, true, (72, 40)));
    assert!(rt; log == whole);
    for place in 0..58usize {
        let mut log = whole;
        log[58 + place] ^= 1;
        let damaged = log;
        let (first, second, sizes) = opened(&mut log);
        assert!(rt; first && !second);
        match left_of(place) {
            Left::Nothing => {
                assert_eq!(rt; sizes, (36, 20));
                assert!(rt; log[0..58] == whole[0..58] && log[58..120] == [0u8; 62]);
            }
            Left::Elsewhere => {
                assert_eq!(rt; sizes, (36, 20));
                assert!(rt; log == damaged);
            }
            Left::Changed => {
                assert_eq!(rt; sizes, (72, 40));
                assert!(rt; log == damaged);
            }
        }
    }
}
