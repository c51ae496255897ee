// A journal in lent bytes.
use crate::LogJournal;
use codec::{Serial, Window};
use journal::{Cursor, Journal, JournalFault, Place, write_row};

// One row of 58 bytes: serial 7, the window 5 to 9, in section 3, with no next.
fn one_row() -> [u8; 58] {
    let mut log = [0u8; 58];
    write_row(
        &mut log,
        3,
        &Serial { value: 7 },
        Place::NONE,
        &Window::new(5, 9),
    );
    log
}

fn at(section: u64, position: u64) -> Place {
    Place { section, position }
}

// What a call answers, a refusal by its number.
fn numbered<T: Drop>(answer: Result<T, JournalFault>) -> Result<T, u8> {
    answer.map_err(|fault| fault.number())
}

// The highest section, and the sizes of section 3.
fn sizes<J: Journal<Serial, Window>>(journal: &J) -> (Option<u64>, u64, u64) {
    (journal.highest(), journal.size(3), journal.value_end(3))
}

// The same of a journal that is opened over some bytes.
fn opened(bytes: &mut [u8]) -> (Option<u64>, u64, u64) {
    let journal = LogJournal::<Serial>::open(bytes);
    sizes(&journal)
}

// A good row is kept, and a spoiled one is zeroed.
#[test]
fn reopened(rt: HostRuntime) {
    let mut bytes = one_row();
    assert_eq!(rt; opened(&mut bytes), (Some(3), 36, 20));
    assert!(rt; bytes == one_row());
    bytes[57] ^= 1;
    assert_eq!(rt; opened(&mut bytes), (None, 0, 0));
    assert!(rt; bytes == [0u8; 58]);
}

#[test]
fn appended(rt: HostRuntime) {
    let mut bytes = [0u8; 120];
    let mut journal = LogJournal::<Serial>::open(&mut bytes);
    let key = Serial { value: 7 };
    let value = Window::new(5, 9);
    assert_eq!(rt; sizes(&journal), (None, 0, 0));
    assert!(rt; journal.fits(3, &value));
    assert_eq!(rt;
        numbered(journal.append(3, &key, at(1, 2), &value)),
        Ok((0, 0, 20))
    );
    assert_eq!(rt;
        numbered(journal.append(2, &key, at(1, 2), &value)),
        Err(13)
    );
    assert_eq!(rt;
        numbered(journal.append(3, &key, at(3, 0), &value)),
        Ok((1, 20, 20))
    );
    assert_eq!(rt;
        numbered(journal.append(3, &key, at(1, 2), &value)),
        Err(10)
    );
    assert_eq!(rt; sizes(&journal), (Some(3), 72, 40));
}

// What is kept of a row of serial 7 and the window 5 to 9: the next place and the value's place, and the window again.
fn found<J: Journal<Serial, Window>>(journal: &J, position: u64) -> Option<(u64, u64, bool)> {
    let Ok(record) = journal.get(at(3, position)) else {
        return None;
    };
    let place = Cursor {
        section: 3,
        offset: record.value_offset,
        size: record.value_size,
    };
    let same = journal.value(place) == Ok(Window::new(5, 9));
    Some((
        record.next.section,
        record.value_offset,
        same && record.key.value == 7,
    ))
}

#[test]
fn restored(rt: HostRuntime) {
    let mut bytes = [0u8; 120];
    let mut journal = LogJournal::<Serial>::open(&mut bytes);
    let key = Serial { value: 7 };
    let value = Window::new(5, 9);
    assert!(rt; journal.append(3, &key, at(1, 2), &value).is_ok());
    assert!(rt; journal.append(3, &key, at(3, 0), &value).is_ok());
    assert_eq!(rt; found(&journal, 1), Some((3, 20, true)));
    assert_eq!(rt; found(&journal, 2), None);
    assert_eq!(rt; cut_back(&mut journal), [Err(7), Err(7), Ok(())]);
    assert_eq!(rt; found(&journal, 0), Some((1, 0, true)));
    assert_eq!(rt; found(&journal, 1), None);
}

// Cuts section 3 back to one row of 36 bytes, and says what half a row, three rows and one were refused with.
fn cut_back<J: Journal<Serial, Window>>(journal: &mut J) -> [Result<(), u8>; 3] {
    [
        numbered(journal.restore(3, 18)),
        numbered(journal.restore(3, 108)),
        numbered(journal.restore(3, 36)),
    ]
}

#[test]
fn cleared(rt: HostRuntime) {
    let mut bytes = one_row();
    let mut journal = LogJournal::<Serial>::open(&mut bytes);
    wipe(&mut journal);
    assert_eq!(rt; sizes(&journal), (None, 0, 0));
}

fn wipe<J: Journal<Serial, Window>>(journal: &mut J) {
    journal.sync(0, 3);
    journal.clear();
}
