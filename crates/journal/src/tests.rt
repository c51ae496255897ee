// A reader over short, cut and damaged logs; records, cursors and stored values.
use crate::{
    Cursor, LogReader, Place, Record, RowView, Step, read_stored, row_size, write_row, write_stored,
};
use codec::{Key, Serial, Value, Window};

// One row of 58 bytes: serial 7, the window 5 to 9, in section 3, with no next.
fn one_row() -> [u8; 58] {
    let mut log = [0u8; 58];
    write_row(
        &mut log,
        3,
        &Serial { value: 7 },
        Place::NONE,
        &Window::new(5, 9),
    );
    log
}

fn first_step(log: &[u8]) -> Step<'_> {
    let mut reader = LogReader::<Serial>::new(log);
    reader.step()
}

// What may go to another thread, and be read there, handed back.
fn across<T: Send + Sync + Drop>(thing: T) -> T {
    thing
}

// A step may, whatever the kind of keys.
fn step_across<'a, K: Key>(reader: &mut LogReader<'a, K>) -> Step<'a> {
    across(reader.step())
}

#[test]
fn crosses(rt: HostRuntime) {
    let log = one_row();
    let mut reader = LogReader::<Serial>::new(&log);
    assert!(rt; matches!(step_across(&mut reader), Step::Row { at: 0, .. }));
    assert!(rt; matches!(step_across(&mut reader), Step::Blank { at: 58 }));
}

// Which of section, key, next section, next position and value differ from the row's own; none where no row is shown.
fn differs(log: &[u8]) -> Option<[bool; 5]> {
    let own = one_row();
    match first_step(log) {
        Step::Row { row, .. } => Some([
            row.section != 3,
            row.key != &own[10..18],
            row.next.section != u64::MAX,
            row.next.position != u64::MAX,
            row.value != &own[38..54],
        ]),
        _ => None,
    }
}

// The example of docs/FORMATS.md.
#[test]
fn laid_out(rt: HostRuntime) {
    let bytes = [
        0x46, 0x5a, 0, 0, 0, 0, 0, 0, 0, 3, 0, 0, 0, 0, 0, 0, 0, 7, 0xff, 0xff, 0xff, 0xff, 0xff,
        0xff, 0xff, 0xff, 0xff, 0xff, 0xff, 0xff, 0xff, 0xff, 0xff, 0xff, 0, 0, 0, 0x10, 0, 0, 0,
        0, 0, 0, 0, 5, 0, 0, 0, 0, 0, 0, 0, 9, 0x10, 0x33, 0x55, 0x5d,
    ];
    assert!(rt; one_row() == bytes);
}

#[test]
fn cut(rt: HostRuntime) {
    let log = one_row();
    assert_eq!(rt; row_size::<Serial, Window>(&Window::new(5, 9)), 58);
    for len in 0..2usize {
        assert!(rt; matches!(first_step(&log[0..len]), Step::Blank { at: 0 }));
    }
    for len in 2..58usize {
        assert!(rt; matches!(first_step(&log[0..len]), Step::Spoiled { at: 0 }));
    }
    assert_eq!(rt; differs(&log), Some([false; 5]));
}

#[test]
fn flipped(rt: HostRuntime) {
    // Where each part of the row begins, and what a flipped byte of it shows: one part changed, or a spoiled tail.
    let parts: [(usize, Option<[bool; 5]>); 6] = [
        (0, None),
        (2, Some([true, false, false, false, false])),
        (10, Some([false, true, false, false, false])),
        (18, Some([false, false, true, false, false])),
        (26, Some([false, false, false, true, false])),
        (34, None),
    ];
    for at in 0..58usize {
        let mut shows = None;
        for (from, part) in parts {
            if at >= from {
                shows = part;
            }
        }
        let mut log = one_row();
        log[at] ^= 1;
        assert_eq!(rt; differs(&log), shows);
    }
}

#[test]
fn falling(rt: HostRuntime) {
    let mut log = [0u8; 120];
    write_row(
        &mut log[0..58],
        3,
        &Serial { value: 7 },
        Place::NONE,
        &Window::new(5, 9),
    );
    write_row(
        &mut log[58..116],
        2,
        &Serial { value: 8 },
        Place {
            section: 3,
            position: 0,
        },
        &Window::new(6, 9),
    );
    let mut reader = LogReader::<Serial>::new(&log);
    assert!(rt;
        matches!(
            reader.step(),
            Step::Row {
                at: 0,
                row: RowView { section: 3, .. },
            }
        )
    );
    assert!(rt; matches!(reader.step(), Step::Spoiled { at: 58 }));
    assert!(rt; matches!(reader.step(), Step::Spoiled { at: 58 }));
    let mut rows = LogReader::<Serial>::new(&log);
    assert_eq!(rt; rows.next().map(|row| row.size()), Some(58));
    assert!(rt; rows.next().is_none());
    log[67] = 3;
    let mut reader = LogReader::<Serial>::new(&log);
    assert!(rt;
        matches!(
            reader.step(),
            Step::Row {
                at: 0,
                row: RowView { section: 3, .. },
            }
        )
    );
    assert!(rt;
        matches!(
            reader.step(),
            Step::Row {
                at: 58,
                row: RowView {
                    section: 3,
                    next: Place {
                        section: 3,
                        position: 0,
                    },
                    ..
                },
            }
        )
    );
    assert!(rt; matches!(reader.step(), Step::Blank { at: 116 }));
    assert!(rt; matches!(reader.step(), Step::Blank { at: 116 }));
}

#[test]
fn records(rt: HostRuntime) {
    let record = Record {
        key: Serial { value: 7 },
        next: Place {
            section: 1,
            position: 2,
        },
        value_offset: 3,
        value_size: 4,
    };
    let mut bytes = [0u8; 36];
    record.encode(&mut bytes);
    assert!(rt;
        bytes[7] == 7 && bytes[15] == 1 && bytes[23] == 2 && bytes[31] == 3 && bytes[35] == 4
    );
    let back = Record::<Serial>::decode(&bytes);
    assert!(rt; back.key.value == 7 && back.next.section == 1 && back.next.position == 2);
    assert!(rt; back.value_offset == 3 && back.value_size == 4);
    let mut room = [0u8; 20];
    Cursor {
        section: 1,
        offset: 2,
        size: 3,
    }
    .encode(&mut room);
    let cursor = Cursor::decode(&room);
    assert_eq!(rt; (cursor.section, cursor.offset, cursor.size), (1, 2, 3));
}

// The number of what stops a reading, or none.
fn stopped(stored: &[u8]) -> Option<u8> {
    let place = Cursor {
        section: 0,
        offset: 0,
        size: 0,
    };
    read_stored::<Window>(stored, place)
        .err()
        .map(|fault| fault.number())
}

// A stored window of 20 bytes, cut at every length and with a byte flipped at every offset.
#[test]
fn stored(rt: HostRuntime) {
    let mut bytes = [0u8; 20];
    write_stored(&mut bytes, &Window::new(5, 9));
    assert_eq!(rt; stopped(&bytes), None);
    for len in 0..20usize {
        // Its first four bytes are zero, which is the check of no bytes.
        let number = if len < 4 {
            16
        } else if len == 4 {
            18
        } else {
            17
        };
        assert_eq!(rt; stopped(&bytes[0..len]), Some(number));
    }
    for at in 0..20usize {
        let mut other = bytes;
        other[at] ^= 1;
        assert_eq!(rt; stopped(&other), Some(17));
    }
    assert_eq!(rt; stopped(&[0u8; 4]), Some(18));
}
