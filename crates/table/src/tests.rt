// Entries damaged byte by byte, and both tables through one script.
ghost use Rattle.std.specs.Prelude.{◌≡◌, ◌≤◌, length, slice_set};
ghost use Rattle.table.specs.Entries.{empty};
ghost use Rattle.table.specs.Lent.{entries_in};

use crate::{
    ByteTable, EMPTY, Entry, Head, StagedTable, Table, TableFault, read_latest_entry, read_table,
};
use std::test::Fail;

#[test]
fn damaged(rt: HostRuntime) {
    let whole = Entry::new(5, 1, 2, 3);
    let mut bytes = [0u8; 29];
    assert!(rt; EMPTY.is_empty() && Entry::decode(&bytes).is_empty());
    whole.encode(&mut bytes);
    assert!(rt; whole.is_valid() && !whole.is_failing());
    assert_eq!(rt; Entry::decode(&bytes), whole);
    for at in 0..29usize {
        let mut other = bytes;
        other[at] ^= 0x10;
        let entry = Entry::decode(&other);
        assert!(rt; entry.is_failing() && !entry.is_valid() && !entry.is_empty());
        assert_eq!(rt; read_latest_entry(&entry, &whole), Head::Latest(whole));
    }
    assert_eq!(rt;
        read_latest_entry(&whole, &Entry::new(5, 1, 9, 9)),
        Head::Equal
    );
    assert_eq!(rt; read_latest_entry(&whole, &EMPTY), Head::Latest(whole));
    assert_eq!(rt; read_latest_entry(&EMPTY, &EMPTY), Head::Vacant);
}

// Unlike an assertion, what fails here is answered, and no helper needs a handle.
fn check(holds: bool) -> Result<(), Fail> {
    if holds {
        Ok(())
    } else {
        Err(Fail::new("the table answered something else"))
    }
}

// Counts at their limits.
fn limits<T: Table>(table: &mut T) -> Result<(), Fail> {
    let most = table.most();
    check(table.resize(u64::MAX) == Err(TableFault::TooMany))?;
    check(table.resize(most.saturating_add(1)) == Err(TableFault::TooMany))?;
    check(table.resize(most) == Ok(()))?;
    check(table.len() == most)?;
    check(table.write(most, EMPTY) == Err(TableFault::PastEnd(most)))?;
    check(table.read(u64::MAX) == Err(TableFault::PastEnd(u64::MAX)))?;
    check(table.resize(0) == Ok(()))?;
    check(read_table(table, 0) == Err(TableFault::PastEnd(0)))
}

// What is written is read, a resize drops it, and entries that are added are empty.
fn script<T: Table>(table: &mut T) -> Result<(), Fail> {
    let one = Entry::new(1, 0, 7, 1);
    let two = Entry::new(2, 0, 8, 2);
    check(table.resize(4) == Ok(()))?;
    check(table.write(2, one) == Ok(()))?;
    check(table.write(3, two) == Ok(()))?;
    check(read_table(table, 1) == Ok((one, two)))?;
    check(table.resize(3) == Ok(()))?;
    check(read_table(table, 1) == Err(TableFault::PastEnd(3)))?;
    check(table.resize(4) == Ok(()))?;
    check(read_table(table, 1) == Ok((one, EMPTY)))?;
    check(read_table(table, 0) == Ok((EMPTY, EMPTY)))?;
    table.sync();
    check(table.read(2) == Ok(one))
}

// 200 bytes are six entries and 26 bytes more.
#[test]
fn bytes(rt: HostRuntime) -> Result<(), Fail> {
    let mut bytes = [0u8; 200];
    assert_eq!(rt; ByteTable::check(&bytes, 7), Err(TableFault::TooMany));
    ByteTable::check(&bytes, 0)?;
    let mut table = ByteTable::new(&mut bytes, 0);
    assert_eq!(rt; table.most(), 6);
    limits(&mut table)?;
    script(&mut table)?;
    assert_eq!(rt; bytes[29 * 2 + 7], 1);
    assert_eq!(rt; TableFault::TooMany.number(), 8);
    assert_eq!(rt; TableFault::PastEnd(3).number(), 19);
    Ok(())
}

#[test]
fn staged(rt: HostRuntime) -> Result<(), Fail> {
    let mut working = [EMPTY; 6];
    let mut durable = [EMPTY; 5];
    let old = Entry::new(9, 9, 9, 9);
    durable[0] = old;
    assert_eq!(rt;
        StagedTable::check(&working, &durable, 6),
        Err(TableFault::TooMany)
    );
    StagedTable::check(&working, &durable, 1)?;
    let mut table = StagedTable::new(&mut working, &mut durable, 1);
    assert_eq!(rt; table.read(0), Ok(old));
    limits(&mut table)?;
    script(&mut table)?;
    assert_eq!(rt; durable[2], Entry::new(1, 0, 7, 1));
    assert_eq!(rt; durable[3], EMPTY);
    assert_eq!(rt; durable[0], EMPTY);
    Ok(())
}

// What was not synced is not among the durable entries.
#[test]
fn unsynced(rt: HostRuntime) {
    let mut working = [EMPTY; 2];
    let mut durable = [EMPTY; 2];
    let mut table = StagedTable::new(&mut working, &mut durable, 2);
    assert_eq!(rt; table.write(0, Entry::new(1, 0, 7, 1)), Ok(()));
    assert_eq!(rt; durable[0], EMPTY);
}

// Whoever lent the bytes knows what they hold once the table is let go.
fn lent_back(bytes: &mut [u8]) -> bool
    requires { 58 ≤ length bytes.old }
    ensures { entries_in 2 bytes.new ≡ slice_set (entries_in 2 bytes.old) 1 empty }
{
    let mut table = ByteTable::new(bytes, 2);
    table.write(1, EMPTY).is_ok()
}

#[test]
fn lent(rt: HostRuntime) {
    let mut bytes = [7u8; 60];
    assert!(rt; lent_back(&mut bytes));
    assert_eq!(rt; (bytes[28], bytes[29], bytes[57], bytes[58]), (7, 0, 0, 7));
}
