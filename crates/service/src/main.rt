// The service job: lays out a log of windows for some serials in two sections, reads it back, damages one byte of one
// value, and reads again; then an entry of the table, whole and damaged.
#![tactic(auto)]

ghost use Rattle.std.specs.Prelude.{◌≡◌};
ghost use Rattle.service.specs.Append.{append_after, append_answer};

use anyhow::anyhow;
use codec::{Key, Serial, Value, Window};
use journal::{LogReader, Place, Step, row_size, write_row};
use std::fmt;
use table::Entry;

// A window that a serial gets, and the place of the row before it in its chain.
#[derive(Clone, Copy)]
struct Term {
    section: u64,
    serial: u64,
    first: u64,
    end: u64,
    next: Place,
}

impl fmt::Display for Term {
    fn fmt<W: fmt::Write>(&self, f: &mut fmt::Formatter<W>) -> fmt::Result {
        let Term {
            section,
            serial,
            first,
            end,
            next,
        } = *self;
        write!(
            f,
            "section {section}, serial {serial}, days {first} to {end}, "
        )?;
        match next.row() {
            None => write!(f, "no next"),
            Some(place) => write!(f, "next ({}, {})", place.section, place.position),
        }
    }
}

// Writes a term's row at `at` and answers how long it is; none, and nothing written, where its days are no window or
// the log ends too soon.
fn append(log: &mut [u8], at: usize, term: &Term) -> Option<usize>
    ensures answer { result ≡ append_answer log.old at term.now }
    ensures after { log.new ≡ append_after log.old at term.now result }
{
    Window::check(term.first, term.end).ok()?;
    let window = Window::new(term.first, term.end);
    let size = row_size::<Serial, Window>(&window);
    if at > log.len() || log.len() - at < size {
        return None;
    }
    let key = Serial { value: term.serial };
    write_row(
        &mut log[at..at + size],
        term.section,
        &key,
        term.next,
        &window,
    );
    Some(size)
}

fn lay_out(rt: &impl Print, log: &mut [u8], terms: &[Term]) -> anyhow::Result<()> {
    let mut at = 0usize;
    for term in terms {
        let Some(size) = append(log, at, term) else {
            return Err(anyhow!("a term is no window, or the log is full"));
        };
        println!(rt; "  row at {at}, {size} bytes: {term}")?;
        at = at.saturating_add(size);
    }
    Ok(())
}

fn read_back(rt: &impl Print, log: &[u8]) -> anyhow::Result<()> {
    let mut reader = LogReader::<Serial>::new(log);
    let mut at = 0usize;
    for row in reader.by_ref() {
        let serial: Serial = <Serial as Key>::decode(row.key);
        let Some(window) = <Window as Value>::decode(row.value) else {
            return Err(anyhow!("a value is no window"));
        };
        let term = Term {
            section: row.section,
            serial: serial.value,
            first: window.first(),
            end: window.end(),
            next: row.next,
        };
        println!(rt; "  row at {at}: {term}")?;
        at = at.saturating_add(row.size());
    }
    match reader.step() {
        Step::Row { .. } => Ok(()),
        Step::Blank { at } => Ok(println!(rt; "  blank from {at} on")?),
        Step::Spoiled { at } => Ok(println!(rt; "  spoiled tail from {at} on")?),
    }
}

// Prints 29 bytes of the table and what they are.
fn show_entry(rt: &impl Print, bytes: &[u8; 29]) -> anyhow::Result<()> {
    print!(rt; " ")?;
    for b in bytes {
        print!(rt; " {b:02x}")?;
    }
    let entry = Entry::decode(bytes);
    let state = if entry.is_valid() {
        "whole"
    } else if entry.is_failing() {
        "failing"
    } else {
        "empty"
    };
    println!(rt; ": {state}")?;
    Ok(())
}

// An entry of the table, whole and with one byte damaged.
fn entries(rt: &impl Print) -> anyhow::Result<()> {
    let mut bytes = [0u8; 29];
    println!(rt; "an entry of the table: none yet")?;
    show_entry(rt, &bytes)?;
    println!(rt; "the chain head of serial 1001: epoch 1, row (1, 0), 2 rows added")?;
    Entry::new(1, 1, 0, 2).encode(&mut bytes);
    show_entry(rt, &bytes)?;
    println!(rt; "damage byte 15, in its section")?;
    bytes[15] ^= 0x01;
    show_entry(rt, &bytes)
}

fn run(rt: &impl Print) -> anyhow::Result<()> {
    let terms = [
        Term {
            section: 0,
            serial: 1001,
            first: 20,
            end: 50,
            next: Place::NONE,
        },
        Term {
            section: 0,
            serial: 1002,
            first: 30,
            end: 60,
            next: Place::NONE,
        },
        Term {
            section: 1,
            serial: 1001,
            first: 50,
            end: 80,
            next: Place {
                section: 0,
                position: 0,
            },
        },
        Term {
            section: 1,
            serial: 1003,
            first: 10,
            end: 90,
            next: Place::NONE,
        },
    ];
    let mut log = [0u8; 256];
    println!(rt; "lay out a log of 256 bytes")?;
    lay_out(rt, &mut log, &terms)?;
    println!(rt; "read it back")?;
    read_back(rt, &log)?;
    println!(rt; "damage byte 160, in the value of the row at 116")?;
    log[160] ^= 0x01;
    println!(rt; "read it again")?;
    read_back(rt, &log)?;
    entries(rt)
}

fn main(rt: HostRuntime) -> anyhow::Result<()> {
    run(&rt)
}
