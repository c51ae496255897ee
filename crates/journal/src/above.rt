// What holds above every journal: each function asks only what the trait promises.
ghost use Rattle.std.specs.Prelude.{◌≡◌, ℕ, ◌+◌, ◌*◌, ◌≤◌, length, is_ok, Ok, nat_lt};
ghost use Rattle.journal.specs.Above.{append_and_read_lem};
ghost use Rattle.journal.specs.Answers.{append_after, get_answer, size_answer};
ghost use Rattle.journal.specs.Rows.{apply, restore};

use crate::fault::{Cursor, JournalFault};
use crate::place::Place;
use crate::record::{Record, record_size};
use crate::store::Journal;
use codec::{Key, Value};

// An append, then get and value at the place that it answered: they give back the key, the next place and the value.
pub fn append_and_read<K: Key, V: Value, J: Journal<K, V>>(
    journal: &mut J,
    section: u64,
    key: &K,
    next: Place,
    value: &V,
) -> Result<(Record<K>, V), JournalFault>
    ensures answer { result ≡ append_and_read_lem (K.Key.WIDTH + 28) (J.means journal.old) (J.space journal.old section (length (V.Value.encoding value.now))) section key.now next.section next.position (V.Value.encoding value.now) value.now }
    ensures after { J.means journal.new ≡ append_after (K.Key.WIDTH + 28) (J.means journal.old) (J.space journal.old section (length (V.Value.encoding value.now))) section key.now next.section next.position (V.Value.encoding value.now) }
    ensures same { J.lent journal.new ≡ J.lent journal.old }
{
    let (position, offset, size) = journal.append(section, key, next, value)?;
    let record = journal.get(Place { section, position }).unwrap();
    let read = journal
        .value(Cursor {
            section,
            offset,
            size,
        })
        .unwrap();
    Ok((record, read))
}

// A restore of a section at its own size keeps each row of it and of the earlier ones.
pub fn restore_whole<K: Key, V: Value, J: Journal<K, V>>(
    journal: &mut J,
    section: u64,
) -> Result<(), JournalFault>
    ensures answer { result ≡ Ok tt }
    ensures after { J.means journal.new ≡ apply (K.Key.WIDTH + 28) (J.means journal.old) (restore section (size_answer (K.Key.WIDTH + 28) (J.means journal.old) section)) }
    ensures kept { (i : ℕ) → i ≤ section → (J.means journal.new).rows i ≡ (J.means journal.old).rows i }
    ensures same { J.lent journal.new ≡ J.lent journal.old }
{
    let bytes = journal.size(section);
    journal.restore(section, bytes)
}

// The rows of a section: those whose record bytes `size` counts, and those that `get` reaches.
pub fn row_count<K: Key, V: Value, J: Journal<K, V>>(journal: &J, section: u64) -> u64
    ensures rows { result ≡ length ((J.means journal.now).rows section) }
    ensures counted { result * (K.Key.WIDTH + 28) ≡ size_answer (K.Key.WIDTH + 28) (J.means journal.now) section }
    ensures reached { (p : ℕ) → is_ok (get_answer (J.means journal.now) section p) ≡ nat_lt p result }
{
    journal.size(section) / record_size::<K>() as u64
}
