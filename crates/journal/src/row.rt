// A row as it stands in a log. Key and value are parts of the log: of at most 64 bytes the one, of at most 4,096 the other.
ghost use Rattle.std.specs.Prelude.{◌≡◌, ◌≤◌, length};

use crate::place::Place;

#[derive(Clone, Copy)]
pub struct RowView<'a> {
    pub section: u64,
    pub key: &'a [u8],
    pub next: Place,
    pub value: &'a [u8],
    pub ghost key_most: { length key.now ≤ 64 },
    pub ghost value_most: { length value.now ≤ 4096 },
}

impl<'a> RowView<'a> {
    ghost use Rattle.journal.specs.Log.{row_len};

    // How many bytes the row takes.
    pub fn size(&self) -> usize
        ensures { result ≡ row_len (length self.now.key.now) (length self.now.value.now) }
    {
        34 + self.key.len() + self.value.len()
    }
}
