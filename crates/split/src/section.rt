// An entry of a section directory: a section with rows, where its records and its stored values begin, and how many
// rows and stored bytes it has.
#[derive(Clone, Copy)]
pub struct Section {
    pub number: u64,
    pub first_row: u64,
    pub first_byte: u64,
    pub rows: u64,
    pub bytes: u64,
}
