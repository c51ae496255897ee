// What one step of a reader shows, and where it stands.
use crate::row::RowView;

// Not an Option: a blank and a spoiled tail are told apart. The rows alone are `LogReader` as an iterator.
#[derive(Clone, Copy)]
pub enum Step<'a> {
    Row { at: usize, row: RowView<'a> },
    // Fewer than two bytes are left, or two zero bytes stand here.
    Blank { at: usize },
    // Another mark, a short row, a falling section, a value above 4,096 bytes or a wrong check.
    Spoiled { at: usize },
}
