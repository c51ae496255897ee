// What stops a table.
ghost use Rattle.std.specs.Prelude.{◌≡◌};
ghost use Rattle.table.specs.Faults.{table_number};

#[derive(Clone, Copy, PartialEq, Eq, Debug)]
pub enum TableFault {
    // More entries than the table's most.
    TooMany,
    // An entry past the table's end, with its index.
    PastEnd(u64),
}

impl TableFault {
    // The number by which the project knows the refusal; the enum is what code goes by.
    pub fn number(&self) -> u8
        ensures { result ≡ table_number self.now }
    {
        match self {
            TableFault::TooMany => 8,
            TableFault::PastEnd(_) => 19,
        }
    }
}
