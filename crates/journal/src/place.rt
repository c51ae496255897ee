// The place of a row.
ghost use Rattle.std.specs.Prelude.{◌≡◌};
ghost use Rattle.journal.specs.Places.{row_of};

// A section, and a position in it.
#[derive(Clone, Copy, PartialEq, Eq, Debug)]
pub struct Place {
    pub section: u64,
    pub position: u64,
}

impl Place {
    // No row: the next place of the last row of a chain.
    pub const NONE: Place = Place {
        section: u64::MAX,
        position: u64::MAX,
    };

    // The place, where it is one.
    pub fn row(self) -> Option<Place>
        ensures { result ≡ row_of self }
    {
        if self == Place::NONE {
            None
        } else {
            Some(self)
        }
    }
}
