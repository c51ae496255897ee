// What stops a making.
ghost use Rattle.std.specs.Prelude.{◌≡◌};
ghost use Rattle.codec.specs.Faults.{number_of};

// One case today; a kind to come may have others.
#[derive(Clone, Copy, PartialEq, Eq, Debug)]
pub enum KindFault {
    // These days or bytes are no value of the kind.
    NoValue,
}

impl KindFault {
    // The number by which the project knows the refusal; the enum is what code goes by.
    pub fn number(&self) -> u8
        ensures { result ≡ number_of self.now }
    {
        match self {
            KindFault::NoValue => 18,
        }
    }
}
