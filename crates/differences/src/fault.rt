// Why a call on limits or on a table of readings is refused.
ghost use Rattle.std.specs.Prelude.{◌≡◌};
ghost use Rattle.differences.specs.Refusals.{fault_number};

#[derive(Clone, Copy, PartialEq, Eq, Debug)]
pub enum Fault {
    // a constant outside 0 to 16,000,000 ticks
    OutOfRange,
    // nothing meets the condition
    Empty,
    // a number is larger than a sum, or a table, can hold
    BeyondReach,
    // no clock of that number
    NoSuchClock,
}

impl Fault {
    // The number by which the refusal is told.
    pub fn number(self) -> u8
        ensures { result ≡ fault_number self }
    {
        match self {
            Fault::OutOfRange => 5,
            Fault::Empty => 15,
            Fault::BeyondReach => 16,
            Fault::NoSuchClock => 20,
        }
    }
}
