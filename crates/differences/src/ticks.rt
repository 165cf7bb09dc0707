// A whole number of ticks that a limit can hold.
ghost use Rattle.std.specs.Prelude.{◌≡◌, ◌<◌, ◌≤◌, pos, ◌+ℤ◌, IfOk, unsigned_abs};
ghost use Rattle.differences.specs.Refusals.{refusal, Refused, Accepted};

use crate::fault::Fault;

// The largest number that a limit can hold.
const LARGEST: u64 = 4_000_000_000;

// At most 4,000,000,000 ticks in size.
#[derive(Clone, Copy, PartialEq, Eq, PartialOrd, Ord, Debug)]
pub struct Ticks {
    count: i64,
    ghost bounded: { unsigned_abs count ≤ 4000000000 },
}

impl Ticks {
    pub fn new(count: i64) -> Result<Ticks, Fault>
        ensures refusal { Refused 16 (4000000000 < unsigned_abs count) Accepted (refusal result) }
        ensures value { IfOk result (λ t. t.count ≡ count) }
    {
        if count.unsigned_abs() > LARGEST {
            return Err(Fault::BeyondReach);
        }
        Ok(Ticks { count })
    }

    pub fn zero() -> Ticks
        ensures { result.count ≡ pos 0 }
    {
        Ticks { count: 0 }
    }

    pub fn plus(self, other: Ticks) -> Result<Ticks, Fault>
        ensures refusal { Refused 16 (4000000000 < unsigned_abs (self.count +ℤ other.count)) Accepted (refusal result) }
        ensures value { IfOk result (λ t. t.count ≡ self.count +ℤ other.count) }
    {
        Ticks::new(self.count + other.count)
    }

    pub fn count(self) -> i64
        ensures { result ≡ self.count }
    {
        self.count
    }
}
