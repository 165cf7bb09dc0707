// What an arithmetic of limits offers, and the laws that it owes.
ghost use Rattle.std.specs.Prelude.{◌≡◌, ◌≤◌, false};
ghost use Rattle.differences.specs.Bounds.{Bound, Time, Proper, at_most, add, none, upto, nought, size, Large, less_than, arithmetic};
ghost use Rattle.differences.specs.Laws.{Laws};
ghost use Rattle.differences.specs.Refusals.{refusal, Refused, Accepted};
ghost use Rattle.limits.specs.Answers.{Bounds, number_of, strict_of};

use differences::{Fault, Ticks};

// A limit on the difference of two readings: none, or a number of ticks that the difference is below or at most.
pub trait Limit: Copy {
    // the kind of time whose limits these are
    ghost time: { Time };

    // what a limit says
    ghost bound: { Self → Bound };

    fn at_most(self, other: Self) -> bool
        ensures { result ≡ at_most (bound self) (bound other) };

    fn sum(self, other: Self) -> Result<Self, Fault>
        ensures refusal { Refused 16 (Large (add (bound self) (bound other))) Accepted (refusal result) }
        ensures value { Bounds bound (add (bound self) (bound other)) result };

    // no limit
    fn none() -> Self
        ensures { bound result ≡ none };

    // `<=0`
    fn zero() -> Self
        ensures { bound result ≡ nought }
    {
        Self::up_to(Ticks::zero())
    }

    fn up_to(ticks: Ticks) -> Self
        ensures { bound result ≡ upto ticks.count false };

    // `<ticks`, which whole time reads as `<=ticks-1`
    fn below(ticks: Ticks) -> Result<Self, Fault>
        ensures refusal { Refused 16 (Large (less_than time ticks.count)) Accepted (refusal result) }
        ensures value { Bounds bound (less_than time ticks.count) result };

    // The number of ticks, or nothing where there is no limit.
    fn ticks(self) -> Option<i64>
        ensures { result ≡ number_of (bound self) };

    // Is this `<` and not `<=`?
    fn is_strict(self) -> bool
        ensures { result ≡ strict_of (bound self) };

    ghost lawful: { Laws (arithmetic time) };

    ghost proper: { (a : Self) → Proper time (bound a) };

    ghost within: { (a : Self) → size (bound a) ≤ 4000000000 };

    // no two values say the same
    ghost one: { (a b : Self) → bound a ≡ bound b → a ≡ b };
}
