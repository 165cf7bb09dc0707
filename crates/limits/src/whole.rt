// Limits in whole time: none, or `<=` a number of ticks.
ghost use Rattle.differences.specs.Bounds.{whole};
ghost use Rattle.limits.specs.Apart.{one_whole};
ghost use Rattle.limits.specs.Kinds.{of_whole};
ghost use Rattle.differences.proofs.Arithmetic.{laws};
ghost use Rattle.std.proofs.Common.{rules};

use crate::limit::Limit;
use differences::{Fault, Ticks};
use std::fmt;

// The derived order is that of what they say: by the number, and no limit is the greatest. (In an `Option` the `None`
// would be the smallest.)
#[derive(Clone, Copy, PartialEq, Eq, PartialOrd, Ord, Debug)]
pub enum WholeLimit {
    Bound(Ticks),
    Free,
}

impl Limit for WholeLimit {
    ghost time = { whole };

    ghost bound = { of_whole };

    ghost lawful = { laws whole };

    ghost proper = { Prim.search rules };

    ghost within = { Prim.search rules };

    ghost one = { one_whole };

    // What the derived order says, too, in a form that costs less.
    fn at_most(self, other: WholeLimit) -> bool {
        let WholeLimit::Bound(a) = self else {
            return matches!(other, WholeLimit::Free);
        };
        let WholeLimit::Bound(b) = other else {
            return true;
        };
        a.count() <= b.count()
    }

    fn sum(self, other: WholeLimit) -> Result<WholeLimit, Fault> {
        let WholeLimit::Bound(a) = self else {
            return Ok(WholeLimit::Free);
        };
        let WholeLimit::Bound(b) = other else {
            return Ok(WholeLimit::Free);
        };
        Ok(WholeLimit::Bound(a.plus(b)?))
    }

    fn none() -> WholeLimit {
        WholeLimit::Free
    }

    fn up_to(ticks: Ticks) -> WholeLimit {
        WholeLimit::Bound(ticks)
    }

    fn below(ticks: Ticks) -> Result<WholeLimit, Fault> {
        Ok(WholeLimit::Bound(Ticks::new(ticks.count() - 1)?))
    }

    fn ticks(self) -> Option<i64> {
        match self {
            WholeLimit::Bound(ticks) => Some(ticks.count()),
            WholeLimit::Free => None,
        }
    }

    fn is_strict(self) -> bool {
        false
    }
}

impl fmt::Display for WholeLimit {
    ghost use Rattle.std.specs.Prelude.{Some};
    ghost use Rattle.limits.specs.Shown.{limit_text};

    ghost output = { λ l. Some (limit_text (of_whole l)) };

    fn fmt<W: fmt::Write>(&self, f: &mut fmt::Formatter<W>) -> fmt::Result {
        match self {
            WholeLimit::Bound(ticks) => write!(f, "<={}", ticks.count()),
            WholeLimit::Free => f.write_str("-"),
        }
    }
}
