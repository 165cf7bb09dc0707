// Limits in fine time: none, `<` or `<=` a number of ticks.
ghost use Rattle.differences.specs.Bounds.{fine};
ghost use Rattle.limits.specs.Apart.{one_fine};
ghost use Rattle.limits.specs.Kinds.{of_fine};
ghost use Rattle.differences.proofs.Arithmetic.{laws};
ghost use Rattle.std.proofs.Common.{rules};

use crate::limit::Limit;
use differences::{Fault, Ticks};
use std::fmt;

// `<` or `<=`. At equal numbers `<` is the smaller limit.
#[derive(Clone, Copy, PartialEq, Eq, PartialOrd, Ord, Debug)]
pub enum Mark {
    Less,
    AtMost,
}

impl fmt::Display for Mark {
    ghost use Rattle.std.specs.Prelude.{Some};
    ghost use Rattle.limits.specs.Kinds.{is_less};
    ghost use Rattle.limits.specs.Shown.{mark_text};

    ghost output = { λ m. Some (mark_text (is_less m)) };

    fn fmt<W: fmt::Write>(&self, f: &mut fmt::Formatter<W>) -> fmt::Result {
        f.write_str(match self {
            Mark::Less => "<",
            Mark::AtMost => "<=",
        })
    }
}

// The derived order is that of what they say: by the number, then by the mark, and no limit is the greatest. (In an
// `Option` the `None` would be the smallest. And a type for both kinds of time would have a mark that whole time has not.)
#[derive(Clone, Copy, PartialEq, Eq, PartialOrd, Ord, Debug)]
pub enum FineLimit {
    Bound { ticks: Ticks, mark: Mark },
    Free,
}

impl Limit for FineLimit {
    ghost time = { fine };

    ghost bound = { of_fine };

    ghost lawful = { laws fine };

    ghost proper = { Prim.search rules };

    ghost within = { Prim.search rules };

    ghost one = { one_fine };

    // What the derived order says, too, in a form that costs less.
    fn at_most(self, other: FineLimit) -> bool {
        let FineLimit::Bound { ticks: a, mark: s } = self else {
            return matches!(other, FineLimit::Free);
        };
        let FineLimit::Bound { ticks: b, mark: t } = other else {
            return true;
        };
        if s == Mark::AtMost && t == Mark::Less {
            a.count() < b.count()
        } else {
            a.count() <= b.count()
        }
    }

    fn sum(self, other: FineLimit) -> Result<FineLimit, Fault> {
        let FineLimit::Bound { ticks: a, mark: s } = self else {
            return Ok(FineLimit::Free);
        };
        let FineLimit::Bound { ticks: b, mark: t } = other else {
            return Ok(FineLimit::Free);
        };
        Ok(FineLimit::Bound {
            ticks: a.plus(b)?,
            mark: s.min(t),
        })
    }

    fn none() -> FineLimit {
        FineLimit::Free
    }

    fn up_to(ticks: Ticks) -> FineLimit {
        FineLimit::Bound {
            ticks,
            mark: Mark::AtMost,
        }
    }

    fn below(ticks: Ticks) -> Result<FineLimit, Fault> {
        Ok(FineLimit::Bound {
            ticks,
            mark: Mark::Less,
        })
    }

    fn ticks(self) -> Option<i64> {
        match self {
            FineLimit::Bound { ticks, .. } => Some(ticks.count()),
            FineLimit::Free => None,
        }
    }

    fn is_strict(self) -> bool {
        match self {
            FineLimit::Bound { mark, .. } => mark == Mark::Less,
            FineLimit::Free => false,
        }
    }
}

impl fmt::Display for FineLimit {
    ghost use Rattle.std.specs.Prelude.{Some};
    ghost use Rattle.limits.specs.Shown.{limit_text};

    ghost output = { λ l. Some (limit_text (of_fine l)) };

    fn fmt<W: fmt::Write>(&self, f: &mut fmt::Formatter<W>) -> fmt::Result {
        match self {
            FineLimit::Bound { ticks, mark } => write!(f, "{}{}", mark, ticks.count()),
            FineLimit::Free => f.write_str("-"),
        }
    }
}
