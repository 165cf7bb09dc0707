// Limits and refusals as the rules write them.
use limits::{Fault, Limit, Mark};

// No limit, or a mark and a number of ticks.
pub(crate) type Written = Option<(Mark, i64)>;

pub(crate) fn written<L: Limit>(limit: L) -> Written {
    let mark = if limit.is_strict() {
        Mark::Less
    } else {
        Mark::AtMost
    };
    limit.ticks().map(|ticks| (mark, ticks))
}

// The number of the refusal, if it is one.
pub(crate) fn refusal<X: Drop>(answer: Result<X, Fault>) -> Option<u8> {
    answer.err().map(|fault| fault.number())
}
