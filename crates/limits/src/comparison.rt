// How a condition compares what a clock shows with a constant.
use std::fmt;

#[derive(Clone, Copy, PartialEq, Eq, Debug)]
pub enum Comparison {
    Less,
    AtMost,
    Greater,
    AtLeast,
}

impl fmt::Display for Comparison {
    ghost use Rattle.std.specs.Prelude.{Some};
    ghost use Rattle.limits.specs.Shown.{symbol_of};

    ghost output = { λ c. Some (symbol_of c) };

    fn fmt<W: fmt::Write>(&self, f: &mut fmt::Formatter<W>) -> fmt::Result {
        f.write_str(match self {
            Comparison::Less => "<",
            Comparison::AtMost => "<=",
            Comparison::Greater => ">",
            Comparison::AtLeast => ">=",
        })
    }
}
