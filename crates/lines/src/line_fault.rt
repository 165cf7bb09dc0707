// What may be wrong with a line.
ghost use Rattle.std.specs.Prelude.{◌≡◌, Ok};
ghost use Rattle.lines.specs.Columns.{at};

use text::Flaw;

#[derive(Clone, Copy, PartialEq, Eq, Debug)]
pub enum LineFault {
    // it stands where another line is due
    Disorder,
    // the field, counted from 1, and what is wrong with it
    Field(usize, Flaw),
}

// What field `field` gave, or what is wrong with it.
pub fn at<X: Drop>(field: usize, answer: Result<X, Flaw>) -> Result<X, LineFault>
    ensures { result ≡ at field answer Ok }
{
    answer.map_err(|flaw| LineFault::Field(field, flaw))
}
