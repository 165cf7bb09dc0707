// What may be wrong with a field, in the order in which it is asked.
#[derive(Clone, Copy, PartialEq, Eq, PartialOrd, Ord, Debug)]
pub enum Flaw {
    // it is not written as its kind wants
    Form,
    // a name is unknown, or declared already
    Name,
    // a number is out of its range
    Range,
    // there are too many items
    Count,
}
