// Counters.
ghost use Rattle.fields.specs.Declarations.{counter_name};

use lines::Declared;
use text::Name;

// A counter stays from `low` to `high` and begins at `first`.
#[derive(Clone, Copy, PartialEq, Eq, Debug)]
pub struct Counter {
    pub name: Name,
    pub low: i32,
    pub high: i32,
    pub first: i32,
}

impl Declared for Counter {
    ghost called = { counter_name };

    fn is_called(&self, name: &[u8]) -> bool {
        self.name.is(name)
    }
}
