// A name that is kept in place.
ghost use Rattle.std.specs.Prelude.{◌≡◌, true};
ghost use Rattle.text.specs.Bytes.{is_name};
ghost use Rattle.bounded.specs.Items.{items};

use bounded::Bounded;

// 1 to 12 bytes: a lower-case letter, then lower-case letters or digits.
#[derive(Clone, Copy, PartialEq, Eq, Debug)]
pub struct Name {
    pub(crate) bytes: Bounded<u8, 12>,
    ghost form: { is_name (items bytes) ≡ true },
}
