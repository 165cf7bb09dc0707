// What has a name.
ghost use Rattle.std.specs.Prelude.{◌≡◌, ℕ, List};
ghost use Rattle.std.specs.Str.{bytes_eq};
ghost use Rattle.text.specs.Names.{letters};

use text::Name;

pub trait Declared: Copy {
    // the bytes of its name
    ghost called: { Self → List ℕ };

    // Whether its name is written so.
    fn is_called(&self, name: &[u8]) -> bool
        ensures { result ≡ bytes_eq (called self.now) name.now };
}

impl Declared for Name {
    ghost called = { letters };

    fn is_called(&self, name: &[u8]) -> bool {
        self.is(name)
    }
}
