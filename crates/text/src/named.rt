// Reading a name.
ghost use Rattle.std.specs.Prelude.{◌≡◌, true, false, codes, MatchOption};
ghost use Rattle.std.specs.Str.{bytes_eq};
ghost use Rattle.text.specs.Bytes.{is_name, all_in_name};
ghost use Rattle.text.specs.Names.{letters};

use crate::bytes::in_name;
use crate::name::Name;
use bounded::Bounded;

fn all_in_name(s: &[u8]) -> bool
    ensures { result ≡ all_in_name s.now }
{
    s.iter().all(|b| in_name(*b))
}

// Whether it is 1 to 12 bytes, a lower-case letter and then lower-case letters or digits.
pub fn is_name(s: &[u8]) -> bool
    ensures { result ≡ is_name s.now }
{
    match s {
        [first, rest @ ..] => first.is_ascii_lowercase() && all_in_name(rest) && s.len() <= 12,
        [] => false,
    }
}

impl Name {
    // The name that is written so, if that is a name.
    pub fn read(s: &[u8]) -> Option<Name>
        ensures { MatchOption result (is_name s.now ≡ false) (λ n. (is_name s.now ≡ true) × (letters n ≡ s.now)) }
    {
        if !is_name(s) {
            return None;
        }
        let bytes = Bounded::from_slice(0, s).ok()?;
        Some(Name { bytes })
    }

    // The name `a`, which fills slots that are not used.
    pub fn filler() -> Name
        ensures { letters result ≡ codes "a" }
    {
        let mut bytes = Bounded::new(b'a');
        let _ = bytes.push(b'a');
        Name { bytes }
    }

    // The bytes that it is written with.
    pub fn letters(&self) -> &[u8]
        ensures { result.now ≡ letters self.now }
    {
        self.bytes.as_slice()
    }

    // Whether it is written so.
    pub fn is(&self, s: &[u8]) -> bool
        ensures { result ≡ bytes_eq (letters self.now) s.now }
    {
        self.letters() == s
    }
}
