// Single bytes, and whether two rows of them are the same.
ghost use Rattle.std.specs.Prelude.{◌≡◌};
ghost use Rattle.std.specs.Str.{bytes_eq};
ghost use Rattle.text.specs.Bytes.{in_name};

pub(crate) fn in_name(b: u8) -> bool
    ensures { result ≡ in_name b }
{
    b.is_ascii_lowercase() || b.is_ascii_digit()
}

// For callers of this crate; inside, `==` says the same.
pub fn same_bytes(a: &[u8], b: &[u8]) -> bool
    ensures { result ≡ bytes_eq a.now b.now }
{
    a == b
}
