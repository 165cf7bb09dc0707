// Pieces between separators, and the name in front of an item.
ghost use Rattle.std.specs.Prelude.{◌≡◌, ◌≤◌, ◌∷◌, length, option_map};
ghost use Rattle.std.specs.List.{prefix_len};
ghost use Rattle.text.specs.Bytes.{in_name};
ghost use Rattle.text.specs.Pieces.{pieces, more_pieces, Shorter, name_front, name_back, after};

use crate::bytes::in_name;

// The first piece of `s`, and what stands after the separator if there is one.
pub fn cut(s: &[u8], at: u8) -> (&[u8], Option<&[u8]>)
    ensures pieces { pieces at s.now ≡ result.0.now ∷ more_pieces at result.1 }
    ensures shorter { Shorter result.1 s.now }
{
    match s.iter().position(|b| *b == at) {
        Some(place) => (&s[..place], Some(&s[place + 1..])),
        None => (s, None),
    }
}

// How many bytes of names stand in front.
fn name_length(s: &[u8]) -> usize
    ensures value { result ≡ prefix_len in_name s.now }
    ensures within { result ≤ length s.now }
{
    s.iter().take_while(|b| in_name(**b)).count()
}

// The bytes of names in front, and what stands after them.
pub fn split_name(s: &[u8]) -> (&[u8], &[u8])
    ensures { (result.0.now ≡ name_front s.now) × (result.1.now ≡ name_back s.now) }
{
    s.split_at(name_length(s))
}

// What stands after `word`, where `s` begins with it.
pub fn after<'a>(s: &'a [u8], word: &[u8]) -> Option<&'a [u8]>
    ensures { option_map (λ rest. rest.now) result ≡ after word.now s.now }
{
    let [w, more @ ..] = word else {
        return Some(s);
    };
    let [b, rest @ ..] = s else {
        return None;
    };
    if *b == *w { after(rest, more) } else { None }
}
