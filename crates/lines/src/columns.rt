// The fields of a line that has just so many.
ghost use Rattle.std.specs.Prelude.{◌≡◌, false, [], ◌∷◌, length, MatchOption, ◌==◌};
ghost use Rattle.text.specs.Pieces.{pieces};

use text::cut;

// The first field, and what stands after it, where another field follows.
pub fn first(s: &[u8]) -> Option<(&[u8], &[u8])>
    ensures { MatchOption result (length (pieces 32 s.now) ≡ 1) (λ p. pieces 32 s.now ≡ p.0.now ∷ pieces 32 p.1.now) }
{
    let (field, rest) = cut(s, b' ');
    Some((field, rest?))
}

pub fn one(s: &[u8]) -> Option<&[u8]>
    ensures { MatchOption result ((length (pieces 32 s.now) == 1) ≡ false) (λ a. pieces 32 s.now ≡ a.now ∷ []) }
{
    match cut(s, b' ') {
        (field, None) => Some(field),
        _ => None,
    }
}

pub fn three(s: &[u8]) -> Option<(&[u8], &[u8], &[u8])>
    ensures { MatchOption result ((length (pieces 32 s.now) == 3) ≡ false) (λ p. pieces 32 s.now ≡ p.0.now ∷ p.1.now ∷ p.2.now ∷ []) }
{
    let (a, s) = first(s)?;
    let (b, s) = first(s)?;
    let c = one(s)?;
    Some((a, b, c))
}

pub fn four(s: &[u8]) -> Option<(&[u8], &[u8], &[u8], &[u8])>
    ensures { MatchOption result ((length (pieces 32 s.now) == 4) ≡ false) (λ p. pieces 32 s.now ≡ p.0.now ∷ p.1.now ∷ p.2.now ∷ p.3.now ∷ []) }
{
    let (a, s) = first(s)?;
    let (b, c, d) = three(s)?;
    Some((a, b, c, d))
}
