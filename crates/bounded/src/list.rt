// A list of at most N values that lies in place, with no heap.
ghost use Rattle.std.specs.Prelude.{◌≡◌, ◌<◌, [], ◌∷◌, ◌++◌, length, MatchResult, nat_lt};
ghost use Rattle.bounded.specs.Items.{items};

use crate::slots::Bounded;

// There is no place left.
#[derive(Clone, Copy, PartialEq, Eq, Debug)]
pub struct Full;

impl<T: Copy, const N: usize> Bounded<T, N> {
    // The empty list; `blank` fills the slots.
    pub fn new(blank: T) -> Self
        ensures { items result ≡ [] }
    {
        Bounded {
            slots: [blank; N],
            count: 0,
        }
    }

    pub fn has_room(&self) -> bool
        ensures { result ≡ nat_lt (length (items self.now)) N }
    {
        self.count < N
    }

    pub fn as_slice(&self) -> &[T]
        ensures { result.now ≡ items self.now }
    {
        &self.slots[..self.count]
    }

    // Adds `x` at the end, or says that there is no place and changes nothing.
    pub fn push(&mut self, x: T) -> Result<(), Full>
        ensures { MatchResult result (λ _. (length (items self.old) < N) × (items self.new ≡ items self.old ++ x ∷ [])) (λ _. (length (items self.old) ≡ N) × (self.new ≡ self.old)) }
    {
        if self.count < N {
            self.slots[self.count] = x;
            self.count += 1;
            Ok(())
        } else {
            Err(Full)
        }
    }

    // The elements of `s`, if there is a place for each; `blank` fills the other slots.
    pub fn from_slice(blank: T, s: &[T]) -> Result<Self, Full>
        ensures { MatchResult result (λ b. items b ≡ s.now) (λ _. N < length s.now) }
    {
        let mut out = Bounded::new(blank);
        for x in s {
            out.push(*x)?;
        }
        Ok(out)
    }
}
