// What a table of readings promises.
ghost use Rattle.std.specs.Prelude.{◌≡◌, ℕ, ◌≤◌, Ok, Err};
ghost use Rattle.differences.specs.Bounds.{Cut, IsMet};
ghost use Rattle.differences.specs.Refusals.{refusal};
ghost use Rattle.tables.specs.Readings.{Reading, Sized, SameReading, difference};
ghost use Rattle.tables.specs.Sets.{Same, Zeros, After, Reset, Under, Tight};
ghost use Rattle.tables.specs.Rules.{Starting, Narrowing, Resetting, Telling};

use limits::{Comparison, Fault, Limit};

// A non-empty set of readings of at most seven clocks. How the set is stored is the implementation's own affair.
pub trait Table: Copy {
    // the limits that the table tells; they fix the kind of time
    type Limit: Limit;

    // No tight limit of a set that the table can mean exceeds this number of ticks in size.
    const REACH: u32;

    // `REACH`, for clauses
    ghost REACH: { ℕ };

    // the number of clocks
    ghost size: { Self → ℕ };

    // the set of readings that a table means
    ghost member: { Self → Reading → Type 0 };

    // the limit on clock i less clock j
    ghost told: { Self → ℕ → ℕ → Self.Limit };

    // Only the reading in which all clocks show zero.
    fn start(clocks: usize) -> Result<Self, Fault>
        ensures refusal { Starting clocks (refusal result) }
        ensures readings { elim result [ Ok t ↦ (size t ≡ clocks) × Same (member t) (Zeros Self.Limit.Limit.time clocks) | Err _ ↦ Unit {0} ] };

    // The number of clocks.
    fn clocks(&self) -> usize
        ensures { result ≡ size self.now };

    // Adds any one length to all clocks of any member.
    fn pass(&mut self)
        ensures clocks { size self.new ≡ size self.old }
        ensures readings { Same (member self.new) (After Self.Limit.Limit.time (member self.old)) };

    // Keeps the members that meet the condition. (Three arguments, as the rule has them: a struct would be built at each
    // call to be taken apart at once.)
    fn narrow(&mut self, clock: usize, comparison: Comparison, constant: i64) -> Result<(), Fault>
        ensures refusal { Narrowing Self.Limit.Limit.time REACH (size self.old) (member self.old) clock comparison constant (refusal result) }
        ensures readings { elim result [ Ok _ ↦ (size self.new ≡ size self.old) × Same (member self.new) (Under clock comparison constant (member self.old)) | Err _ ↦ self.new ≡ self.old ] };

    // Puts a clock to zero.
    fn reset(&mut self, clock: usize) -> Result<(), Fault>
        ensures refusal { Resetting (size self.old) clock (refusal result) }
        ensures readings { elim result [ Ok _ ↦ (size self.new ≡ size self.old) × Same (member self.new) (Reset Self.Limit.Limit.time clock (member self.old)) | Err _ ↦ self.new ≡ self.old ] };

    // The tight limit on what clock `row` shows less what clock `column` shows.
    fn tell(&self, row: usize, column: usize) -> Result<Self::Limit, Fault>
        ensures refusal { Telling (size self.now) row column (refusal result) }
        ensures limit { elim result [ Ok l ↦ l ≡ told self.now row column | Err _ ↦ Unit {0} ] };

    // Takes the meaning of another table of the same make.
    fn copy_from(&mut self, other: &Self)
        ensures clocks { size self.new ≡ size other.now }
        ensures readings { Same (member self.new) (member other.now) };

    ghost near: { REACH ≤ 1000000000 };

    ghost few: { (t : Self) → size t ≤ 7 };

    ghost inhabited: { (t : Self) → (r : Reading) × member t r };

    ghost sized: { (t : Self) (r : Reading) → member t r → Sized Self.Limit.Limit.time (size t) r };

    // equal fractions are the same reading
    ghost same: { (t : Self) (r s : Reading) → SameReading r s → Cut Self.Limit.Limit.time s.cut → member t r → member t s };

    // every limit told is tight
    ghost tight: { (t : Self) (i j : ℕ) → i ≤ size t → j ≤ size t → Tight Self.Limit.Limit.time (member t) i j (Self.Limit.Limit.bound (told t i j)) };

    // a reading that meets every limit told is a member
    ghost members: { (t : Self) (r : Reading) → Sized Self.Limit.Limit.time (size t) r → ((i j : ℕ) → i ≤ size t → j ≤ size t → IsMet (Self.Limit.Limit.bound (told t i j)) (difference r i j) r.cut) → member t r };
}
