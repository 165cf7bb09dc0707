// The limits on the differences of clocks, and the work on them, one time for every kind of limit.
ghost use Rattle.std.specs.Prelude.{◌≡◌, ℕ, ◌+◌, ◌<◌, ◌≤◌, length, ◌↔◌, IsTrue, OnOk, OnErr, unsigned_abs};
ghost use Rattle.differences.specs.Bounds.{none, nought, size};
ghost use Rattle.differences.specs.Refusals.{refusal, Refused, Accepted};
ghost use Rattle.limits.specs.Tightening.{Written, matrix};
ghost use Rattle.tables.specs.Sets.{Same, Under};
ghost use Rattle.tables.specs.Rules.{Narrowing};
ghost use Rattle.tables.specs.Matrices.{Holds, Sound, Exceeds, Passed, PutToZero, row_of, column_of, limit_of};
ghost use Rattle.tables.specs.Storage.{Freed, RowCopied, ColumnCopied};

use limits::{Comparison, DifferenceBound, Fault, Limit, SIDE, Ticks, tighten};
use std::alloc::AllocError;

// The longest time that a condition may name, in ticks.
const LONGEST: i64 = 16_000_000;

// The limits between every two of the clocks 0 to `clocks`, stored row after row, `SIDE` limits to a row.
// Clock 0 always shows zero. An array beside a count, since nothing in a library may lie on the heap.
pub(crate) struct Matrix<L> {
    pub(crate) clocks: usize,
    pub(crate) limits: [L; 64],
    ghost few: { clocks ≤ 7 },
    ghost square: { length limits ≡ 64 },
}

// A derive over a generic struct's ghost field is refused.
impl<L: Copy> Copy for Matrix<L> {}

impl<L: Copy> Clone for Matrix<L> {
    ghost is_clone = { λ a b. b ≡ a };

    ghost is_infallible = { λ _. Unit {0} };

    fn clone(&self) -> Result<Self, AllocError> {
        Ok(*self)
    }
}

impl<L: Limit> Matrix<L> {
    // The limits between clocks that all show zero.
    pub(crate) fn zeros(clocks: usize) -> Self
        requires { clocks ≤ 7 }
        ensures clocks { result.clocks ≡ clocks }
        ensures limits { (i j : ℕ) → i ≤ clocks → j ≤ clocks → matrix L.Limit result.limits i j ≡ nought }
    {
        Self {
            clocks,
            limits: [L::zero(); 64],
        }
    }

    // The limit on what clock `row` shows less what clock `column` shows. (`limits` reads and writes its lent slice likewise;
    // a public function there would need a refusal, and every loop a branch for it.)
    pub(crate) fn limit(&self, row: usize, column: usize) -> L
        requires row { row ≤ self.now.clocks }
        requires column { column ≤ self.now.clocks }
        ensures { L.bound result ≡ matrix L.Limit self.now.limits row column }
    {
        self.limits[row * SIDE + column]
    }

    // Writes the limit on what clock `row` shows less what clock `column` shows.
    fn set(&mut self, row: usize, column: usize, limit: L)
        requires row { row ≤ self.old.clocks }
        requires column { column ≤ self.old.clocks }
        ensures clocks { self.new.clocks ≡ self.old.clocks }
        ensures limits { Written 7 (matrix L.Limit self.old.limits) (matrix L.Limit self.new.limits) row column (L.bound limit) }
    {
        let place = row * SIDE + column;
        self.limits[place] = limit;
    }

    // No clock has an upper limit any more.
    fn free_uppers(&mut self)
        ensures clocks { self.new.clocks ≡ self.old.clocks }
        ensures limits { Freed self.old.clocks (matrix L.Limit self.old.limits) (matrix L.Limit self.new.limits) none (self.old.clocks + 1) }
    {
        for clock in 1..=self.clocks {
            self.set(clock, 0, L::none());
        }
    }

    // Time passes. (The loop is a function of its own, so that an edit of it is refused where it stands.)
    pub(crate) fn pass(&mut self)
        ensures clocks { self.new.clocks ≡ self.old.clocks }
        ensures readings { Passed L.time self.old.clocks (matrix L.Limit self.old.limits) (matrix L.Limit self.new.limits) }
    {
        self.free_uppers();
    }

    // Row `clock` becomes what row 0 is. That there is such a clock is asked of each step: a number is known to be a clock's
    // only beside its table.
    fn copy_row(&mut self, clock: usize)
        requires first { 1 ≤ clock }
        requires last { clock ≤ self.old.clocks }
        ensures clocks { self.new.clocks ≡ self.old.clocks }
        ensures limits { RowCopied self.old.clocks (matrix L.Limit self.old.limits) (matrix L.Limit self.new.limits) clock (self.old.clocks + 1) }
    {
        for column in 0..=self.clocks {
            let limit = self.limit(0, column);
            self.set(clock, column, limit);
        }
    }

    // Column `clock` becomes what column 0 is. One loop for both would have to treat apart where row and column cross.
    fn copy_column(&mut self, clock: usize)
        requires first { 1 ≤ clock }
        requires last { clock ≤ self.old.clocks }
        ensures clocks { self.new.clocks ≡ self.old.clocks }
        ensures limits { ColumnCopied self.old.clocks (matrix L.Limit self.old.limits) (matrix L.Limit self.new.limits) clock (self.old.clocks + 1) }
    {
        for row in 0..=self.clocks {
            let limit = self.limit(row, 0);
            self.set(row, clock, limit);
        }
    }

    // A clock is put to zero.
    pub(crate) fn reset(&mut self, clock: usize)
        requires first { 1 ≤ clock }
        requires last { clock ≤ self.old.clocks }
        ensures clocks { self.new.clocks ≡ self.old.clocks }
        ensures readings { PutToZero L.time self.old.clocks clock (matrix L.Limit self.old.limits) (matrix L.Limit self.new.limits) }
    {
        self.copy_row(clock);
        self.copy_column(clock);
    }

    // Refused where some limit of a row exceeds `reach` in size.
    fn row_near(&self, row: usize, reach: u32) -> Result<(), Fault>
        requires { row ≤ self.now.clocks }
        ensures { Refused 16 ((j : ℕ) × (j ≤ self.now.clocks) × (reach < size (matrix L.Limit self.now.limits row j))) Accepted (refusal result) }
    {
        for column in 0..=self.clocks {
            if !is_near(self.limit(row, column), reach) {
                return Err(Fault::BeyondReach);
            }
        }
        Ok(())
    }

    // Refused where some limit exceeds `reach` in size.
    fn all_near(&self, reach: u32) -> Result<(), Fault>
        ensures { Refused 16 (Exceeds reach self.now.clocks (matrix L.Limit self.now.limits)) Accepted (refusal result) }
    {
        for row in 0..=self.clocks {
            self.row_near(row, reach)?;
        }
        Ok(())
    }

    // Keeps what meets a condition. The work is done on a copy, which a refusal throws away. (In place, so that a matrix is
    // copied twice and no more: handing out the new one in a `Result` costs two copies more.)
    pub(crate) fn narrow(
        &mut self,
        reach: u32,
        clock: usize,
        comparison: Comparison,
        constant: i64,
    ) -> Result<(), Fault>
        requires sound { Sound L.time reach self.old.clocks (matrix L.Limit self.old.limits) }
        requires near { reach ≤ 1000000000 }
        ensures refusal { Narrowing L.time reach self.old.clocks (Holds L.time self.old.clocks (matrix L.Limit self.old.limits)) clock comparison constant (refusal result) }
        ensures same { OnErr result (self.new ≡ self.old) }
        ensures clocks { self.new.clocks ≡ self.old.clocks }
        ensures sound { Sound L.time reach self.old.clocks (matrix L.Limit self.new.limits) }
        ensures readings { OnOk result (Same (Holds L.time self.old.clocks (matrix L.Limit self.new.limits)) (Under clock comparison constant (Holds L.time self.old.clocks (matrix L.Limit self.old.limits)))) }
    {
        if clock == 0 || clock > self.clocks {
            return Err(Fault::NoSuchClock);
        }
        if !(0..=LONGEST).contains(&constant) {
            return Err(Fault::OutOfRange);
        }
        let bound = condition(clock, comparison, constant);
        let mut next = *self;
        tighten(&mut next.limits, self.clocks, bound)?;
        next.all_near(reach)?;
        *self = next;
        Ok(())
    }
}

// Is a limit's number at most `reach` in size?
fn is_near<L: Limit>(limit: L, reach: u32) -> bool
    ensures { IsTrue result ↔ (size (L.bound limit) ≤ reach) }
{
    limit
        .ticks()
        .is_none_or(|ticks| ticks.unsigned_abs() <= u64::from(reach))
}

// The condition that a clock compares so with a constant, as a bound on a difference.
fn condition<L: Limit>(clock: usize, comparison: Comparison, constant: i64) -> DifferenceBound<L>
    requires { unsigned_abs constant ≤ 16000000 }
    ensures row { result.row ≡ row_of comparison clock }
    ensures column { result.column ≡ column_of comparison clock }
    ensures limit { L.bound result.limit ≡ limit_of L.time comparison constant }
{
    let ticks = Ticks::new(constant).unwrap();
    let negated = Ticks::new(-constant).unwrap();
    match comparison {
        Comparison::Less => DifferenceBound {
            row: clock,
            column: 0,
            limit: L::below(ticks).unwrap(),
        },
        Comparison::AtMost => DifferenceBound {
            row: clock,
            column: 0,
            limit: L::up_to(ticks),
        },
        Comparison::Greater => DifferenceBound {
            row: 0,
            column: clock,
            limit: L::below(negated).unwrap(),
        },
        Comparison::AtLeast => DifferenceBound {
            row: 0,
            column: clock,
            limit: L::up_to(negated),
        },
    }
}
