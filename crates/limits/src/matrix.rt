// Tightening: one more condition on a matrix of limits, in place.
ghost use Rattle.std.specs.Prelude.{◌≡◌, ℕ, ◌+◌, ◌*◌, ◌<◌, ◌≤◌, true, Ok, Err, OnOk, length};
ghost use Rattle.differences.specs.Bounds.{add, at_most, nought, size, Large, arithmetic};
ghost use Rattle.differences.specs.Matrix.{Tightened, least};
ghost use Rattle.differences.specs.Refusals.{refusal, Refused, Accepted, fault_number};
ghost use Rattle.limits.specs.Theorems.{LimitLaws};
ghost use Rattle.limits.specs.Tightening.{Fits, Overflows, Contradicts, Narrows, LeavesNothing, Untouched, Written, Row, matrix};

use crate::limit::Limit;
use differences::Fault;

// The rows and the columns of a matrix: seven clocks, and clock 0, which always shows zero.
pub const SIDE: usize = 8;

// A limit on what clock `row` shows less what clock `column` shows.
#[derive(Clone, Copy, PartialEq, Eq, Debug)]
pub struct DifferenceBound<L> {
    pub row: usize,
    pub column: usize,
    pub limit: L,
}

// The limit on what clock `row` shows less what clock `column` shows.
fn limit_at<L: Limit>(limits: &[L], row: usize, column: usize) -> L
    requires square { length limits.now ≡ 64 }
    requires clocks { (row ≤ 7) × (column ≤ 7) }
    ensures { L.bound result ≡ matrix L.Limit limits.now row column }
{
    limits[row * SIDE + column]
}

// Writes the limit on what clock `row` shows less what clock `column` shows.
fn set_limit<L: Limit>(limits: &mut [L], row: usize, column: usize, limit: L)
    requires square { length limits.old ≡ 64 }
    requires clocks { (row ≤ 7) × (column ≤ 7) }
    ensures { Written 7 (matrix L.Limit limits.old) (matrix L.Limit limits.new) row column (L.bound limit) }
{
    limits[row * SIDE + column] = limit;
}

// Limits keep their laws wherever no sum is refused.
fn laws_hold<L: Limit>()
    ensures { LimitLaws L.Limit }
{}

// The smaller of two limits. The laws of limits are promised beside it.
pub fn smaller<L: Limit>(a: L, b: L) -> L
    ensures value { L.bound result ≡ least (arithmetic L.time) (L.bound a) (L.bound b) }
    ensures laws { LimitLaws L.Limit }
{
    laws_hold::<L>();
    if a.at_most(b) { a } else { b }
}

// A sum that is known not to be too large.
fn sum_within<L: Limit>(a: L, b: L) -> L
    requires { size (add (L.bound a) (L.bound b)) ≤ 4000000000 }
    ensures { L.bound result ≡ add (L.bound a) (L.bound b) }
{
    a.sum(b).unwrap()
}

// The matrix is the caller's, so every step takes the slice and the number of clocks and asks that they fit: a struct
// around a lent slice would have to say in every contract that it still lends the same one.

// Refused where `through` and some limit of a row have too large a sum.
fn row_fits<L: Limit>(limits: &[L], clocks: usize, row: usize, through: L) -> Result<(), Fault>
    requires { Fits limits.now clocks row 0 }
    ensures { Refused 16 ((j : ℕ) × (j ≤ clocks) × Large (add (L.bound through) (matrix L.Limit limits.now row j))) Accepted (refusal result) }
{
    for j in 0..=clocks {
        let _ = through.sum(limit_at(limits, row, j))?;
    }
    Ok(())
}

// Refused where some way over `bound` has too large a sum.
fn ways_fit<L: Limit>(limits: &[L], clocks: usize, bound: DifferenceBound<L>) -> Result<(), Fault>
    requires { Fits limits.now clocks bound.row bound.column }
    ensures { Refused 16 (Overflows L.Limit clocks bound.row bound.column (L.bound bound.limit) (matrix L.Limit limits.now)) Accepted (refusal result) }
{
    for i in 0..=clocks {
        let through = limit_at(limits, i, bound.row).sum(bound.limit)?;
        row_fits(limits, clocks, bound.column, through)?;
    }
    Ok(())
}

// Sets each limit of row `i` to the smaller of itself and `through` plus the limit of row `column` beneath or above it.
fn tighten_row<L: Limit>(limits: &mut [L], clocks: usize, i: usize, column: usize, through: L)
    requires fits { Fits limits.old clocks i column }
    requires small { (j : ℕ) → j ≤ clocks → size (add (L.bound through) (matrix L.Limit limits.old column j)) ≤ 4000000000 }
    ensures { Row L.time i column (clocks + 1) (L.bound through) (matrix L.Limit limits.old) (matrix L.Limit limits.new) }
{
    for j in 0..=clocks {
        let over = sum_within(through, limit_at(limits, column, j));
        let least = smaller(limit_at(limits, i, j), over);
        set_limit(limits, i, j, least);
    }
}

// Sets each limit to the smaller of itself and the way over `bound`.
fn tighten_rows<L: Limit>(limits: &mut [L], clocks: usize, bound: DifferenceBound<L>)
    requires fits { Fits limits.old clocks bound.row bound.column }
    requires small { Overflows L.Limit clocks bound.row bound.column (L.bound bound.limit) (matrix L.Limit limits.old) → ⊥ }
    requires leaves { at_most nought (add (matrix L.Limit limits.old bound.column bound.row) (L.bound bound.limit)) ≡ true }
    ensures rest { Untouched clocks (matrix L.Limit limits.old) (matrix L.Limit limits.new) }
    ensures limits { Tightened (arithmetic L.time) clocks bound.row bound.column (L.bound bound.limit) (matrix L.Limit limits.old) (matrix L.Limit limits.new) }
{
    for i in 0..=clocks {
        let through = sum_within(limit_at(limits, i, bound.row), bound.limit);
        tighten_row(limits, clocks, i, bound.column, through);
    }
}

// Adds the condition `bound` to a matrix of limits over the clocks 0 to `clocks`, stored row after row, `SIDE` limits to
// a row. A closed matrix is left closed, in one pass over its limits. A refusal leaves the matrix as it was.
pub fn tighten<L: Limit>(
    limits: &mut [L],
    clocks: usize,
    bound: DifferenceBound<L>,
) -> Result<(), Fault>
    ensures refusal { Refused 20 (Fits limits.old clocks bound.row bound.column → ⊥) (Refused 16 (Overflows L.Limit clocks bound.row bound.column (L.bound bound.limit) (matrix L.Limit limits.old)) (Refused 15 (Contradicts L.Limit bound.row bound.column (L.bound bound.limit) (matrix L.Limit limits.old)) Accepted)) (refusal result) }
    ensures limits { elim result [ Ok _ ↦ Tightened (arithmetic L.time) clocks bound.row bound.column (L.bound bound.limit) (matrix L.Limit limits.old) (matrix L.Limit limits.new) | Err _ ↦ limits.new ≡ limits.old ] }
    ensures rest { OnOk result (Untouched clocks (matrix L.Limit limits.old) (matrix L.Limit limits.new)) }
    ensures readings { elim result [ Ok _ ↦ Narrows L.Limit clocks bound.row bound.column (L.bound bound.limit) (matrix L.Limit limits.old) (matrix L.Limit limits.new) | Err e ↦ (fault_number e ≡ 15 → LeavesNothing L.Limit clocks bound.row bound.column (L.bound bound.limit) (matrix L.Limit limits.old)) ] }
{
    let DifferenceBound { row, column, limit } = bound;
    if limits.len() != SIDE * SIDE || clocks >= SIDE || row > clocks || column > clocks {
        return Err(Fault::NoSuchClock);
    }
    ways_fit(limits, clocks, bound)?;
    let round = sum_within(limit_at(limits, column, row), limit);
    if !L::zero().at_most(round) {
        return Err(Fault::Empty);
    }
    tighten_rows(limits, clocks, bound);
    Ok(())
}
