// A table of readings: the matrix of their tight limits.
ghost use Rattle.std.specs.Prelude.{◌≡◌, ◌≤◌};
ghost use Rattle.differences.specs.Matrix.{entry};
ghost use Rattle.tables.specs.Matrices.{Holds, Sound};
ghost use Rattle.tables.specs.Storage.{limit_at};
ghost use Rattle.tables.specs.Tables.{found_some, stored_tight, stored_members};
ghost use Rattle.tables.specs.Valuations.{holds_same};
ghost use Rattle.std.proofs.Common.{rules};

use crate::matrix::Matrix;
use crate::table::Table;
use limits::{Comparison, Fault, Limit};
use std::alloc::AllocError;

// A table whose limits are an `L`, which fixes the kind of time.
pub struct MatrixTable<L: Limit> {
    matrix: Matrix<L>,
    ghost sound: { ∥ Sound L.time 1000000000 matrix.clocks (entry L.bound matrix.limits) ∥₁ },
}

// A derive over a generic struct's ghost field is refused.
impl<L: Limit> Copy for MatrixTable<L> {}

impl<L: Limit> Clone for MatrixTable<L> {
    ghost is_clone = { λ a b. b ≡ a };

    ghost is_infallible = { λ _. Unit {0} };

    fn clone(&self) -> Result<Self, AllocError> {
        Ok(*self)
    }
}

impl<L: Limit> Table for MatrixTable<L> {
    type Limit = L;

    const REACH: u32 = 1_000_000_000;

    ghost REACH = { 1000000000 };

    ghost size = { λ t. t.matrix.clocks };

    ghost member = { λ t. Holds L.time t.matrix.clocks (entry L.bound t.matrix.limits) };

    ghost told = { λ t. limit_at t.matrix.limits t.matrix.square };

    ghost near = { Prim.search rules };

    ghost few = { λ t. t.matrix.few };

    ghost inhabited = { λ t. found_some L.bound L.time L.lawful L.proper 1000000000 t.matrix.clocks t.matrix.limits t.sound };

    ghost sized = { λ t r h. h.0 };

    ghost same = { λ t r s e cut h. holds_same L.time L.lawful t.matrix.clocks (entry L.bound t.matrix.limits) r s e cut h };

    ghost tight = { λ t i j g h. stored_tight L.bound L.time L.lawful L.proper 1000000000 t.matrix.clocks t.matrix.limits t.sound t.matrix.square i j g h };

    ghost members = { λ t r sized h. stored_members L.bound L.time t.matrix.clocks t.matrix.few t.matrix.limits t.matrix.square r sized h };

    fn start(clocks: usize) -> Result<Self, Fault> {
        if clocks > 7 {
            return Err(Fault::NoSuchClock);
        }
        Ok(Self {
            matrix: Matrix::zeros(clocks),
        })
    }

    fn clocks(&self) -> usize {
        self.matrix.clocks
    }

    fn pass(&mut self) {
        self.matrix.pass();
    }

    fn narrow(&mut self, clock: usize, comparison: Comparison, constant: i64) -> Result<(), Fault> {
        self.matrix
            .narrow(Self::REACH, clock, comparison, constant)?;
        Ok(())
    }

    fn reset(&mut self, clock: usize) -> Result<(), Fault> {
        if clock == 0 || clock > self.matrix.clocks {
            return Err(Fault::NoSuchClock);
        }
        self.matrix.reset(clock);
        Ok(())
    }

    fn tell(&self, row: usize, column: usize) -> Result<L, Fault> {
        if row > self.matrix.clocks || column > self.matrix.clocks {
            return Err(Fault::NoSuchClock);
        }
        Ok(self.matrix.limit(row, column))
    }

    fn copy_from(&mut self, other: &Self) {
        *self = *other;
    }
}
