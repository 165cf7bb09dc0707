// The slots of a list of at most N values that lies in place.
ghost use Rattle.std.specs.Prelude.{◌≡◌, ◌≤◌, length};

use std::alloc::AllocError;

// The first `count` slots are its items; what the others hold never shows.
// An array beside a count, since nothing in a library may lie on the heap.
pub struct Bounded<T, const N: usize> {
    pub(crate) slots: [T; N],
    pub(crate) count: usize,
    ghost fits: { count ≤ N },
    ghost whole: { length slots ≡ N },
}

impl<T: Copy, const N: usize> Copy for Bounded<T, N> {}

// By hand, since a derive is refused over the ghost fields of a generic struct.
impl<T: Copy, const N: usize> Clone for Bounded<T, N> {
    ghost is_clone = { λ a b. b ≡ a };

    ghost is_infallible = { λ _. Unit {0} };

    fn clone(&self) -> Result<Self, AllocError> {
        Ok(*self)
    }
}
