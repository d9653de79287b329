// A list of at most `N` items; `growing` has what it does.
mod growing;

ghost use Rattle.std.specs.Prelude.{◌≡◌, ◌≤◌, length, ⊤};

pub use growing::Full;
use std::alloc::AllocError;

// The items in order. Nothing allocates, and a list is copied with its items, as an `ArrayVec` is not.
pub struct FixedList<T, const N: usize> {
    places: [T; N],
    used: usize,
    ghost long: { length places ≡ N },
    ghost few: { used ≤ N },
}

// By hand, since a struct with ghost fields and a type parameter derives no copy.
impl<T: Copy, const N: usize> Clone for FixedList<T, N> {
    ghost is_clone = { λ x y. y ≡ x };

    ghost is_infallible = { λ _. ⊤ };

    fn clone(&self) -> Result<Self, AllocError> {
        Ok(*self)
    }
}

impl<T: Copy, const N: usize> Copy for FixedList<T, N> {}
