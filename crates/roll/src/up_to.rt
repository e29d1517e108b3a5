// A short list in memory of its own.
ghost use Rattle.std.specs.Prelude.{◌≡◌, ◌≤◌, ⊤};

use std::alloc::AllocError;

mod items;

pub use items::TooMany;

// Up to `N` items: the first `len` of the array. It allocates nothing and is copied with the value that holds it, which no vector is.
#[derive(Debug)]
pub struct UpTo<T, const N: usize> {
    items: [T; N],
    len: usize,
    ghost few: { len ≤ N },
}

// No derive clones a generic struct with a ghost field, so neither of the two is derived.
impl<T: Copy, const N: usize> Copy for UpTo<T, N> {}

impl<T: Copy, const N: usize> Clone for UpTo<T, N> {
    ghost is_clone = { λ list copy. copy ≡ list };

    ghost is_infallible = { λ _. ⊤ };

    fn clone(&self) -> Result<UpTo<T, N>, AllocError> {
        Ok(*self)
    }
}
