// A ring's copy is the ring again, and no memory is asked for.
ghost use Rattle.std.specs.Prelude.{◌≡◌};

use crate::Ring;
use std::alloc::AllocError;

// Kept: a derived Clone is refused over ghost fields; over an impl Model it clones each element, may fail, and need not equal the ring.
impl<T: Copy> Clone for Ring<T> {
    ghost is_clone = { λ ring copy. copy ≡ ring };

    ghost is_infallible = { λ _. Unit {0} };

    fn clone(&self) -> Result<Ring<T>, AllocError> {
        Ok(*self)
    }
}
