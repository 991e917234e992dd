ghost use Rattle.std.specs.Prelude.{Some};

use super::lists::ArrayLike;
use arrayvec::ArrayVec;

/// A list of fixed capacity. In Rattle its memory is zeroed when it is made, which takes longer than evaluating a short
/// expression. A `SliceVec` zeroes nothing, and several evaluations can use its slice one after another.
impl<T: Copy + Default, const CAP: usize> ArrayLike for ArrayVec<T, CAP> {
    type Item = T;

    ghost items = { λ v. v.items };

    ghost limit = { λ _. Some CAP };

    #[inline(always)]
    fn as_slice(&self) -> &[T] {
        ArrayVec::as_slice(self)
    }

    #[inline(always)]
    fn pop(&mut self) -> Option<T> {
        ArrayVec::pop(self)
    }

    #[inline(always)]
    fn push(&mut self, item: T) -> Result<(), T> {
        ArrayVec::try_push(self, item).map_err(|refused| refused.element())
    }
}
