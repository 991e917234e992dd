//! Lists on the heap.

ghost use Rattle.std.specs.Prelude.{None};

use super::lists::ArrayLike;
use super::storage::EvaluationStorage;
use dwarf_base::Reader;
use dwarf_op::Piece;
use dwarf_value::Value;
use std::alloc::Allocator;
use std::marker::PhantomData;

impl<T: Copy, A: Allocator> ArrayLike for Vec<T, A> {
    type Item = T;

    ghost items = { λ v. v.items };

    ghost limit = { λ _. None };

    #[inline(always)]
    fn as_slice(&self) -> &[T] {
        Vec::as_slice(self)
    }

    #[inline(always)]
    fn pop(&mut self) -> Option<T> {
        Vec::pop(self)
    }

    #[inline(always)]
    fn push(&mut self, item: T) -> Result<(), T> {
        Vec::push(self, item).map_err(|failed| failed.value)
    }
}

/// Keeps the lists of an evaluation on the heap, with an allocator.
pub struct StoreOnHeap<A>(PhantomData<A>);

impl<R: Reader + Copy, A: Allocator> EvaluationStorage<R> for StoreOnHeap<A> {
    type Stack = Vec<Value, A>;

    type ExpressionStack = Vec<(R, R), A>;

    type Result = Vec<Piece<R>, A>;
}
