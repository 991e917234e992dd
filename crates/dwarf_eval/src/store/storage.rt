//! The three lists of an evaluation.

use super::lists::ArrayLike;
use super::slices::SliceVec;
use dwarf_base::Reader;
use dwarf_op::Piece;
use dwarf_value::Value;
use std::marker::PhantomData;

/// Where an evaluation keeps its lists.
pub trait EvaluationStorage<R: Reader + Copy> {
    /// The values on the stack.
    type Stack: ArrayLike<Item = Value>;

    /// The callers of the running expression. Each is a pair: its remaining bytes, and all of its bytes.
    type ExpressionStack: ArrayLike<Item = (R, R)>;

    /// The pieces.
    type Result: ArrayLike<Item = Piece<R>>;
}

/// Keeps the lists of an evaluation in slices that the caller lends.
pub struct StoreInSlices<'a>(PhantomData<&'a ()>);

impl<'a, R: Reader + Copy + 'a> EvaluationStorage<R> for StoreInSlices<'a> {
    type Stack = SliceVec<'a, Value>;

    type ExpressionStack = SliceVec<'a, (R, R)>;

    type Result = SliceVec<'a, Piece<R>>;
}
