//! A storage of this program's own.

use dwarf_expr::base::Reader;
use dwarf_expr::op::Piece;
use dwarf_expr::store::{EvaluationStorage, OneInLine};
use dwarf_expr::value::Value;

/// Keeps the lists of an evaluation on the heap, where a single piece takes no memory.
pub struct PieceInLine;

impl<R: Reader + Copy> EvaluationStorage<R> for PieceInLine {
    type Stack = Vec<Value>;

    type ExpressionStack = Vec<(R, R)>;

    type Result = OneInLine<Piece<R>, Vec<Piece<R>>>;
}
