//! Operations, their decoding, and the results of an evaluation.

mod expressions;
mod results;

pub use crate::equality::{expression_equality_laws, piece_equality_laws, result_equality_laws};
pub use dwarf_op::{
    DieReference, Location, Operation, Piece, operation_equality_laws, reference_equality_laws,
};
pub use expressions::{Expression, OperationIter};
pub use results::EvaluationResult;
