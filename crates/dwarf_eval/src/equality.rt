//! Laws of equality.
ghost use Rattle.std.specs.Prelude.{ℕ};
ghost use Rattle.dwarf_base.specs.Equality.{IsEquality, IsEqualityBy, IsEqualityOf};
ghost use Rattle.dwarf_base.specs.Reads.{Text};
ghost use Rattle.dwarf_eval.specs.Evaluation.{ok_reply};
ghost use Rattle.dwarf_op.specs.Views.{location_of, piece_of};

use crate::eval::{Status, WaitingKind};
use crate::op::{EvaluationResult, Expression, Location, Piece};

/// Statuses are equal exactly if contracts can't tell them apart. It does nothing; its contract states the law.
pub fn status_equality_laws()
    ensures kind { IsEquality ⟦<WaitingKind as PartialEq>⟧.eq }
    ensures status { IsEquality ⟦<Status as PartialEq>⟧.eq }
{}

/// Expressions are equal exactly if their readers are. It does nothing; its contract states the law.
pub fn expression_equality_laws<R: Eq>()
    ensures { IsEqualityBy ⟦<Expression<R> as PartialEq>⟧.eq
        (λ expression. expression.0) R.PartialEq.eq }
{}

/// Results are equal exactly if contracts can't tell them apart, provided that this holds of readers and offsets. It
/// does nothing; its contract states the law.
pub fn result_equality_laws<R: Eq, O: Eq>()
    ensures { (text : R → Text) (number : O → ℕ) → IsEqualityOf text R.PartialEq.eq
        → IsEqualityOf number O.PartialEq.eq
        → IsEqualityOf (ok_reply text number) ⟦<EvaluationResult<R, O> as PartialEq>⟧.eq }
{}

/// Locations, and pieces too, are equal exactly if contracts can't tell them apart, provided that this holds of readers
/// and offsets. It does nothing; its contract states the law.
pub fn piece_equality_laws<R: Eq, O: Eq>()
    ensures location { (text : R → Text) (number : O → ℕ) → IsEqualityOf text R.PartialEq.eq
        → IsEqualityOf number O.PartialEq.eq
        → IsEqualityOf (location_of text number) ⟦<Location<R, O> as PartialEq>⟧.eq }
    ensures piece { (text : R → Text) (number : O → ℕ) → IsEqualityOf text R.PartialEq.eq
        → IsEqualityOf number O.PartialEq.eq
        → IsEqualityOf (piece_of text number) ⟦<Piece<R, O> as PartialEq>⟧.eq }
{}
