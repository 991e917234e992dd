//! Laws of equality.
ghost use Rattle.std.specs.Prelude.{ℕ};
ghost use Rattle.dwarf_base.specs.Equality.{IsEqualityOf};
ghost use Rattle.dwarf_base.specs.Reads.{Text};
ghost use Rattle.dwarf_op.specs.Views.{operation_of, reference_of};

use crate::operations::{DieReference, Operation};

/// References are equal exactly if contracts can't tell them apart, provided that this holds of offsets. It does
/// nothing; its contract states the law.
pub fn reference_equality_laws<O: Eq>()
    ensures { (number : O → ℕ) → IsEqualityOf number O.PartialEq.eq
        → IsEqualityOf (reference_of number) ⟦<DieReference<O> as PartialEq>⟧.eq }
{}

/// Operations are equal exactly if contracts can't tell them apart, provided that this holds of readers and offsets. It
/// does nothing; its contract states the law.
pub fn operation_equality_laws<R: Eq, O: Eq>()
    ensures { (text : R → Text) (number : O → ℕ) → IsEqualityOf text R.PartialEq.eq
        → IsEqualityOf number O.PartialEq.eq
        → IsEqualityOf (operation_of text number) ⟦<Operation<R, O> as PartialEq>⟧.eq }
{}
