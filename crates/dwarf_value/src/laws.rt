//! Laws of values.

ghost use Rattle.std.specs.Prelude.{◌≡◌, ℕ, pos, negsuc, Result, Ok, Err};
ghost use Rattle.dwarf_base.specs.Equality.{IsEquality};
ghost use Rattle.dwarf_base.specs.declared.errors.Error.{Error};
ghost use Rattle.dwarf_base.specs.declared.errors.Error.TheVariants.{UnsupportedTypeOperation};
ghost use Rattle.dwarf_value.specs.declared.types.Value.{Value};
ghost use Rattle.dwarf_value.specs.declared.types.Value.TheVariants.{I8, U8, I16, I32, I64};
ghost use Rattle.dwarf_value.specs.Values.{unary_of, Neg};
ghost use Rattle.dwarf_value.specs.Laws.{InRange, Trichotomy, Opposites, QuotientAndRemainder, GivesBack, GivesBackSigned, NegateTwice, NegateTwiceGeneric, ReinterpretTwice, AgreementIsKept};

use crate::types::{Value, ValueType};

/// Laws of what the calls on values return, for every address mask, and worked rows of negation.
///
/// It does nothing. Its contract states the laws. The rows show that a law of all signed types covers the least value
/// of each type, and what negation gives for -128 and its neighbours.
pub fn value_laws()
    ensures trichotomy { Trichotomy }
    ensures opposites { Opposites }
    ensures quotient_and_remainder { QuotientAndRemainder }
    ensures negate_twice { NegateTwice }
    ensures negate_twice_generic { NegateTwiceGeneric }
    ensures reinterpret_twice { ReinterpretTwice }
    ensures agreement_is_kept { AgreementIsKept }
    ensures each_signed_type { (operator : ℕ → Value → Result Value Error) → GivesBackSigned operator
        → GivesBack operator 32 (I8 (negsuc 127)) × GivesBack operator 32 (I16 (negsuc 32767))
        × GivesBack operator 32 (I32 (negsuc 2147483647))
        × GivesBack operator 32 (I64 (negsuc 9223372036854775807)) }
    ensures least_byte { unary_of Neg 32 (I8 (negsuc 127)) ≡ Ok (I8 (negsuc 127)) }
    ensures next_byte { unary_of Neg 32 (I8 (negsuc 126)) ≡ Ok (I8 (pos 127)) }
    ensures byte_below { InRange (I8 (negsuc 128)) → ⊥ }
    ensures unsigned_byte { unary_of Neg 32 (U8 128) ≡ Err UnsupportedTypeOperation }
{}

/// Types and values are equal exactly if contracts can't tell them apart: all 64 bits of a generic value count. It does
/// nothing; its contract states the laws.
pub fn equality_laws()
    ensures types { IsEquality ⟦<ValueType as PartialEq>⟧.eq }
    ensures values { IsEquality ⟦<Value as PartialEq>⟧.eq }
{}
