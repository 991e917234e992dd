//! Values as types and words.

ghost use Rattle.std.specs.Prelude.{◌≡◌, ◌^◌, ◌%◌, pos, MatchResult};
ghost use Rattle.dwarf_base.specs.Numbers.{residue};
ghost use Rattle.dwarf_value.specs.inner.OperandPairs.{AreOperands, UnfitOperands};
ghost use Rattle.dwarf_value.specs.Values.{IsAddressMask, width_of, word_integer, type_of, bit_size_of, is_signed, integer_of, value_of};

use crate::types::{Value, ValueType};
use crate::word::Word;
use dwarf_base::{Error, Result};

/// The type of two values, and their words.
pub(crate) type Operands = (ValueType, Word, Word);

/// The integer of a generic value, modulo 2^64: its lowest bits, as many as an address has, as a signed or an unsigned
/// number.
#[tactic(auto, using(crate::proofs::Integers::generic_integers))]
#[inline(always)]
fn generic_bits(content: u64, addr_mask: u64, signed: bool) -> u64
    requires { IsAddressMask addr_mask }
    ensures { word_integer signed 64 result
        ≡ word_integer signed (width_of addr_mask) (content % 2 ^ width_of addr_mask) }
{
    let bits = content & addr_mask;
    let is_negative = signed && bits > addr_mask >> 1;
    if is_negative { bits + !addr_mask } else { bits }
}

impl Value {
    /// The type and the word of a value. A generic value is cut to the bits of an address, and is `signed` or not.
    #[tactic(auto, unfolding(crate::specs::Values::width_of, crate::specs::Values::type_of, crate::specs::Values::bit_size_of, crate::specs::Values::is_signed, crate::specs::Values::integer_of, crate::specs::Values::word_integer), using(crate::proofs::Integers::word_bits))]
    #[inline(always)]
    pub(crate) fn parts(self, addr_mask: u64, signed: bool) -> (ValueType, Word)
        requires { IsAddressMask addr_mask }
        ensures value_type { result.0 ≡ type_of self }
        ensures width { result.1.width ≡ bit_size_of (width_of addr_mask) (type_of self) }
        ensures signed { result.1.signed ≡ is_signed signed (type_of self) }
        ensures bits { result.1.bits ≡ residue 64 (integer_of signed (width_of addr_mask) self) }
        ensures integer { word_integer result.1.signed 64 result.1.bits
            ≡ integer_of signed (width_of addr_mask) self }
    {
        let (value_type, bits, width, signed) = match self {
            Value::Generic(x) => {
                let bits = generic_bits(x, addr_mask, signed);
                (ValueType::Generic, bits, addr_mask.count_ones(), signed)
            }
            Value::I8(x) => (ValueType::I8, i64::from(x).cast_unsigned(), 8, true),
            Value::U8(x) => (ValueType::U8, u64::from(x), 8, false),
            Value::I16(x) => (ValueType::I16, i64::from(x).cast_unsigned(), 16, true),
            Value::U16(x) => (ValueType::U16, u64::from(x), 16, false),
            Value::I32(x) => (ValueType::I32, i64::from(x).cast_unsigned(), 32, true),
            Value::U32(x) => (ValueType::U32, u64::from(x), 32, false),
            Value::I64(x) => (ValueType::I64, x.cast_unsigned(), 64, true),
            Value::U64(x) => (ValueType::U64, x, 64, false),
        };
        let word = Word {
            bits,
            width,
            signed,
        };
        (value_type, word)
    }

    /// The type of two values, and their words. `TypeMismatch` if the types differ. A generic value is cut to the bits
    /// of an address, and is `signed` or not.
    #[tactic(auto, unfolding(crate::specs::Values::is_same))]
    #[inline(always)]
    pub(crate) fn operands(self, rhs: Value, addr_mask: u64, signed: bool) -> Result<Operands>
        requires { IsAddressMask addr_mask }
        ensures { MatchResult result
            (λ r. AreOperands signed (width_of addr_mask) self rhs r.0 r.1 r.2)
            (UnfitOperands self rhs) }
    {
        if self.value_type() != rhs.value_type() {
            return Err(Error::TypeMismatch);
        }
        let (value_type, x) = self.parts(addr_mask, signed);
        let (_, y) = rhs.parts(addr_mask, signed);
        Ok((value_type, x, y))
    }

    /// The lowest bits, as a value of this type. A generic value is cut to the bits of an address.
    #[tactic(auto, unfolding(crate::specs::Values::value_of), using(crate::proofs::MaskBits::and_address_mask))]
    #[inline(always)]
    pub(crate) fn make(value_type: ValueType, bits: u64, addr_mask: u64) -> Value
        requires { IsAddressMask addr_mask }
        ensures { result ≡ value_of (width_of addr_mask) value_type (pos bits) }
    {
        match value_type {
            ValueType::Generic => Value::Generic(bits & addr_mask),
            ValueType::I8 => Value::I8(((bits & 0xff) as u8).cast_signed()),
            ValueType::U8 => Value::U8((bits & 0xff) as u8),
            ValueType::I16 => Value::I16(((bits & 0xffff) as u16).cast_signed()),
            ValueType::U16 => Value::U16((bits & 0xffff) as u16),
            ValueType::I32 => Value::I32(((bits & 0xffff_ffff) as u32).cast_signed()),
            ValueType::U32 => Value::U32((bits & 0xffff_ffff) as u32),
            ValueType::I64 => Value::I64(bits.cast_signed()),
            ValueType::U64 => Value::U64(bits),
        }
    }
}
