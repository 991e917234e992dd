//! Shifts of values.

ghost use Rattle.std.specs.Prelude.{◌≡◌, ◌^◌, pos, neg_ℤ, ◌≤ℤ◌, ◌<ℤ◌, MatchResult};
ghost use Rattle.dwarf_value.specs.inner.OperandPairs.{IsLength, UnfitLength};
ghost use Rattle.dwarf_value.specs.Values.{IsAddressMask, width_of, floor_quotient, binary_of, Shl, Shr, Shra};

use crate::types::Value;
use dwarf_base::{Error, Result};

impl Value {
    /// Shifts to the left by a length of any type, and fills with zeros (`DW_OP_shl`). The result is zero if the length
    /// is at least the type's size. `InvalidShiftExpression` if the length is negative.
    ///
    /// `addr_mask` has a one for each bit of an address; [`is_addr_mask`](crate::is_addr_mask) checks that.
    #[tactic(auto, using(crate::proofs::Congruences::left_shifts))]
    #[inline(always)]
    pub fn shl(self, rhs: Value, addr_mask: u64) -> Result<Value>
        requires { IsAddressMask addr_mask }
        ensures { result ≡ binary_of Shl (width_of addr_mask) self rhs }
    {
        let length = rhs.shift_length(addr_mask)?;
        let (value_type, word) = self.parts(addr_mask, false);
        if length >= u64::from(word.width) {
            return Value::from_u64(value_type, 0);
        }
        Value::from_u64(value_type, word.bits << length)
    }

    /// Shifts to the right by a length of any type, and fills with zeros (`DW_OP_shr`). A generic value is an unsigned
    /// integer here.
    ///
    /// `InvalidShiftExpression` if the length is negative; else `UnsupportedTypeOperation` for a signed type.
    ///
    /// `addr_mask` has a one for each bit of an address; [`is_addr_mask`](crate::is_addr_mask) checks that.
    #[tactic(auto, unfolding(crate::specs::Values::word_integer), using(crate::proofs::Integers::shifted_out))]
    #[inline(always)]
    pub fn shr(self, rhs: Value, addr_mask: u64) -> Result<Value>
        requires { IsAddressMask addr_mask }
        ensures { result ≡ binary_of Shr (width_of addr_mask) self rhs }
    {
        let length = rhs.shift_length(addr_mask)?;
        let (value_type, word) = self.parts(addr_mask, false);
        if word.signed {
            return Err(Error::UnsupportedTypeOperation);
        }
        if length >= 64 {
            return Value::from_u64(value_type, 0);
        }
        Value::from_u64(value_type, word.bits >> length)
    }

    /// Shifts to the right by a length of any type, and fills with copies of the sign (`DW_OP_shra`). A generic value
    /// is a signed integer here.
    ///
    /// `InvalidShiftExpression` if the length is negative; else `UnsupportedTypeOperation` for an unsigned type.
    ///
    /// `addr_mask` has a one for each bit of an address; [`is_addr_mask`](crate::is_addr_mask) checks that.
    #[inline(always)]
    pub fn shra(self, rhs: Value, addr_mask: u64) -> Result<Value>
        requires { IsAddressMask addr_mask }
        ensures { result ≡ binary_of Shra (width_of addr_mask) self rhs }
    {
        let length = rhs.shift_length(addr_mask)?;
        let (value_type, word) = self.parts(addr_mask, true);
        if !word.signed {
            return Err(Error::UnsupportedTypeOperation);
        }
        let bits = (word.bits.cast_signed() >> length.min(63)).cast_unsigned();
        Value::from_u64(value_type, bits)
    }

    /// The length of a shift by this value. `InvalidShiftExpression` if it is negative.
    #[inline(always)]
    fn shift_length(self, addr_mask: u64) -> Result<u64>
        requires { IsAddressMask addr_mask }
        ensures { MatchResult result (IsLength (width_of addr_mask) self)
            (UnfitLength (width_of addr_mask) self) }
    {
        let (_, length) = self.parts(addr_mask, false);
        if length.is_negative() {
            return Err(Error::InvalidShiftExpression);
        }
        Ok(length.magnitude())
    }
}
