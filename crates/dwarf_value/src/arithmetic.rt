//! Sums, differences, products, quotients and remainders of values.

ghost use Rattle.std.specs.Prelude.{◌≡◌, ◌≢◌, ◌^◌, pos, neg_ℤ, ◌+ℤ◌, ◌-ℤ◌, ◌*ℤ◌, ◌≤ℤ◌, ◌<ℤ◌, unsigned_abs, int_div, int_rem, MatchResult};
ghost use Rattle.dwarf_base.specs.Numbers.{residue};
ghost use Rattle.dwarf_value.specs.inner.OperandPairs.{AreDivided, UnfitDivision};
ghost use Rattle.dwarf_value.specs.Values.{IsAddressMask, width_of, combination, unary_of, binary_of, Abs, Neg, Div, Mod};

use crate::parts::Operands;
use crate::types::Value;
use crate::word::negated_if;
use dwarf_base::{Error, Result};

impl Value {
    /// The sum, wrapped (`DW_OP_plus`). `TypeMismatch` if the types differ.
    ///
    /// `addr_mask` has a one for each bit of an address; [`is_addr_mask`](crate::is_addr_mask) checks that.
    #[tactic(auto, using(crate::proofs::Congruences::wrapped))]
    #[inline(always)]
    pub fn add(self, rhs: Value, addr_mask: u64) -> Result<Value>
        requires { IsAddressMask addr_mask }
        ensures { result ≡ combination ◌+ℤ◌ (width_of addr_mask) self rhs }
    {
        let (value_type, x, y) = self.operands(rhs, addr_mask, false)?;
        Ok(Value::make(value_type, x.bits.wrapping_add(y.bits), addr_mask))
    }

    /// The difference, wrapped (`DW_OP_minus`). `TypeMismatch` if the types differ.
    ///
    /// `addr_mask` has a one for each bit of an address; [`is_addr_mask`](crate::is_addr_mask) checks that.
    #[tactic(auto, using(crate::proofs::Congruences::wrapped))]
    #[inline(always)]
    pub fn sub(self, rhs: Value, addr_mask: u64) -> Result<Value>
        requires { IsAddressMask addr_mask }
        ensures { result ≡ combination ◌-ℤ◌ (width_of addr_mask) self rhs }
    {
        let (value_type, x, y) = self.operands(rhs, addr_mask, false)?;
        Ok(Value::make(value_type, x.bits.wrapping_sub(y.bits), addr_mask))
    }

    /// The product, wrapped (`DW_OP_mul`). `TypeMismatch` if the types differ.
    ///
    /// `addr_mask` has a one for each bit of an address; [`is_addr_mask`](crate::is_addr_mask) checks that.
    #[tactic(auto, using(crate::proofs::Congruences::wrapped))]
    #[inline(always)]
    pub fn mul(self, rhs: Value, addr_mask: u64) -> Result<Value>
        requires { IsAddressMask addr_mask }
        ensures { result ≡ combination ◌*ℤ◌ (width_of addr_mask) self rhs }
    {
        let (value_type, x, y) = self.operands(rhs, addr_mask, false)?;
        Ok(Value::make(value_type, x.bits.wrapping_mul(y.bits), addr_mask))
    }

    /// The quotient, rounded towards zero and wrapped (`DW_OP_div`). Generic values are divided as signed integers.
    ///
    /// `DivisionByZero` if the divisor is zero, whatever its type; else `TypeMismatch` if the types differ.
    ///
    /// `addr_mask` has a one for each bit of an address; [`is_addr_mask`](crate::is_addr_mask) checks that.
    #[tactic(auto, using(crate::proofs::Congruences::low_bits_only))]
    #[inline(always)]
    pub fn div(self, rhs: Value, addr_mask: u64) -> Result<Value>
        requires { IsAddressMask addr_mask }
        ensures { result ≡ binary_of Div (width_of addr_mask) self rhs }
    {
        let (value_type, x, y) = self.divided_by(rhs, addr_mask, true)?;
        let negative = x.is_negative() != y.is_negative();
        let quotient = x.magnitude() / y.magnitude();
        Value::from_u64(value_type, negated_if(negative, quotient))
    }

    /// The remainder, with the dividend's sign (`DW_OP_mod`). Generic values are divided as unsigned integers.
    ///
    /// `DivisionByZero` if the divisor is zero, whatever its type; else `TypeMismatch` if the types differ.
    ///
    /// `addr_mask` has a one for each bit of an address; [`is_addr_mask`](crate::is_addr_mask) checks that.
    #[tactic(auto, using(crate::proofs::Congruences::low_bits_only))]
    #[inline(always)]
    pub fn rem(self, rhs: Value, addr_mask: u64) -> Result<Value>
        requires { IsAddressMask addr_mask }
        ensures { result ≡ binary_of Mod (width_of addr_mask) self rhs }
    {
        let (value_type, x, y) = self.divided_by(rhs, addr_mask, false)?;
        let remainder = x.magnitude() % y.magnitude();
        Value::from_u64(value_type, negated_if(x.is_negative(), remainder))
    }

    /// The absolute value, wrapped (`DW_OP_abs`). A generic value is a signed integer here. It never fails.
    ///
    /// `addr_mask` has a one for each bit of an address; [`is_addr_mask`](crate::is_addr_mask) checks that.
    #[inline(always)]
    pub fn abs(self, addr_mask: u64) -> Result<Value>
        requires { IsAddressMask addr_mask }
        ensures { result ≡ unary_of Abs (width_of addr_mask) self }
    {
        let (value_type, word) = self.parts(addr_mask, true);
        Value::from_u64(value_type, word.magnitude())
    }

    /// The negated value, wrapped (`DW_OP_neg`). A generic value is a signed integer here.
    /// `UnsupportedTypeOperation` for an unsigned type.
    ///
    /// `addr_mask` has a one for each bit of an address; [`is_addr_mask`](crate::is_addr_mask) checks that.
    #[tactic(auto, using(crate::proofs::Congruences::negated))]
    #[inline(always)]
    pub fn neg(self, addr_mask: u64) -> Result<Value>
        requires { IsAddressMask addr_mask }
        ensures { result ≡ unary_of Neg (width_of addr_mask) self }
    {
        let (value_type, word) = self.parts(addr_mask, true);
        if !word.signed {
            return Err(Error::UnsupportedTypeOperation);
        }
        Value::from_u64(value_type, word.bits.wrapping_neg())
    }

    /// The `operands` of a division. `DivisionByZero` if the divisor is zero; else `TypeMismatch` if the types differ.
    #[inline(always)]
    fn divided_by(self, rhs: Value, addr_mask: u64, signed: bool) -> Result<Operands>
        requires { IsAddressMask addr_mask }
        ensures { MatchResult result
            (λ r. AreDivided signed (width_of addr_mask) self rhs r.0 r.1 r.2)
            (UnfitDivision (width_of addr_mask) self rhs) }
    {
        let (_, divisor) = rhs.parts(addr_mask, signed);
        if divisor.bits == 0 {
            return Err(Error::DivisionByZero);
        }
        self.operands(rhs, addr_mask, signed)
    }
}
