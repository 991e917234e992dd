ghost use Rattle.std.specs.Prelude.{◌≡◌};
ghost use Rattle.dwarf_value.specs.Values.{IsAddressMask, width_of, unary_of, binary_of, Not, Xor, And, Or};

use crate::types::Value;
use dwarf_base::Result;

impl Value {
    /// The bitwise complement (`DW_OP_not`). It never fails.
    ///
    /// `addr_mask` has a one for each bit of an address; [`is_addr_mask`](crate::is_addr_mask) checks that.
    #[tactic(auto, using(crate::proofs::Congruences::negated))]
    #[inline(always)]
    pub fn not(self, addr_mask: u64) -> Result<Value>
        requires { IsAddressMask addr_mask }
        ensures { result ≡ unary_of Not (width_of addr_mask) self }
    {
        let (value_type, word) = self.parts(addr_mask, false);
        Value::from_u64(value_type, !word.bits)
    }

    /// The bitwise and (`DW_OP_and`). `TypeMismatch` if the types differ.
    ///
    /// `addr_mask` has a one for each bit of an address; [`is_addr_mask`](crate::is_addr_mask) checks that.
    #[inline(always)]
    pub fn and(self, rhs: Value, addr_mask: u64) -> Result<Value>
        requires { IsAddressMask addr_mask }
        ensures { result ≡ binary_of And (width_of addr_mask) self rhs }
    {
        let (value_type, x, y) = self.operands(rhs, addr_mask, false)?;
        Value::from_u64(value_type, x.bits & y.bits)
    }

    /// The bitwise or (`DW_OP_or`). `TypeMismatch` if the types differ.
    ///
    /// `addr_mask` has a one for each bit of an address; [`is_addr_mask`](crate::is_addr_mask) checks that.
    #[inline(always)]
    pub fn or(self, rhs: Value, addr_mask: u64) -> Result<Value>
        requires { IsAddressMask addr_mask }
        ensures { result ≡ binary_of Or (width_of addr_mask) self rhs }
    {
        let (value_type, x, y) = self.operands(rhs, addr_mask, false)?;
        Value::from_u64(value_type, x.bits | y.bits)
    }

    /// The bitwise exclusive or (`DW_OP_xor`). `TypeMismatch` if the types differ.
    ///
    /// `addr_mask` has a one for each bit of an address; [`is_addr_mask`](crate::is_addr_mask) checks that.
    #[inline(always)]
    pub fn xor(self, rhs: Value, addr_mask: u64) -> Result<Value>
        requires { IsAddressMask addr_mask }
        ensures { result ≡ binary_of Xor (width_of addr_mask) self rhs }
    {
        let (value_type, x, y) = self.operands(rhs, addr_mask, false)?;
        Value::from_u64(value_type, x.bits ^ y.bits)
    }
}
