ghost use Rattle.std.specs.Prelude.{◌≡◌};
ghost use Rattle.dwarf_value.specs.Values.{IsAddressMask, width_of, binary_of, Eq, Ge, Gt, Le, Lt, Ne};

use crate::types::Value;
use dwarf_base::Result;

impl Value {
    /// Whether the two are equal, as the generic 1 or 0 (`DW_OP_eq`). Generic values are signed integers here.
    /// `TypeMismatch` if the types differ.
    ///
    /// `addr_mask` has a one for each bit of an address; [`is_addr_mask`](crate::is_addr_mask) checks that.
    #[inline(always)]
    pub fn eq(self, rhs: Value, addr_mask: u64) -> Result<Value>
        requires { IsAddressMask addr_mask }
        ensures { result ≡ binary_of Eq (width_of addr_mask) self rhs }
    {
        let (_, x, y) = self.operands(rhs, addr_mask, true)?;
        Ok(Value::Generic(u64::from(x.sort_key() == y.sort_key())))
    }

    /// Whether it is at least `rhs`, as the generic 1 or 0 (`DW_OP_ge`). Generic values are signed integers here.
    /// `TypeMismatch` if the types differ.
    ///
    /// `addr_mask` has a one for each bit of an address; [`is_addr_mask`](crate::is_addr_mask) checks that.
    #[inline(always)]
    pub fn ge(self, rhs: Value, addr_mask: u64) -> Result<Value>
        requires { IsAddressMask addr_mask }
        ensures { result ≡ binary_of Ge (width_of addr_mask) self rhs }
    {
        let (_, x, y) = self.operands(rhs, addr_mask, true)?;
        Ok(Value::Generic(u64::from(x.sort_key() >= y.sort_key())))
    }

    /// Whether it is above `rhs`, as the generic 1 or 0 (`DW_OP_gt`). Generic values are signed integers here.
    /// `TypeMismatch` if the types differ.
    ///
    /// `addr_mask` has a one for each bit of an address; [`is_addr_mask`](crate::is_addr_mask) checks that.
    #[inline(always)]
    pub fn gt(self, rhs: Value, addr_mask: u64) -> Result<Value>
        requires { IsAddressMask addr_mask }
        ensures { result ≡ binary_of Gt (width_of addr_mask) self rhs }
    {
        let (_, x, y) = self.operands(rhs, addr_mask, true)?;
        Ok(Value::Generic(u64::from(x.sort_key() > y.sort_key())))
    }

    /// Whether it is at most `rhs`, as the generic 1 or 0 (`DW_OP_le`). Generic values are signed integers here.
    /// `TypeMismatch` if the types differ.
    ///
    /// `addr_mask` has a one for each bit of an address; [`is_addr_mask`](crate::is_addr_mask) checks that.
    #[inline(always)]
    pub fn le(self, rhs: Value, addr_mask: u64) -> Result<Value>
        requires { IsAddressMask addr_mask }
        ensures { result ≡ binary_of Le (width_of addr_mask) self rhs }
    {
        let (_, x, y) = self.operands(rhs, addr_mask, true)?;
        Ok(Value::Generic(u64::from(x.sort_key() <= y.sort_key())))
    }

    /// Whether it is below `rhs`, as the generic 1 or 0 (`DW_OP_lt`). Generic values are signed integers here.
    /// `TypeMismatch` if the types differ.
    ///
    /// `addr_mask` has a one for each bit of an address; [`is_addr_mask`](crate::is_addr_mask) checks that.
    #[inline(always)]
    pub fn lt(self, rhs: Value, addr_mask: u64) -> Result<Value>
        requires { IsAddressMask addr_mask }
        ensures { result ≡ binary_of Lt (width_of addr_mask) self rhs }
    {
        let (_, x, y) = self.operands(rhs, addr_mask, true)?;
        Ok(Value::Generic(u64::from(x.sort_key() < y.sort_key())))
    }

    /// Whether the two differ, as the generic 1 or 0 (`DW_OP_ne`). Generic values are signed integers here.
    /// `TypeMismatch` if the types differ.
    ///
    /// `addr_mask` has a one for each bit of an address; [`is_addr_mask`](crate::is_addr_mask) checks that.
    #[inline(always)]
    pub fn ne(self, rhs: Value, addr_mask: u64) -> Result<Value>
        requires { IsAddressMask addr_mask }
        ensures { result ≡ binary_of Ne (width_of addr_mask) self rhs }
    {
        let (_, x, y) = self.operands(rhs, addr_mask, true)?;
        Ok(Value::Generic(u64::from(x.sort_key() != y.sort_key())))
    }
}
