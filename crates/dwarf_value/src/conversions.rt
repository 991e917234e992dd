ghost use Rattle.std.specs.Prelude.{◌≡◌, Ok};
ghost use Rattle.dwarf_base.specs.Faults.{Returns};
ghost use Rattle.dwarf_value.specs.Values.{IsAddressMask, width_of, parse_of, to_u64_of, from_u64_of, convert_of, reinterpret_of};

use crate::types::{Value, ValueType};
use dwarf_base::{Error, Reader, Result};

impl Value {
    /// Reads a value of the type from the first bytes, in their byte order. Further bytes are ignored.
    ///
    /// `UnsupportedTypeOperation` for the generic type; else `UnexpectedEof` if there are too few bytes.
    #[tactic(auto, unfolding(crate::specs::Values::is_same), using(crate::proofs::Congruences::byte_sizes))]
    #[inline(always)]
    pub fn parse<R: Reader + Copy>(value_type: ValueType, bytes: R) -> Result<Value>
        ensures { Returns (λ value. value) result
            (parse_of value_type (R.text bytes).is_big (R.text bytes).bytes) }
    {
        if value_type == ValueType::Generic {
            return Err(Error::UnsupportedTypeOperation);
        }
        let mut rest = bytes;
        let byte_size = value_type.bit_size(u64::MAX) / 8;
        let number = rest.read_fixed(byte_size as u8)?;
        Value::from_u64(value_type, number)
    }

    /// The value as a number of 64 bits. A signed value is sign-extended; a generic value is cut to the bits of an
    /// address. It never fails.
    ///
    /// `addr_mask` has a one for each bit of an address; [`is_addr_mask`](crate::is_addr_mask) checks that.
    #[inline(always)]
    pub fn to_u64(self, addr_mask: u64) -> Result<u64>
        requires { IsAddressMask addr_mask }
        ensures { result ≡ Ok (to_u64_of (width_of addr_mask) self) }
    {
        let (_, word) = self.parts(addr_mask, false);
        Ok(word.bits)
    }

    /// The number as a value of the type, wrapped to its size. It never fails.
    #[tactic(auto, using(crate::proofs::Congruences::low_bits_only))]
    #[inline(always)]
    pub fn from_u64(value_type: ValueType, value: u64) -> Result<Value>
        ensures { result ≡ Ok (from_u64_of value_type value) }
    {
        Ok(Value::make(value_type, value, u64::MAX))
    }

    /// Converts the value to another type, through `to_u64` and `from_u64` (`DW_OP_convert`). It never fails.
    ///
    /// `addr_mask` has a one for each bit of an address; [`is_addr_mask`](crate::is_addr_mask) checks that.
    #[inline(always)]
    pub fn convert(self, value_type: ValueType, addr_mask: u64) -> Result<Value>
        requires { IsAddressMask addr_mask }
        ensures { result ≡ convert_of (width_of addr_mask) value_type self }
    {
        let bits = self.to_u64(addr_mask)?;
        Value::from_u64(value_type, bits)
    }

    /// The value's bits in another type of the same size (`DW_OP_reinterpret`). `TypeMismatch` if the sizes differ.
    ///
    /// A generic value that stays generic keeps all 64 bits.
    ///
    /// `addr_mask` has a one for each bit of an address; [`is_addr_mask`](crate::is_addr_mask) checks that.
    #[tactic(auto, using(crate::proofs::Congruences::low_bits_only))]
    #[inline(always)]
    pub fn reinterpret(self, value_type: ValueType, addr_mask: u64) -> Result<Value>
        requires { IsAddressMask addr_mask }
        ensures { result ≡ reinterpret_of (width_of addr_mask) value_type self }
    {
        if self.value_type().bit_size(addr_mask) != value_type.bit_size(addr_mask) {
            return Err(Error::TypeMismatch);
        }
        self.convert(value_type, u64::MAX)
    }
}
