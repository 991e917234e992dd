//! Values, and their types.

ghost use Rattle.std.specs.Prelude.{◌≡◌};
ghost use Rattle.dwarf_value.specs.Values.{IsAddressMask, width_of, type_of, bit_size_of, is_signed, from_encoding_of};

use dwarf_base::DwAte;
use dwarf_base::constants::{DW_ATE_signed, DW_ATE_unsigned};

/// The type of a value.
#[derive(Clone, Copy, Debug, PartialEq, Eq)]
pub enum ValueType {
    /// The generic type: as wide as an address, and without a sign of its own (DWARF 5, section 2.5.1).
    Generic,
    /// Signed integers of 8 bits.
    I8,
    /// Unsigned integers of 8 bits.
    U8,
    /// Signed integers of 16 bits.
    I16,
    /// Unsigned integers of 16 bits.
    U16,
    /// Signed integers of 32 bits.
    I32,
    /// Unsigned integers of 32 bits.
    U32,
    /// Signed integers of 64 bits.
    I64,
    /// Unsigned integers of 64 bits.
    U64,
}

/// A value on the stack of a DWARF expression.
#[derive(Clone, Copy, Debug, PartialEq, Eq)]
pub enum Value {
    /// A generic value. Operations use only its lowest bits, as many as an address has; `reinterpret` uses all 64. A
    /// value that is only passed on keeps all 64.
    Generic(u64),
    /// A signed integer of 8 bits.
    I8(i8),
    /// An unsigned integer of 8 bits.
    U8(u8),
    /// A signed integer of 16 bits.
    I16(i16),
    /// An unsigned integer of 16 bits.
    U16(u16),
    /// A signed integer of 32 bits.
    I32(i32),
    /// An unsigned integer of 32 bits.
    U32(u32),
    /// A signed integer of 64 bits.
    I64(i64),
    /// An unsigned integer of 64 bits.
    U64(u64),
}

impl Default for Value {
    ghost use Rattle.dwarf_value.specs.declared.types.Value.{Value};

    ghost is_default = { λ value. value ≡ Value.Generic 0 };

    /// The generic zero.
    #[inline(always)]
    fn default() -> Self {
        Value::Generic(0)
    }
}

impl ValueType {
    /// The size of the type's values in bits.
    ///
    /// `addr_mask` has a one for each bit of an address; [`is_addr_mask`](crate::is_addr_mask) checks that.
    #[tactic(auto, unfolding(crate::specs::Values::bit_size_of, crate::specs::Values::width_of))]
    #[inline(always)]
    pub fn bit_size(self, addr_mask: u64) -> u32
        requires { IsAddressMask addr_mask }
        ensures { result ≡ bit_size_of (width_of addr_mask) self }
    {
        match self {
            ValueType::Generic => addr_mask.count_ones(),
            ValueType::I8 | ValueType::U8 => 8,
            ValueType::I16 | ValueType::U16 => 16,
            ValueType::I32 | ValueType::U32 => 32,
            ValueType::I64 | ValueType::U64 => 64,
        }
    }

    /// The type of values for a base type with this encoding and this size in bytes (DWARF 5, sections 5.1 and 7.8).
    /// `None` unless the encoding is `DW_ATE_signed` or `DW_ATE_unsigned` and the size is 1, 2, 4 or 8.
    pub fn from_encoding(encoding: DwAte, byte_size: u64) -> Option<ValueType>
        ensures { result ≡ from_encoding_of encoding.0 byte_size }
    {
        Some(match (encoding, byte_size) {
            (DW_ATE_signed, 1) => ValueType::I8,
            (DW_ATE_signed, 2) => ValueType::I16,
            (DW_ATE_signed, 4) => ValueType::I32,
            (DW_ATE_signed, 8) => ValueType::I64,
            (DW_ATE_unsigned, 1) => ValueType::U8,
            (DW_ATE_unsigned, 2) => ValueType::U16,
            (DW_ATE_unsigned, 4) => ValueType::U32,
            (DW_ATE_unsigned, 8) => ValueType::U64,
            _ => return None,
        })
    }
}

impl Value {
    /// The value's type.
    #[tactic(auto, using(crate::proofs::Congruences::low_bits_only))]
    #[inline(always)]
    pub fn value_type(&self) -> ValueType
        ensures { result ≡ type_of self.now }
    {
        self.parts(u64::MAX, false).0
    }
}
