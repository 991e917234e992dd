//! Types and values as numbers.

ghost use Rattle.std.specs.Prelude.{◌≡◌};
ghost use Rattle.dwexpr_c.specs.CodedValues.{shown_value, type_code, type_coded, value_coded};

use crate::types;
use dwarf_value::{Value, ValueType};

/// The type with a code.
#[inline(always)]
pub(crate) fn type_of_code(code: u32) -> Option<ValueType>
    ensures { result ≡ type_coded code }
{
    match code {
        types::GENERIC => Some(ValueType::Generic),
        types::I8 => Some(ValueType::I8),
        types::U8 => Some(ValueType::U8),
        types::I16 => Some(ValueType::I16),
        types::U16 => Some(ValueType::U16),
        types::I32 => Some(ValueType::I32),
        types::U32 => Some(ValueType::U32),
        types::I64 => Some(ValueType::I64),
        types::U64 => Some(ValueType::U64),
        _ => None,
    }
}

/// The code of a type; 0 if there is none.
pub(crate) fn code_of_type(value_type: Option<ValueType>) -> u32
    ensures { result ≡ type_code value_type }
{
    match value_type {
        None => types::NO_TYPE,
        Some(ValueType::Generic) => types::GENERIC,
        Some(ValueType::I8) => types::I8,
        Some(ValueType::U8) => types::U8,
        Some(ValueType::I16) => types::I16,
        Some(ValueType::U16) => types::U16,
        Some(ValueType::I32) => types::I32,
        Some(ValueType::U32) => types::U32,
        Some(ValueType::I64) => types::I64,
        Some(ValueType::U64) => types::U64,
    }
}

/// A value as callers see it. Any of its numbers may be wrong.
#[repr(C)]
#[derive(Clone, Copy)]
pub struct DwexprValue {
    /// The code of its type; 0 if there is no value.
    pub value_type: u32,
    /// Its content. In a result, a signed content is sign-extended to 64 bits. In an argument, only the lowest bits
    /// count, as many as the type has.
    pub content: u64,
}

/// No value.
pub(crate) const NO_VALUE: DwexprValue = DwexprValue {
    value_type: types::NO_TYPE,
    content: 0,
};

/// The type and the content of a value.
#[inline(never)]
pub(crate) fn numbers_of_value(value: Value) -> DwexprValue
    ensures { result ≡ shown_value value }
{
    let (value_type, content) = match value {
        Value::Generic(content) => (types::GENERIC, content),
        Value::I8(number) => (types::I8, i64::from(number).cast_unsigned()),
        Value::U8(number) => (types::U8, u64::from(number)),
        Value::I16(number) => (types::I16, i64::from(number).cast_unsigned()),
        Value::U16(number) => (types::U16, u64::from(number)),
        Value::I32(number) => (types::I32, i64::from(number).cast_unsigned()),
        Value::U32(number) => (types::U32, u64::from(number)),
        Value::I64(number) => (types::I64, number.cast_unsigned()),
        Value::U64(number) => (types::U64, number),
    };
    DwexprValue {
        value_type,
        content,
    }
}

/// The content as a value of the type with this code, wrapped to its size.
#[inline(always)]
pub(crate) fn value_of(code: u32, content: u64) -> Option<Value>
    ensures { result ≡ value_coded code content }
{
    let value_type = type_of_code(code)?;
    Value::from_u64(value_type, content).ok()
}
