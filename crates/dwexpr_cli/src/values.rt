//! Types and values in the input.

ghost use Rattle.std.specs.Prelude.{◌≡◌};
ghost use Rattle.dwexpr_cli.specs.StepLines.{type_in, value_in, value_of_type};

use crate::numbers::{integer_of, number_of};
use dwarf_value::{Value, ValueType};

/// The type that a word names.
pub(crate) fn type_of(word: &str) -> Option<ValueType>
    ensures { result ≡ type_in word.now }
{
    match word {
        "generic" => Some(ValueType::Generic),
        "i8" => Some(ValueType::I8),
        "u8" => Some(ValueType::U8),
        "i16" => Some(ValueType::I16),
        "u16" => Some(ValueType::U16),
        "i32" => Some(ValueType::I32),
        "u32" => Some(ValueType::U32),
        "i64" => Some(ValueType::I64),
        "u64" => Some(ValueType::U64),
        _ => None,
    }
}

/// The value of this type that a number spells.
#[tactic(auto, using(crate::proofs::Reading::narrowed_to_i8, crate::proofs::Reading::narrowed_to_i16, crate::proofs::Reading::narrowed_to_i32, crate::proofs::Reading::narrowed_unsigned))]
fn typed_value(value_type: ValueType, number: &str) -> Option<Value>
    ensures { result ≡ value_of_type number.now value_type }
{
    Some(match value_type {
        ValueType::Generic => Value::Generic(number_of(number)?),
        ValueType::I8 => Value::I8(i8::try_from(integer_of(number)?).ok()?),
        ValueType::U8 => Value::U8(u8::try_from(number_of(number)?).ok()?),
        ValueType::I16 => Value::I16(i16::try_from(integer_of(number)?).ok()?),
        ValueType::U16 => Value::U16(u16::try_from(number_of(number)?).ok()?),
        ValueType::I32 => Value::I32(i32::try_from(integer_of(number)?).ok()?),
        ValueType::U32 => Value::U32(u32::try_from(number_of(number)?).ok()?),
        ValueType::I64 => Value::I64(integer_of(number)?),
        ValueType::U64 => Value::U64(number_of(number)?),
    })
}

/// The value that a word spells: a type, a colon and a number of the type.
pub(crate) fn value_of(word: &str) -> Option<Value>
    ensures { result ≡ value_in word.now }
{
    let (name, number) = word.split_once(':')?;
    typed_value(type_of(name)?, number)
}
