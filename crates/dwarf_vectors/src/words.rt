//! Words of the vectors: bytes, types, values, encodings, and the names of faults and operations.

use crate::vectors::Vector;
use dwarf_base::{Encoding, EndianSlice, Error, Format, RunTimeEndian};
use dwarf_value::{Value, ValueType};
use std::alloc::Global;

pub(crate) type Bytes<'a> = EndianSlice<'a, RunTimeEndian>;

/// The bytes of pairs of hexadecimal digits; `-` stands for none.
pub(crate) fn bytes_in(alloc: Global, digits: &str) -> Option<Vec<u8>> {
    hex::decode(alloc, digits.trim_matches('-')).ok()
}

/// The same bytes in the vector's order. They are never freed; the program is short.
pub(crate) fn read(alloc: Global, digits: &str, order: RunTimeEndian) -> Option<Bytes<'static>> {
    Some(EndianSlice::new(bytes_in(alloc, digits)?.leak(), order))
}

pub(crate) fn type_in(word: &str) -> Option<ValueType> {
    Some(match word {
        "generic" => ValueType::Generic,
        "i8" => ValueType::I8,
        "u8" => ValueType::U8,
        "i16" => ValueType::I16,
        "u16" => ValueType::U16,
        "i32" => ValueType::I32,
        "u32" => ValueType::U32,
        "i64" => ValueType::I64,
        "u64" => ValueType::U64,
        _ => return None,
    })
}

/// The value that a type, a colon and a number spell.
pub(crate) fn value_in(word: &str) -> Option<Value> {
    let (name, number) = word.split_once(':')?;
    Some(match type_in(name)? {
        ValueType::Generic => Value::Generic(number.parse().ok()?),
        ValueType::I8 => Value::I8(number.parse().ok()?),
        ValueType::U8 => Value::U8(number.parse().ok()?),
        ValueType::I16 => Value::I16(number.parse().ok()?),
        ValueType::U16 => Value::U16(number.parse().ok()?),
        ValueType::I32 => Value::I32(number.parse().ok()?),
        ValueType::U32 => Value::U32(number.parse().ok()?),
        ValueType::I64 => Value::I64(number.parse().ok()?),
        ValueType::U64 => Value::U64(number.parse().ok()?),
    })
}

pub(crate) fn order_in(word: &str) -> RunTimeEndian {
    if word == "be" {
        RunTimeEndian::Big
    } else {
        RunTimeEndian::Little
    }
}

/// The encoding and the order of a vector's bytes.
pub(crate) fn encoding_in(vector: Vector<'_>) -> Option<(Encoding, RunTimeEndian)> {
    let mut words = vector.get("in")?.split(' ');
    let address_size = words.next()?.parse().ok()?;
    let format = if words.next()? == "8" {
        Format::Dwarf64
    } else {
        Format::Dwarf32
    };
    let version = words.next()?.parse().ok()?;
    let encoding = Encoding {
        address_size,
        format,
        version,
    };
    Some((encoding, order_in(words.next()?)))
}

/// Whether a name is spelled so: in capital letters, with an underscore between words.
pub(crate) fn is_spelled(name: &str, spelled: &str) -> bool {
    let mut letters = name.bytes();
    spelled.bytes().filter(|byte| *byte != b'_').all(|byte| {
        letters
            .next()
            .is_some_and(|letter| letter.eq_ignore_ascii_case(&byte))
    }) && letters.next().is_none()
}

/// The name of what `Debug` shows.
pub(crate) fn name_in(shown: &str) -> &str {
    match shown.split_once('(') {
        Some((name, _)) => name,
        None => shown,
    }
}

/// The number that comes with a fault, or 0.
pub(crate) fn detail_of(error: Error) -> u64 {
    match error {
        Error::UnsupportedAddressSize(size) | Error::InvalidDerefSize(size) => u64::from(size),
        Error::UnsupportedRegister(number)
        | Error::InvalidPieceSize(number)
        | Error::BadBranchTarget(number)
        | Error::InvalidExpressionTerminator(number) => number,
        Error::InvalidExpression(opcode) => u64::from(opcode.0),
        _ => 0,
    }
}

/// Whether the vector wants this fault.
pub(crate) fn is_fault(alloc: Global, error: Error, vector: Vector<'_>) -> Option<bool> {
    let shown = format!(in alloc; "{error:?}").ok()?;
    let code = vector.get("code")?;
    Some(is_spelled(name_in(shown.as_str()), code) && detail_of(error) == vector.number("detail")?)
}
