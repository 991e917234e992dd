//! Calls on values, their types, masks of addresses, offsets and numbers.

use crate::vectors::Vector;
use crate::words::{is_fault, order_in, read, type_in, value_in};
use dwarf_base::{DwAte, Error, Reader, ReaderOffset, Result, RunTimeEndian};
use dwarf_value::{Value, ValueType, is_addr_mask};
use std::alloc::Global;

fn binary(kind: &str, left: Value, right: Value, mask: u64) -> Option<Result<Value>> {
    if !is_addr_mask(mask) {
        return None;
    }
    Some(match kind {
        "AND" => left.and(right, mask),
        "DIV" => left.div(right, mask),
        "MINUS" => left.sub(right, mask),
        "MOD" => left.rem(right, mask),
        "MUL" => left.mul(right, mask),
        "OR" => left.or(right, mask),
        "PLUS" => left.add(right, mask),
        "SHL" => left.shl(right, mask),
        "SHR" => left.shr(right, mask),
        "SHRA" => left.shra(right, mask),
        "XOR" => left.xor(right, mask),
        "EQ" => left.eq(right, mask),
        "GE" => left.ge(right, mask),
        "GT" => left.gt(right, mask),
        "LE" => left.le(right, mask),
        "LT" => left.lt(right, mask),
        "NE" => left.ne(right, mask),
        _ => return None,
    })
}

/// What a call gives. Its kind is that of the operation, by C's header; without a kind it reads bytes.
fn value_of(alloc: Global, vector: Vector<'_>) -> Option<Result<Value>> {
    let Some(kind) = vector.get("kind") else {
        let bytes = read(alloc, vector.get("bytes")?, RunTimeEndian::Little)?;
        return Some(Value::parse(type_in(vector.get("type")?)?, bytes));
    };
    let left = value_in(vector.get("left")?)?;
    let mask = vector.number("mask")?;
    if !is_addr_mask(mask) {
        return None;
    }
    match kind {
        "ABS" => Some(left.abs(mask)),
        "NEG" => Some(left.neg(mask)),
        "NOT" => Some(left.not(mask)),
        "CONVERT" => Some(left.convert(type_in(vector.get("type")?)?, mask)),
        "REINTERPRET" => Some(left.reinterpret(type_in(vector.get("type")?)?, mask)),
        _ => binary(kind, left, value_in(vector.get("right")?)?, mask),
    }
}

/// Whether a call on values gives the vector's value or fault.
pub(crate) fn is_value_right(alloc: Global, vector: Vector<'_>) -> Option<bool> {
    match value_of(alloc, vector)? {
        Ok(value) => Some(value == value_in(vector.get("value")?)?),
        Err(error) => is_fault(alloc, error, vector),
    }
}

/// Whether a call gives the number or the fault that the vector's answer names.
fn is_number_right(given: Result<u64>, answer: &str) -> bool {
    match given {
        Ok(number) => answer.parse() == Ok(number),
        Err(Error::UnsupportedOffset) => answer == "UnsupportedOffset",
        Err(Error::UnexpectedEof(_)) => answer == "UnexpectedEof",
        Err(_) => false,
    }
}

/// Whether a call that isn't on values gives the vector's answer.
pub(crate) fn is_right(alloc: Global, vector: Vector<'_>) -> Option<bool> {
    let answer = vector.get("answer")?;
    Some(match vector.get("call")? {
        "is_addr_mask" => {
            let is_mask = is_addr_mask(vector.number("mask")?);
            answer == if is_mask { "true" } else { "false" }
        }
        "from_encoding" => {
            let encoding = DwAte(vector.get("encoding")?.parse().ok()?);
            match ValueType::from_encoding(encoding, vector.number("size")?) {
                Some(value_type) => type_in(answer) == Some(value_type),
                None => answer == "none",
            }
        }
        "u32_from_u64" => {
            let offset = <u32 as ReaderOffset>::from_u64(vector.number("number")?);
            is_number_right(offset.map(|offset| offset.into_u64()), answer)
        }
        "read_fixed" => {
            let mut bytes = read(alloc, vector.get("bytes")?, order_in(vector.get("order")?))?;
            let size = vector.get("size")?.parse().ok()?;
            matches!(size, 1 | 2 | 4 | 8) && is_number_right(bytes.read_fixed(size), answer)
        }
        _ => false,
    })
}
