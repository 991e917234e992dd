//! Decodes operations, and compares every field.

use crate::short::ShortSlice;
use crate::vectors::Vector;
use crate::words::{Bytes, bytes_in, encoding_in, is_fault, is_spelled};
use dwarf_base::{Encoding, EndianSlice, Error, Reader, ReaderOffset, RunTimeEndian};
use dwarf_eval::op::Expression;
use dwarf_op::{DieReference, Operation};
use std::alloc::Global;

// Fields by their names in `c/include/dwexpr.h`. Those that an operation doesn't have are 0.
#[derive(Clone, Copy, PartialEq)]
struct Fields<'a> {
    number: u64,
    signed_number: i64,
    register_number: u16,
    base_type: u64,
    deref_size: u8,
    flag: bool,
    detail: u64,
    block: Option<Bytes<'a>>,
}

const NONE: Fields<'static> = Fields {
    number: 0,
    signed_number: 0,
    register_number: 0,
    base_type: 0,
    deref_size: 0,
    flag: false,
    detail: 0,
    block: None,
};

fn fields_of<'a>(operation: Operation<Bytes<'a>>) -> Fields<'a> {
    match operation {
        Operation::Deref {
            size,
            base_type,
            space,
        } => Fields {
            deref_size: size,
            base_type: base_type.0.into_u64(),
            flag: space,
            ..NONE
        },
        Operation::Pick { index } => Fields {
            number: u64::from(index),
            ..NONE
        },
        Operation::PlusConstant { value: number }
        | Operation::UnsignedConstant { value: number }
        | Operation::Address { address: number } => Fields { number, ..NONE },
        Operation::SignedConstant {
            value: signed_number,
        }
        | Operation::FrameOffset {
            offset: signed_number,
        } => Fields {
            signed_number,
            ..NONE
        },
        Operation::Bra { target } | Operation::Skip { target } => Fields {
            signed_number: i64::from(target),
            ..NONE
        },
        Operation::Register { register } => Fields {
            register_number: register.0,
            ..NONE
        },
        Operation::RegisterOffset {
            register,
            offset,
            base_type,
        } => Fields {
            register_number: register.0,
            signed_number: offset,
            base_type: base_type.0.into_u64(),
            ..NONE
        },
        Operation::Call {
            offset: DieReference::UnitRef(offset),
        }
        | Operation::ParameterRef { offset } => Fields {
            number: offset.0.into_u64(),
            ..NONE
        },
        Operation::Call {
            offset: DieReference::DebugInfoRef(offset),
        } => Fields {
            number: offset.0.into_u64(),
            flag: true,
            ..NONE
        },
        Operation::Piece {
            size_in_bits,
            bit_offset,
        } => Fields {
            number: size_in_bits,
            flag: bit_offset.is_some(),
            detail: bit_offset.unwrap_or(0),
            ..NONE
        },
        Operation::ImplicitValue { bytes } => Fields {
            block: Some(bytes),
            ..NONE
        },
        Operation::EntryValue { expression } => Fields {
            block: Some(expression),
            ..NONE
        },
        Operation::ImplicitPointer { value, byte_offset } => Fields {
            number: value.0.into_u64(),
            signed_number: byte_offset,
            ..NONE
        },
        Operation::VariableValue { offset } => Fields {
            number: offset.0.into_u64(),
            ..NONE
        },
        Operation::AddressIndex { index } | Operation::ConstantIndex { index } => Fields {
            number: index.0.into_u64(),
            ..NONE
        },
        Operation::TypedLiteral { base_type, value } => Fields {
            base_type: base_type.0.into_u64(),
            block: Some(value),
            ..NONE
        },
        Operation::Convert { base_type } | Operation::Reinterpret { base_type } => Fields {
            base_type: base_type.0.into_u64(),
            ..NONE
        },
        Operation::WasmLocal { index }
        | Operation::WasmGlobal { index }
        | Operation::WasmStack { index } => Fields {
            number: u64::from(index),
            ..NONE
        },
        // The vector's kind says which it is.
        _ => NONE,
    }
}

// The block at a place of these bytes that a vector names, as `2, 5`: the place and the length.
fn block_in<'a>(named: &str, bytes: Bytes<'a>) -> Option<Bytes<'a>> {
    let (place, length) = named.split_once(", ")?;
    let mut block = bytes;
    block.skip(place.parse().ok()?).ok()?;
    block.split(length.parse().ok()?).ok()
}

fn wanted_fields<'a>(vector: Vector<'_>, bytes: Bytes<'a>) -> Option<Fields<'a>> {
    Some(Fields {
        number: vector.number("number")?,
        signed_number: vector.get("signed_number").unwrap_or("0").parse().ok()?,
        register_number: vector.get("register_number").unwrap_or("0").parse().ok()?,
        base_type: vector.number("base_type")?,
        deref_size: vector.get("deref_size").unwrap_or("0").parse().ok()?,
        flag: vector.number("flag")? == 1,
        detail: vector.number("detail")?,
        block: match vector.get("block") {
            Some(named) => Some(block_in(named, bytes)?),
            None => None,
        },
    })
}

// Whether each front of an operation of this length is cut off.
fn are_fronts_cut_off(bytes: Bytes<'_>, length: usize, encoding: Encoding) -> bool {
    (0..length).all(|end| {
        let mut rest = bytes;
        match rest.split(end) {
            Ok(mut front) => matches!(
                Operation::parse(&mut front, encoding),
                Err(Error::UnexpectedEof(_))
            ),
            Err(_) => false,
        }
    })
}

// Whether the iterator gives at most as many items as there are bytes.
fn does_iterator_end(front: Bytes<'_>, encoding: Encoding) -> bool {
    let mut operations = Expression(front).operations(encoding);
    for _ in 0..front.len() {
        if let Ok(None) = operations.next() {
            return true;
        }
    }
    matches!(operations.next(), Ok(None))
}

// Whether it does so over each front.
fn do_iterators_end(bytes: Bytes<'_>, encoding: Encoding) -> bool {
    (0..=bytes.len()).all(|end| {
        let mut rest = bytes;
        match rest.split(end) {
            Ok(front) => does_iterator_end(front, encoding),
            Err(_) => false,
        }
    })
}

// Whether offsets of 32 bits give an operation of this name, unless one doesn't fit.
fn is_alike_in_32_bits(bytes: &[u8], encoding: Encoding, name: &str) -> bool {
    match ShortSlice::new(bytes) {
        Some(mut text) => match Operation::parse(&mut text, encoding) {
            Ok(operation) => operation.name() == name,
            Err(error) => error == Error::UnsupportedOffset,
        },
        None => false,
    }
}

/// Whether an operation before two bytes is as its vector says, and each of its fronts is cut off.
pub(crate) fn is_right(alloc: Global, vector: Vector<'_>) -> Option<bool> {
    let (encoding, order) = encoding_in(vector)?;
    let mut bytes = bytes_in(alloc, vector.get("bytes")?)?;
    if vector.get("bits").is_some() {
        let error = Operation::parse(&mut ShortSlice::new(&bytes)?, encoding).err()?;
        return is_fault(alloc, error, vector);
    }
    let length = bytes.len();
    // An operation that is cut off has to be at the end.
    if vector.get("code") != Some("UNEXPECTED_EOF") {
        bytes.extend_from_slice(&[0x96, 0x96]).ok()?;
    }
    let text = EndianSlice::new(bytes.leak(), order);
    if !do_iterators_end(text, encoding) {
        return Some(false);
    }
    let mut rest = text;
    match Operation::parse(&mut rest, encoding) {
        Err(error) => is_fault(alloc, error, vector),
        Ok(operation) => Some(
            is_spelled(operation.name(), vector.get("kind")?)
                && fields_of(operation) == wanted_fields(vector, text)?
                && rest.slice() == [0x96, 0x96].as_slice()
                && are_fronts_cut_off(text, length, encoding)
                && (order == RunTimeEndian::Big
                    || is_alike_in_32_bits(text.slice(), encoding, operation.name())),
        ),
    }
}
