//! Calls on values.

ghost use Rattle.std.specs.Prelude.{◌≡◌, None, Some};
ghost use Rattle.dwarf_base.specs.ByteOrder.{is_big_of};
ghost use Rattle.dwarf_value.specs.Values.{IsAddressMask, from_encoding_of, parse_of, width_of};
ghost use Rattle.dwexpr_c.specs.CodedValues as calls;
ghost use Rattle.dwexpr_c.specs.CodedValues.{type_code, type_coded};

use crate::encodings::order_of;
use crate::faults::{BAD_VALUE, OK, numbers_of};
use crate::operations::Bytes;
use crate::values::{
    DwexprValue, NO_VALUE, code_of_type, numbers_of_value, type_of_code, value_of,
};
use dwarf_base::{DwAte, EndianSlice, Result, RunTimeEndian, UnitOffset};
use dwarf_op::Operation;
use dwarf_value::{Value, ValueType, is_addr_mask};

/// An operation on values. C names it by its number.
type Operator = Operation<Bytes<'static>>;

/// The value that these numbers stand for, if they stand for one.
fn value_in(numbers: DwexprValue) -> Option<Value>
    ensures { result ≡ calls.value_in numbers }
{
    value_of(numbers.value_type, numbers.content)
}

/// Writes the value of a call to `shown`, and returns the call's code.
fn show(computed: Option<Result<Value>>, shown: &mut DwexprValue) -> u32
    ensures { calls.Answers computed result shown.new }
{
    let (code, numbers) = match computed {
        None => (BAD_VALUE, NO_VALUE),
        Some(Err(error)) => (numbers_of(error).code, NO_VALUE),
        Some(Ok(value)) => (OK, numbers_of_value(value)),
    };
    *shown = numbers;
    code
}

fn unary(operation: u32, value: Value, addr_mask: u64) -> Option<Result<Value>>
    requires { IsAddressMask addr_mask }
    ensures { result ≡ calls.unary_coded operation (width_of addr_mask) value }
{
    Some(match operation {
        _ if operation == Operator::Abs.number() => value.abs(addr_mask),
        _ if operation == Operator::Neg.number() => value.neg(addr_mask),
        _ if operation == Operator::Not.number() => value.not(addr_mask),
        _ => return None,
    })
}

fn binary(operation: u32, left: Value, right: Value, addr_mask: u64) -> Option<Result<Value>>
    requires { IsAddressMask addr_mask }
    ensures { result ≡ calls.binary_coded operation (width_of addr_mask) left right }
{
    Some(match operation {
        _ if operation == Operator::And.number() => left.and(right, addr_mask),
        _ if operation == Operator::Div.number() => left.div(right, addr_mask),
        _ if operation == Operator::Minus.number() => left.sub(right, addr_mask),
        _ if operation == Operator::Mod.number() => left.rem(right, addr_mask),
        _ if operation == Operator::Mul.number() => left.mul(right, addr_mask),
        _ if operation == Operator::Or.number() => left.or(right, addr_mask),
        _ if operation == Operator::Plus.number() => left.add(right, addr_mask),
        _ if operation == Operator::Shl.number() => left.shl(right, addr_mask),
        _ if operation == Operator::Shr.number() => left.shr(right, addr_mask),
        _ if operation == Operator::Shra.number() => left.shra(right, addr_mask),
        _ if operation == Operator::Xor.number() => left.xor(right, addr_mask),
        _ if operation == Operator::Eq.number() => left.eq(right, addr_mask),
        _ if operation == Operator::Ge.number() => left.ge(right, addr_mask),
        _ if operation == Operator::Gt.number() => left.gt(right, addr_mask),
        _ if operation == Operator::Le.number() => left.le(right, addr_mask),
        _ if operation == Operator::Lt.number() => left.lt(right, addr_mask),
        _ if operation == Operator::Ne.number() => left.ne(right, addr_mask),
        _ => return None,
    })
}

fn conversion(
    operation: u32,
    value: Value,
    value_type: ValueType,
    addr_mask: u64,
) -> Option<Result<Value>>
    requires { IsAddressMask addr_mask }
    ensures { result ≡ calls.conversion_of operation (width_of addr_mask) value_type value }
{
    // Their numbers are the same for each type.
    let base_type = UnitOffset(0);
    Some(match operation {
        _ if operation == Operator::Convert { base_type }.number() => value.convert(
            value_type, addr_mask,
        ),
        _ if operation == Operator::Reinterpret { base_type }.number() => value.reinterpret(
            value_type, addr_mask,
        ),
        _ => return None,
    })
}

fn parse(value_type: ValueType, bytes: &[u8], order: RunTimeEndian, shown: &mut DwexprValue) -> u32
    ensures { calls.Answers (Some (parse_of value_type (is_big_of order) bytes.now)) result shown.new }
{
    let (code, numbers) = match Value::parse(value_type, EndianSlice::new(bytes, order)) {
        Ok(value) => (OK, numbers_of_value(value)),
        Err(error) => (numbers_of(error).code, NO_VALUE),
    };
    *shown = numbers;
    code
}

/// An operation on one value: `Abs`, `Neg` or `Not`, by the code of its kind (DWARF 5, section 2.5.1.4).
///
/// It returns 0, the code of a fault, or 71 if the numbers stand for no operation, no value or no mask. `shown` is
/// always written; its type is 0 if the result isn't 0.
#[unsafe(no_mangle)]
pub extern "C" fn dwexpr_value_unary(
    operation: u32,
    value: DwexprValue,
    addr_mask: u64,
    shown: &mut DwexprValue,
) -> u32
    ensures mask { (IsAddressMask addr_mask → ⊥) → calls.Answers None result shown.new }
    ensures computes { IsAddressMask addr_mask
        → calls.Answers
        (calls.unary_in operation (width_of addr_mask) (calls.value_in value)) result shown.new }
{
    match value_in(value) {
        Some(value) if is_addr_mask(addr_mask) => show(unary(operation, value, addr_mask), shown),
        _ => show(None, shown),
    }
}

/// An operation on two values, by the code of its kind (DWARF 5, section 2.5.1.4). It returns what `dwexpr_value_unary`
/// does.
#[unsafe(no_mangle)]
pub extern "C" fn dwexpr_value_binary(
    operation: u32,
    left: DwexprValue,
    right: DwexprValue,
    addr_mask: u64,
    shown: &mut DwexprValue,
) -> u32
    ensures mask { (IsAddressMask addr_mask → ⊥) → calls.Answers None result shown.new }
    ensures computes { IsAddressMask addr_mask
        → calls.Answers
        (calls.binary_in operation (width_of addr_mask) (calls.value_in left)
        (calls.value_in right)) result shown.new }
{
    match (value_in(left), value_in(right)) {
        (Some(left), Some(right)) if is_addr_mask(addr_mask) => {
            show(binary(operation, left, right, addr_mask), shown)
        }
        _ => show(None, shown),
    }
}

/// Converts a value to another type: `Convert` by its number, or `Reinterpret` by its bits (DWARF 5, section 2.5.1.6).
/// It returns what `dwexpr_value_unary` does.
#[unsafe(no_mangle)]
pub extern "C" fn dwexpr_value_convert(
    operation: u32,
    value: DwexprValue,
    value_type: u32,
    addr_mask: u64,
    shown: &mut DwexprValue,
) -> u32
    ensures mask { (IsAddressMask addr_mask → ⊥) → calls.Answers None result shown.new }
    ensures computes { IsAddressMask addr_mask
        → calls.Answers
        (calls.conversion_in operation (width_of addr_mask) (type_coded value_type)
        (calls.value_in value)) result shown.new }
{
    match (type_of_code(value_type), value_in(value)) {
        (Some(value_type), Some(value)) if is_addr_mask(addr_mask) => {
            show(conversion(operation, value, value_type, addr_mask), shown)
        }
        _ => show(None, shown),
    }
}

/// The value in the first bytes, in a byte order as in `DwexprEncoding`. It returns what `dwexpr_value_unary` does.
#[unsafe(no_mangle)]
pub extern "C" fn dwexpr_value_parse(
    value_type: u32,
    bytes: &[u8],
    big_endian: u8,
    shown: &mut DwexprValue,
) -> u32
    ensures { calls.Answers (calls.parsed_in (type_coded value_type) big_endian bytes.now)
        result shown.new }
{
    let Some(value_type) = type_of_code(value_type) else {
        return show(None, shown);
    };
    let Some(order) = order_of(big_endian) else {
        return show(None, shown);
    };
    parse(value_type, bytes, order, shown)
}

/// The size of a type's values in bits; 0 if the numbers stand for no type or no mask.
#[unsafe(no_mangle)]
pub extern "C" fn dwexpr_type_bit_size(value_type: u32, addr_mask: u64) -> u32
    ensures mask { (IsAddressMask addr_mask → ⊥) → result ≡ 0 }
    ensures size { IsAddressMask addr_mask
        → result ≡ calls.bit_size_in (width_of addr_mask) (type_coded value_type) }
{
    if !is_addr_mask(addr_mask) {
        return 0;
    }
    match type_of_code(value_type) {
        Some(value_type) => value_type.bit_size(addr_mask),
        None => 0,
    }
}

/// The type of values for a base type with this `DW_AT_encoding` and this size in bytes; 0 if there is none (DWARF 5,
/// section 5.1).
#[unsafe(no_mangle)]
pub extern "C" fn dwexpr_type_from_encoding(encoding: u8, byte_size: u64) -> u32
    ensures { result ≡ type_code (from_encoding_of encoding byte_size) }
{
    code_of_type(ValueType::from_encoding(DwAte(encoding), byte_size))
}
