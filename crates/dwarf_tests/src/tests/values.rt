//! Tests of the calls on values that the vectors don't have.

use dwarf_value::Value::{Generic, I8};
use dwarf_value::{Value, ValueType, equality_laws, is_addr_mask, value_laws};

// The mask of an address of 4 bytes.
const MASK: u64 = 0xffff_ffff;

#[test]
fn numbers(rt: HostRuntime) {
    assert!(rt; Value::default() == Generic(0));
    let all_bits = Value::from_u64(ValueType::Generic, 0x1_0000_0003);
    assert!(rt; all_bits == Ok(Generic(0x1_0000_0003)));
    assert!(rt; is_addr_mask(MASK));
    assert!(rt; Generic(0x1_0000_0003).to_u64(MASK) == Ok(3));
    assert!(rt; I8(-1).to_u64(MASK) == Ok(u64::MAX));
    value_laws();
    equality_laws();
}

#[test]
fn sizes(rt: HostRuntime) {
    assert!(rt; is_addr_mask(MASK));
    for (value_type, bits) in [
        (ValueType::Generic, 32),
        (ValueType::I8, 8),
        (ValueType::U8, 8),
        (ValueType::I16, 16),
        (ValueType::U16, 16),
        (ValueType::I32, 32),
        (ValueType::U32, 32),
        (ValueType::I64, 64),
        (ValueType::U64, 64),
    ] {
        assert!(rt; value_type.bit_size(MASK) == bits, "{value_type:?}");
    }
}
