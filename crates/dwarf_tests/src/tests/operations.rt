//! Tests of decoding and of locations.

use crate::tests::evaluation::{Bytes, SMALL, little};
use dwarf_base::{DebugInfoOffset, Encoding, Error, Register};
use dwarf_eval::op::{Expression, Location, Operation};
use dwarf_value::Value::Generic;

// An encoding that the test vectors don't have.
#[test]
fn no_address_size(rt: HostRuntime) {
    let none = Encoding {
        address_size: 0,
        ..SMALL
    };
    assert!(rt;
        Operation::parse(&mut little(&[0x03]), none) == Err(Error::UnsupportedAddressSize(0))
    );
}

// The iterator gives an operation, the fault of one that is cut off, and the end. Its offset is checked after each.
#[test]
fn iteration(rt: HostRuntime) {
    let expression = Expression(little(&[0x31, 0x93]));
    let mut operations = expression.operations(SMALL);
    let first = operations.next();
    assert!(rt; first == Ok(Some(Operation::UnsignedConstant { value: 1 })));
    assert!(rt; operations.offset_from(&expression) == 1);
    assert!(rt; matches!(operations.next(), Err(Error::UnexpectedEof(_))));
    assert!(rt; operations.offset_from(&expression) == 2);
    assert!(rt; operations.next() == Ok(None));
    assert!(rt; operations.offset_from(&expression) == 2);
}

// Only `Location::Empty` makes a piece empty.
#[test]
fn empty_location(rt: HostRuntime) {
    assert!(rt; Location::<Bytes<'_>>::Empty.is_empty());
    assert!(rt; Location::<Bytes<'_>>::default().is_empty());
    for location in [
        Location::Register {
            register: Register(0),
        },
        Location::Address { address: 0 },
        Location::Value { value: Generic(0) },
        Location::Bytes { value: little(&[]) },
        Location::ImplicitPointer {
            value: DebugInfoOffset(0),
            byte_offset: 0,
        },
    ] {
        assert!(rt; !location.is_empty(), "{location:?}");
    }
}
