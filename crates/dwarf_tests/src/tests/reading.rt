//! Tests of reads and of offsets.

use dwarf_base::{BigEndian, EndianSlice, LittleEndian, Reader, ReaderOffset, reader_laws};
use std::process::Abort;

#[test]
fn reads_in_each_order(rt: HostRuntime) {
    let bytes = [0x01, 0x02, 0x03, 0x04];
    let whole = EndianSlice::new(&bytes, LittleEndian);
    let mut little = whole;
    assert!(rt; little.skip(1) == Ok(()));
    assert!(rt; little.read_u16() == Ok(0x0302));
    assert!(rt; little.offset_from(&whole) == 3);
    let mut big = EndianSlice::new(&bytes, BigEndian);
    assert!(rt; big.read_u16() == Ok(0x0102));
    assert!(rt; big.endian() == BigEndian);
    big.empty();
    assert!(rt; big == EndianSlice::default());
    reader_laws();
}

// Expects `largest` to be the largest offset of this type.
fn expect_offset<O: ReaderOffset>(rt: &impl Abort, largest: u64) {
    assert!(rt; O::from_u64(largest).is_ok());
    let back = O::from_i16(-2);
    assert!(rt; back.into_u64() == largest.wrapping_sub(1));
    assert!(rt; back.wrapping_add(O::from_u8(3)).into_u64() == 1);
}

#[test]
fn offsets(rt: HostRuntime) {
    expect_offset::<u32>(&rt, u64::from(u32::MAX));
    expect_offset::<u64>(&rt, u64::MAX);
}
