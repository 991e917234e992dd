//! Tests of equality and of hashes.

use dwarf_base::{
    EndianSlice, Endianity, LittleEndian, RunTimeEndian, UnitOffset, constant_laws, equality_laws,
    offset_equality_laws, slice_equality_laws,
};
use std::hash::{DefaultHasher, Hash, Hasher};

fn hash_of<T: Hash>(value: &T) -> u64 {
    let mut state = DefaultHasher::new();
    value.hash(&mut state);
    state.finish()
}

fn little<E: Endianity + Default>(bytes: &[u8]) -> EndianSlice<'_, E> {
    EndianSlice::new(bytes, E::default())
}

#[test]
fn compares_and_hashes_slices(rt: HostRuntime) {
    let bytes = [1, 2, 1, 2];
    let front: EndianSlice<RunTimeEndian> = little(&bytes[..2]);
    let back: EndianSlice<RunTimeEndian> = little(&bytes[2..]);
    let one: EndianSlice<RunTimeEndian> = little(&bytes[..1]);
    let big = EndianSlice::new(&bytes[..2], RunTimeEndian::Big);
    assert!(rt; front == back);
    assert!(rt; front != one);
    assert!(rt; front != big);
    assert!(rt; hash_of(&front) == hash_of(&back));
    assert!(rt; hash_of(&front) != hash_of(&one));
    assert!(rt; hash_of(&LittleEndian) == hash_of(&LittleEndian));
    assert!(rt; UnitOffset(1) != UnitOffset(2));
}

#[test]
fn has_laws_of_equality() {
    constant_laws();
    equality_laws();
    offset_equality_laws::<usize>();
    slice_equality_laws::<LittleEndian>();
}
