//! What a reader of DWARF expressions needs: bytes in a byte order, offsets, encodings and errors.
#![tactic(auto)]

mod byte_order;
mod common;
pub mod constants;
mod errors;
mod laws;
mod offsets;
mod reading;
mod slices;

pub use byte_order::{BigEndian, Endianity, LittleEndian, RunTimeEndian};
pub use common::{
    DebugAddrIndex, DebugInfoOffset, Encoding, Format, ReaderOffsetId, Register, UnitOffset,
};
pub use constants::{DwAte, DwOp};
pub use errors::{Error, Result};
pub use laws::{
    constant_laws, equality_laws, offset_equality_laws, reader_laws, slice_equality_laws,
};
pub use offsets::ReaderOffset;
pub use reading::{Reader, copy_of};
pub use slices::EndianSlice;
