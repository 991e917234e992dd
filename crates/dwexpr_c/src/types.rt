//! The types of values, by their numbers in C.

pub(crate) const NO_TYPE: u32 = 0;

pub(crate) const GENERIC: u32 = 1;

pub(crate) const I8: u32 = 2;

pub(crate) const U8: u32 = 3;

pub(crate) const I16: u32 = 4;

pub(crate) const U16: u32 = 5;

pub(crate) const I32: u32 = 6;

pub(crate) const U32: u32 = 7;

pub(crate) const I64: u32 = 8;

pub(crate) const U64: u32 = 9;
