//! The kinds of pieces, by their numbers in C.

pub(crate) const EMPTY: u32 = 1;

pub(crate) const IN_REGISTER: u32 = 2;

pub(crate) const AT_ADDRESS: u32 = 3;

pub(crate) const HOLDS_VALUE: u32 = 4;

pub(crate) const HOLDS_BYTES: u32 = 5;

pub(crate) const POINTS_INTO: u32 = 6;
