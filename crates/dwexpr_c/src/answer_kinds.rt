//! The kinds of answers, by their numbers in C.

pub(crate) const ANSWER_MEMORY: u32 = 1;

pub(crate) const ANSWER_REGISTER: u32 = 2;

pub(crate) const ANSWER_WASM: u32 = 3;

pub(crate) const ANSWER_ENTRY_VALUE: u32 = 4;

pub(crate) const ANSWER_FRAME_BASE: u32 = 5;

pub(crate) const ANSWER_TLS: u32 = 6;

pub(crate) const ANSWER_CFA: u32 = 7;

pub(crate) const ANSWER_PARAMETER: u32 = 8;

pub(crate) const ANSWER_RELOCATED: u32 = 9;

pub(crate) const ANSWER_INDEXED: u32 = 10;

pub(crate) const ANSWER_LOCATION: u32 = 11;

pub(crate) const ANSWER_BASE_TYPE: u32 = 12;
