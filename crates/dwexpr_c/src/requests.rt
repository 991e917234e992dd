//! What an outcome shows, a kind of request, nothing or completion, by its number in C.

pub(crate) const NOTHING: u32 = 0;

pub(crate) const COMPLETE: u32 = 1;

pub(crate) const WANTS_MEMORY: u32 = 2;

pub(crate) const WANTS_REGISTER: u32 = 3;

pub(crate) const WANTS_FRAME_BASE: u32 = 4;

pub(crate) const WANTS_TLS: u32 = 5;

pub(crate) const WANTS_CFA: u32 = 6;

pub(crate) const WANTS_LOCATION: u32 = 7;

pub(crate) const WANTS_ENTRY_VALUE: u32 = 8;

pub(crate) const WANTS_PARAMETER: u32 = 9;

pub(crate) const WANTS_RELOCATED: u32 = 10;

pub(crate) const WANTS_INDEXED: u32 = 11;

pub(crate) const WANTS_BASE_TYPE: u32 = 12;

pub(crate) const WANTS_WASM_LOCAL: u32 = 13;

pub(crate) const WANTS_WASM_GLOBAL: u32 = 14;

pub(crate) const WANTS_WASM_STACK: u32 = 15;
