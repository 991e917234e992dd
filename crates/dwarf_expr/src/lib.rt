//! DWARF expressions: their operations, and their evaluation.
#![tactic(auto)]

pub mod laws;
pub mod outcomes;
pub mod store;

pub use dwarf_base as base;
pub use dwarf_eval::{eval, op};
pub use dwarf_replay as replay;
pub use dwarf_value as value;
