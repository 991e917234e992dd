//! Typed values of DWARF expressions, and the operations on them (DWARF 5, section 2.5).
#![tactic(auto)]

mod arithmetic;
mod bits;
mod comparisons;
mod conversions;
mod laws;
mod masks;
mod parts;
mod shifts;
mod types;
mod word;

pub use laws::{equality_laws, value_laws};
pub use masks::is_addr_mask;
pub use types::{Value, ValueType};
