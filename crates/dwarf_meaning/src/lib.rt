//! The meaning of DWARF expressions: the definitions that the evaluator is proved against, and laws over them.
#![tactic(auto)]

mod kinds;
mod laws;
mod rows;

pub use kinds::WaitingKind;
pub use laws::{agreement_laws, decode_laws, run_laws};
pub use rows::worked_rows;
