//! Evaluation of expressions. It asks the caller for what it can't know itself.

mod evaluation;
mod heap;
mod requests;
mod states;

pub use crate::equality::status_equality_laws;
pub use dwarf_meaning::WaitingKind;
pub use evaluation::Evaluation;
pub use states::Status;
