//! The commands of the program `dwexpr`: what it prints for its words and its input.
#![tactic(auto)]

mod endings;
mod explaining;
mod help;
mod hexadecimal;
mod input;
mod lines;
mod listing;
mod numbers;
mod opcodes;
mod program;
mod steps;
mod tracing;
mod values;
mod words;
mod writing;

pub use explaining::{Output, Terminal};
pub use hexadecimal::{HexFault, bytes_of};
pub use program::{run, run_program, run_without_words};
pub use tracing::Layout;
