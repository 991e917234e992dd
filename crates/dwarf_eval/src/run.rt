//! The run of an evaluation: its state, and what each operation and each answer does to it.

mod answers;
pub(crate) mod machine;
mod operate;
mod operations;
pub(crate) mod states;
mod ticks;
mod turns;
