//! The operations of an expression, and its evaluation, which asks the caller for what it can't know itself.
#![tactic(auto)]

mod equality;
pub mod eval;
pub mod op;
mod run;
pub mod store;
