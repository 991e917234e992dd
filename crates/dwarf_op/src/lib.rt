//! Operations, their decoding, and the pieces that they describe.
#![tactic(auto)]

mod decoding;
mod equality;
mod locations;
mod names;
mod operations;

pub use equality::{operation_equality_laws, reference_equality_laws};
pub use locations::{Location, Piece};
pub use operations::{DieReference, Operation};
