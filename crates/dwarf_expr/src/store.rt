//! Where an evaluation keeps its values, its callers and its pieces.

pub use dwarf_eval::store::{
    ArrayLike, EvaluationStorage, OneInLine, SliceVec, StoreInSlices, StoreOnHeap,
};
