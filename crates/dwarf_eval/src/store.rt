//! Where an evaluation keeps its values, its callers and its pieces.

mod arrays;
mod heap;
mod lists;
mod one_in_line;
mod slices;
mod storage;

pub use heap::StoreOnHeap;
pub use lists::ArrayLike;
pub use one_in_line::OneInLine;
pub use slices::SliceVec;
pub use storage::{EvaluationStorage, StoreInSlices};
