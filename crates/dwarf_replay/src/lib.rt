//! Replay: the steps of an evaluation, done one after another.
#![tactic(auto)]

mod equality;
mod replaying;
mod stepping;
mod steps;

pub use equality::{answer_equality_laws, step_equality_laws};
pub use replaying::replay;
pub use stepping::take_step;
pub use steps::{Answer, Replayed, Step, Stepped};
