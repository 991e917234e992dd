use dwarf_base::Error;
use dwarf_meaning::WaitingKind;

/// Where an evaluation stands, and so which calls it allows.
#[derive(Clone, Copy, Debug, PartialEq, Eq)]
pub enum Status {
    /// Nothing was evaluated yet: `evaluate` is next.
    Start {
        /// Whether an initial value was set.
        initial: bool,
    },
    /// A request is open: the resume of its kind is next.
    Waiting(WaitingKind),
    /// The evaluation is complete: its results are there.
    Complete,
    /// The evaluation met a fault. Every later `evaluate` and resume gives it again.
    Failed(Error),
}
