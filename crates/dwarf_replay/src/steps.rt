//! Steps, and their outcomes.

ghost use Rattle.std.specs.Prelude.{◌≡◌, Ok};

use dwarf_base::{Reader, Result};
use dwarf_eval::op::EvaluationResult;
use dwarf_value::{Value, ValueType};

/// A step of an evaluation: a setting, the start, or an answer of the kind that its variant names.
#[derive(Clone, Copy, Debug, PartialEq, Eq)]
pub enum Step<R> {
    /// `set_initial_value`, allowed once and before the first `Evaluate`.
    InitialValue(u64),
    /// `set_object_address`, always allowed.
    ObjectAddress(u64),
    /// `set_max_iterations`, always allowed.
    MaxIterations(u32),
    /// `evaluate`, allowed if no request is open.
    Evaluate,
    /// `resume_with_memory`. It and every answer below is allowed if a request of its kind is open, and after a fault.
    Memory(Value),
    /// `resume_with_register`.
    Register(Value),
    /// `resume_with_wasm_value`.
    WasmValue(Value),
    /// `resume_with_entry_value`.
    EntryValue(Value),
    /// `resume_with_frame_base`.
    FrameBase(u64),
    /// `resume_with_tls`.
    Tls(u64),
    /// `resume_with_call_frame_cfa`.
    CallFrameCfa(u64),
    /// `resume_with_parameter_ref`.
    ParameterRef(u64),
    /// `resume_with_relocated_address`.
    RelocatedAddress(u64),
    /// `resume_with_indexed_address`.
    IndexedAddress(u64),
    /// `resume_with_at_location`.
    AtLocation(R),
    /// `resume_with_base_type`.
    BaseType(ValueType),
}

/// The result of one call of an evaluation.
#[derive(Clone, Copy, Debug, PartialEq, Eq)]
pub struct Answer<R, O = <R as Reader>::Offset>(pub Result<EvaluationResult<R, O>>);

impl<R, O> Default for Answer<R, O> {
    /// `Complete`.
    fn default() -> Self
        ensures { result.0 ≡ Ok EvaluationResult.Complete }
    {
        Answer(Ok(EvaluationResult::Complete))
    }
}

/// The outcome of a step.
#[derive(Clone, Copy, Debug, PartialEq, Eq)]
pub enum Stepped<R, O = <R as Reader>::Offset> {
    /// The step isn't allowed, and nothing was done.
    Misplaced,
    /// The step was a setting, which is now in force.
    Set,
    /// The step was a call, with this result.
    Answered(Answer<R, O>),
}

/// How a replay ended.
#[derive(Clone, Copy, Debug, PartialEq, Eq)]
pub enum Replayed<R, O = <R as Reader>::Offset> {
    /// All steps were done.
    Done,
    /// The step at this index, from 0, isn't allowed. All steps before it were done, and nothing of it was.
    Misplaced(usize),
    /// The step at this index was done, but the list of answers had no room for its result. No later step was done.
    NoRoom {
        /// The index of the step, from 0.
        index: usize,
        /// The result.
        answer: Answer<R, O>,
    },
}
