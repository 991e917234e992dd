//! The states of an evaluation, and what it waits for.

use dwarf_base::{DebugAddrIndex, Error, Reader, Register, UnitOffset};
use dwarf_meaning::WaitingKind;
use dwarf_op::DieReference;
use dwarf_value::{Value, ValueType};

/// The kind of the last operation.
#[derive(Clone, Copy)]
pub(crate) enum LastOperation {
    Nothing,
    // It asked nothing, gave no location and ended no piece.
    Plain,
    Pieced,
    // An answer was pushed.
    Pushed,
    // A call was answered by an empty text.
    Called,
    // It gave a location, whose piece comes next.
    Located,
}

/// What an evaluation waits for. If the answer is a value or a number, its sum with the `offset` is pushed, if there is
/// one; if it is a text, that is run.
#[derive(Drop)]
pub(crate) enum EvaluationWaiting<R, O = <R as Reader>::Offset> {
    Memory {
        address: u64,
        size: u8,
        space: Option<u64>,
        base_type: UnitOffset<O>,
    },
    Register {
        register: Register,
        base_type: UnitOffset<O>,
        offset: i64,
    },
    WasmLocal(u32),
    WasmGlobal(u32),
    WasmStack(u32),
    FrameBase {
        offset: i64,
    },
    Tls(u64),
    CallFrameCfa,
    AtLocation(DieReference<O>),
    EntryValue(R),
    ParameterRef(UnitOffset<O>),
    RelocatedAddress(u64),
    IndexedAddress {
        index: DebugAddrIndex<O>,
        relocate: bool,
    },
    /// The type of a literal, whose bytes are pushed as a value of it.
    TypedLiteral {
        base_type: UnitOffset<O>,
        value: R,
    },
    /// The type to which the top is converted.
    Convert(UnitOffset<O>),
    /// The type as which the top is reinterpreted.
    Reinterpret(UnitOffset<O>),
}

/// The state of an evaluation.
#[derive(Drop)]
pub(crate) enum EvaluationState<R, O = <R as Reader>::Offset> {
    /// Nothing was evaluated yet. It has the initial value, if one is set.
    Start(Option<u64>),
    /// It runs; never between two calls.
    Running,
    /// It is complete. It has the value that was on top of the stack, if there was one.
    Complete(Option<Value>),
    /// It met a fault.
    Failed(Error),
    /// It waits for an answer. This is the last variant, so that rustc tests for it by one comparison.
    Waiting(EvaluationWaiting<R, O>),
}

/// What a resume call was given. A value and a number have the kind of the call.
#[derive(Drop)]
pub(crate) enum Answer<R> {
    Value(WaitingKind, Value),
    Number(WaitingKind, u64),
    Location(R),
    BaseType(ValueType),
}
