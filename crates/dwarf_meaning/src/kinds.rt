//! The kinds of answers, which the definitions and the evaluator share.

/// The kind of answer that an open request waits for.
#[derive(Clone, Copy, Debug, PartialEq, Eq)]
pub enum WaitingKind {
    /// For `RequiresMemory`: a value.
    Memory,
    /// For `RequiresRegister`: a value.
    Register,
    /// For `RequiresWasmLocal`, `RequiresWasmGlobal` and `RequiresWasmStack`: a value.
    WasmValue,
    /// For `RequiresEntryValue`: a value.
    EntryValue,
    /// For `RequiresFrameBase`: an address.
    FrameBase,
    /// For `RequiresTls`: an address.
    Tls,
    /// For `RequiresCallFrameCfa`: an address.
    CallFrameCfa,
    /// For `RequiresParameterRef`: a number.
    ParameterRef,
    /// For `RequiresRelocatedAddress`: an address.
    RelocatedAddress,
    /// For `RequiresIndexedAddress`: an address or a constant.
    IndexedAddress,
    /// For `RequiresAtLocation`: an expression.
    AtLocation,
    /// For `RequiresBaseType`: a type.
    BaseType,
}
