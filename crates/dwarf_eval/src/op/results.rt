use crate::op::expressions::Expression;
use dwarf_base::{DebugAddrIndex, Reader, Register, UnitOffset};
use dwarf_op::DieReference;

/// The reply of an evaluation: completion, or a request that the caller has to answer before the evaluation goes on.
#[derive(Clone, Copy, Debug, PartialEq, Eq)]
pub enum EvaluationResult<R, O = <R as Reader>::Offset> {
    /// The evaluation is complete: its pieces and its value can be read.
    Complete,
    /// A value from memory is wanted; go on with `resume_with_memory`.
    RequiresMemory {
        /// The address.
        address: u64,
        /// The number of bytes, never more than an address has.
        size: u8,
        /// The address space, if one is named.
        space: Option<u64>,
        /// The type of the value; offset 0 is the generic type.
        base_type: UnitOffset<O>,
    },
    /// The value of a register is wanted; go on with `resume_with_register`.
    RequiresRegister {
        /// The register.
        register: Register,
        /// The type of the value; offset 0 is the generic type.
        base_type: UnitOffset<O>,
    },
    /// A WebAssembly local is wanted; go on with `resume_with_wasm_value`.
    RequiresWasmLocal {
        /// Its index.
        index: u32,
    },
    /// A WebAssembly global is wanted; go on with `resume_with_wasm_value`.
    RequiresWasmGlobal {
        /// Its index.
        index: u32,
    },
    /// An item of the WebAssembly operand stack is wanted; go on with `resume_with_wasm_value`.
    RequiresWasmStack {
        /// Its index; 0 is the bottom.
        index: u32,
    },
    /// The frame base is wanted, as the function's `DW_AT_frame_base` describes it; go on with
    /// `resume_with_frame_base`.
    RequiresFrameBase,
    /// The address of this slot in thread-local storage is wanted; go on with `resume_with_tls`.
    RequiresTls(u64),
    /// The canonical frame address is wanted; go on with `resume_with_call_frame_cfa`.
    RequiresCallFrameCfa,
    /// The expression in this entry's `DW_AT_location` is wanted, to be evaluated in place of the call; go on with
    /// `resume_with_at_location`.
    RequiresAtLocation(DieReference<O>),
    /// The value that this expression had when the function was entered is wanted; go on with
    /// `resume_with_entry_value`.
    RequiresEntryValue(Expression<R>),
    /// The value of this parameter is wanted, as the caller's call site gives it; go on with
    /// `resume_with_parameter_ref`.
    RequiresParameterRef(UnitOffset<O>),
    /// This address is wanted, relocated; go on with `resume_with_relocated_address`.
    RequiresRelocatedAddress(u64),
    /// An address or a constant of `.debug_addr` is wanted; go on with `resume_with_indexed_address`.
    RequiresIndexedAddress {
        /// Its index, from `DW_AT_addr_base` of the unit.
        index: DebugAddrIndex<O>,
        /// Whether it has to be relocated.
        relocate: bool,
    },
    /// The base type at this offset is wanted; offset 0 is the generic type. Go on with `resume_with_base_type`.
    RequiresBaseType(UnitOffset<O>),
}
