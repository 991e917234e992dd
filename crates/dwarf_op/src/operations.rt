//! The operations (DWARF 5, sections 2.5 and 2.6).

ghost use Rattle.std.specs.Prelude.{◌≡◌, ⊤};

use dwarf_base::{DebugAddrIndex, DebugInfoOffset, Reader, Register, UnitOffset};
use std::alloc::AllocError;

/// The entry whose expression is called (DWARF 5, section 2.5.1.5).
#[derive(Clone, Copy, Debug, PartialEq, Eq)]
pub enum DieReference<T = usize> {
    /// An entry of the unit.
    UnitRef(UnitOffset<T>),
    /// An entry of `.debug_info`, maybe in another unit.
    DebugInfoRef(DebugInfoOffset<T>),
}

/// One operation of an expression, with its operands (DWARF 5, sections 2.5 and 2.6).
///
/// The base type at offset 0 is the generic type.
#[derive(Copy, Debug, PartialEq, Eq)]
#[repr(u8)]
pub enum Operation<R, O = <R as Reader>::Offset> {
    /// Pop an address and push the memory there: `DW_OP_deref`, `DW_OP_deref_size`, `DW_OP_deref_type` and, with an
    /// address space, `DW_OP_xderef`, `DW_OP_xderef_size`, `DW_OP_xderef_type`.
    Deref {
        /// How many bytes are read.
        size: u8,
        /// The type of the value that is pushed; 0 is the generic type.
        base_type: UnitOffset<O>,
        /// Whether an address space is popped too, from below the address.
        space: bool,
    },
    /// Drop the top: `DW_OP_drop`.
    Drop,
    /// Push a copy of the value that is this far below the top: `DW_OP_pick`, `DW_OP_dup` (0), `DW_OP_over` (1).
    Pick {
        /// How far below the top it is.
        index: u8,
    },
    /// Swap the two on top: `DW_OP_swap`.
    Swap,
    /// Move the top under the two below it: `DW_OP_rot`.
    Rot,
    /// Absolute value: `DW_OP_abs`.
    Abs,
    /// Bitwise and: `DW_OP_and`.
    And,
    /// Division of the second by the top: `DW_OP_div`.
    Div,
    /// The second less the top: `DW_OP_minus`.
    Minus,
    /// Remainder of the second by the top: `DW_OP_mod`.
    Mod,
    /// Multiplication: `DW_OP_mul`.
    Mul,
    /// Negation: `DW_OP_neg`.
    Neg,
    /// Bitwise complement: `DW_OP_not`.
    Not,
    /// Bitwise or: `DW_OP_or`.
    Or,
    /// Addition: `DW_OP_plus`.
    Plus,
    /// Add a constant to the top: `DW_OP_plus_uconst`.
    PlusConstant {
        /// The constant.
        value: u64,
    },
    /// Shift the second left by the top: `DW_OP_shl`.
    Shl,
    /// Shift the second right by the top, filling with zeros: `DW_OP_shr`.
    Shr,
    /// Shift the second right by the top, filling with the sign: `DW_OP_shra`.
    Shra,
    /// Bitwise exclusive or: `DW_OP_xor`.
    Xor,
    /// Pop a value and branch if it isn't zero: `DW_OP_bra`.
    Bra {
        /// The distance in bytes, from the end of the operation.
        target: i16,
    },
    /// Whether the second equals the top: `DW_OP_eq`.
    Eq,
    /// Whether the second is greater than or equals the top: `DW_OP_ge`.
    Ge,
    /// Whether the second is greater than the top: `DW_OP_gt`.
    Gt,
    /// Whether the second is less than or equals the top: `DW_OP_le`.
    Le,
    /// Whether the second is less than the top: `DW_OP_lt`.
    Lt,
    /// Whether the second differs from the top: `DW_OP_ne`.
    Ne,
    /// Branch: `DW_OP_skip`.
    Skip {
        /// The distance in bytes, from the end of the operation.
        target: i16,
    },
    /// Push an unsigned constant: `DW_OP_lit0` to `DW_OP_lit31`, `DW_OP_const1u` to `DW_OP_const8u`, `DW_OP_constu`.
    UnsignedConstant {
        /// The constant.
        value: u64,
    },
    /// Push a signed constant: `DW_OP_const1s` to `DW_OP_const8s`, `DW_OP_consts`.
    SignedConstant {
        /// The constant.
        value: i64,
    },
    /// The variable is in a register: `DW_OP_reg0` to `DW_OP_reg31`, `DW_OP_regx`. It completes the piece or the
    /// expression.
    Register {
        /// The register.
        register: Register,
    },
    /// Push the contents of a register plus an offset: `DW_OP_breg0` to `DW_OP_breg31`, `DW_OP_bregx` and, with a base
    /// type and no offset, `DW_OP_regval_type`.
    RegisterOffset {
        /// The register.
        register: Register,
        /// The offset, in bytes.
        offset: i64,
        /// The type of the register's value; 0 is the generic type.
        base_type: UnitOffset<O>,
    },
    /// Push the frame base, which `DW_AT_frame_base` of the function describes, plus an offset: `DW_OP_fbreg`.
    FrameOffset {
        /// The offset, in bytes.
        offset: i64,
    },
    /// Do nothing: `DW_OP_nop`.
    Nop,
    /// Push the address of the described object, which `set_object_address` sets: `DW_OP_push_object_address`.
    PushObjectAddress,
    /// Evaluate the expression in an entry's `DW_AT_location`, in place of this operation: `DW_OP_call2`,
    /// `DW_OP_call4`, `DW_OP_call_ref`.
    Call {
        /// The entry.
        offset: DieReference<O>,
    },
    /// Pop an index and push an address in thread-local storage: `DW_OP_form_tls_address`,
    /// `DW_OP_GNU_push_tls_address`.
    TLS,
    /// Push the canonical frame address (DWARF 5, section 6.4): `DW_OP_call_frame_cfa`.
    CallFrameCFA,
    /// End a piece of the variable: `DW_OP_piece`, `DW_OP_bit_piece`. If the operation before gives a location, the
    /// piece is there. Else it is at the address that is popped, or nowhere if the stack is empty.
    Piece {
        /// Its size, in bits.
        size_in_bits: u64,
        /// The offset of its first bit in its location; `None` for `DW_OP_piece`, which begins at the next byte
        /// boundary. In a register or a value, bits are counted from the least significant one.
        bit_offset: Option<u64>,
    },
    /// The variable isn't in memory; these are its bytes: `DW_OP_implicit_value`. It completes the piece or the
    /// expression.
    ImplicitValue {
        /// The bytes.
        bytes: R,
    },
    /// The variable isn't in memory; pop its value: `DW_OP_stack_value`. It completes the piece or the expression.
    StackValue,
    /// The variable is a pointer to an object that isn't in memory: `DW_OP_implicit_pointer`,
    /// `DW_OP_GNU_implicit_pointer`. It completes the piece or the expression.
    ImplicitPointer {
        /// The entry that describes the object.
        value: DebugInfoOffset<O>,
        /// The offset into the object, in bytes.
        byte_offset: i64,
    },
    /// Push the value that an expression had when the function was entered: `DW_OP_entry_value`,
    /// `DW_OP_GNU_entry_value`.
    EntryValue {
        /// The expression.
        expression: R,
    },
    /// Push the value of a parameter that was optimized out, as the caller's call site gives it:
    /// `DW_OP_GNU_parameter_ref`.
    ParameterRef {
        /// The entry that describes the parameter; the call site's entry names the same one.
        offset: UnitOffset<O>,
    },
    /// Push a relocated address: `DW_OP_addr`.
    Address {
        /// The address before relocation.
        address: u64,
    },
    /// Push an address of `.debug_addr`, relocated: `DW_OP_addrx`, `DW_OP_GNU_addr_index`.
    AddressIndex {
        /// Its index, from `DW_AT_addr_base` of the unit.
        index: DebugAddrIndex<O>,
    },
    /// Push a constant of `.debug_addr`, as it stands: `DW_OP_constx`, `DW_OP_GNU_const_index`.
    ConstantIndex {
        /// Its index, from `DW_AT_addr_base` of the unit.
        index: DebugAddrIndex<O>,
    },
    /// Push bytes as a value of a base type: `DW_OP_const_type`, `DW_OP_GNU_const_type`.
    TypedLiteral {
        /// The type.
        base_type: UnitOffset<O>,
        /// The bytes.
        value: R,
    },
    /// Convert the top to a base type: `DW_OP_convert`, `DW_OP_GNU_convert`.
    Convert {
        /// The type.
        base_type: UnitOffset<O>,
    },
    /// Reinterpret the bits of the top as a value of a base type: `DW_OP_reinterpret`, `DW_OP_GNU_reinterpret`.
    Reinterpret {
        /// The type.
        base_type: UnitOffset<O>,
    },
    /// The variable isn't initialized: `DW_OP_GNU_uninit`. Evaluation fails with `UnsupportedEvaluation`.
    Uninitialized,
    /// Push a local variable of the running WebAssembly function: `DW_OP_WASM_location` 0.
    WasmLocal {
        /// Its index.
        index: u32,
    },
    /// Push a WebAssembly global: `DW_OP_WASM_location` 1 and 3.
    WasmGlobal {
        /// Its index.
        index: u32,
    },
    /// Push an item of the WebAssembly operand stack: `DW_OP_WASM_location` 2.
    WasmStack {
        /// Its index; 0 is the bottom.
        index: u32,
    },
    /// Push the value of a variable: `DW_OP_GNU_variable_value`. Evaluation fails with `UnsupportedEvaluation`.
    VariableValue {
        /// The entry that describes the variable.
        offset: DebugInfoOffset<O>,
    },
}

impl<R: Copy, O: Copy> Clone for Operation<R, O> {
    // A clone is a copy. Cloning each field would take long to prove.
    ghost is_clone = { λ x y. y ≡ x };

    ghost is_infallible = { λ _. ⊤ };

    fn clone(&self) -> Result<Self, AllocError> {
        Ok(*self)
    }
}
