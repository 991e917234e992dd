//! An operation as numbers.

ghost use Rattle.std.specs.Prelude.{◌≡◌, ◌+◌, ◌-◌, ◌^◌, ◌<◌};
ghost use Rattle.dwarf_base.specs.EndianSlice.{slice_text};
ghost use Rattle.dwarf_op.specs.Views.{operation_of};
ghost use Rattle.dwexpr_c.specs.CodedOperations.{block_in, decoded_operation, operands_of, undecoded_operation, with_block};

use crate::faults::{FaultNumbers, OK};
use dwarf_base::{EndianSlice, Reader, RunTimeEndian};
use dwarf_op::{DieReference, Operation};

/// Bytes in the byte order that a caller names.
pub(crate) type Bytes<'a> = EndianSlice<'a, RunTimeEndian>;

/// An operation, or why there is none. Fields that its kind doesn't name are 0.
#[repr(C)]
#[derive(Clone, Copy)]
pub struct DwexprOperation {
    /// The offset in the bytes at which it begins.
    pub offset: usize,
    /// The number of its bytes; 0 if there is no operation.
    pub size: usize,
    /// Its first byte; 0 if none was read.
    pub opcode: u32,
    /// Its kind; 0 if there is no operation.
    pub kind: u32,
    /// A constant, an address, an index, a size in bits or an offset of an entry.
    pub number: u64,
    /// A constant, an offset in bytes, or the distance of a branch from the end of the operation.
    pub signed_number: i64,
    /// The offset of the base type in the unit; 0 for the generic type.
    pub base_type: u64,
    /// The register.
    pub register_number: u32,
    /// The number of bytes that are read from memory.
    pub deref_size: u32,
    /// 1 if an address space is popped too, a bit offset is given, or the called entry is given by its offset in
    /// `.debug_info`.
    pub flag: u32,
    /// The code that the call returns.
    pub fault: u32,
    /// The offset in the bytes at which the block begins.
    pub block_offset: usize,
    /// The number of bytes in the block.
    pub block_length: usize,
    /// The bit offset, or the number that the fault carries.
    pub detail: u64,
}

const NOTHING: DwexprOperation = DwexprOperation {
    offset: 0,
    size: 0,
    opcode: 0,
    kind: 0,
    number: 0,
    signed_number: 0,
    base_type: 0,
    register_number: 0,
    deref_size: 0,
    flag: 0,
    fault: OK,
    block_offset: 0,
    block_length: 0,
    detail: 0,
};

/// Shows that an argument isn't allowed.
pub(crate) fn disallow(offset: usize, code: u32) -> DwexprOperation
    ensures { result ≡ undecoded_operation offset code }
{
    DwexprOperation {
        offset,
        fault: code,
        ..NOTHING
    }
}

/// Shows a fault.
pub(crate) fn show_fault(offset: usize, opcode: u8, fault: FaultNumbers) -> DwexprOperation
    ensures { result
        ≡ record (undecoded_operation offset fault.code)
        { opcode = opcode; detail = fault.number } }
{
    DwexprOperation {
        opcode: u32::from(opcode),
        detail: fault.number,
        ..disallow(offset, fault.code)
    }
}

/// Shows a block, which ends at `end`.
fn show_block(length: usize, end: usize, shown: &mut DwexprOperation)
    ensures { shown.new
        ≡ record shown.old { block_offset = end - length; block_length = length } }
{
    shown.block_offset = end.saturating_sub(length);
    shown.block_length = length;
}

/// Shows the operands of an operation that ends at `end`.
// Each arm writes to the caller's struct. If all arms returned a value, it would be copied there field by field.
fn show_operands(operation: Operation<Bytes<'_>>, end: usize, shown: &mut DwexprOperation)
    ensures { let op = operation_of slice_text (λ x. x) operation.entry in shown.new
        ≡ with_block end (block_in op) (operands_of op) }
{
    *shown = NOTHING;
    match operation {
        Operation::Deref {
            base_type,
            size,
            space,
        } => {
            shown.base_type = base_type.0 as u64;
            shown.deref_size = u32::from(size);
            shown.flag = u32::from(space);
        }
        Operation::Pick { index } => shown.number = u64::from(index),
        Operation::PlusConstant { value } | Operation::UnsignedConstant { value } => {
            shown.number = value;
        }
        Operation::Bra { target } | Operation::Skip { target } => {
            shown.signed_number = i64::from(target);
        }
        Operation::SignedConstant { value } => shown.signed_number = value,
        Operation::Register { register } => shown.register_number = u32::from(register.0),
        Operation::RegisterOffset {
            register,
            offset,
            base_type,
        } => {
            shown.register_number = u32::from(register.0);
            shown.signed_number = offset;
            shown.base_type = base_type.0 as u64;
        }
        Operation::FrameOffset { offset } => shown.signed_number = offset,
        Operation::Call {
            offset: DieReference::UnitRef(offset),
        } => {
            shown.number = offset.0 as u64;
        }
        Operation::Call {
            offset: DieReference::DebugInfoRef(offset),
        } => {
            shown.number = offset.0 as u64;
            shown.flag = 1;
        }
        Operation::Piece {
            size_in_bits,
            bit_offset,
        } => {
            shown.number = size_in_bits;
            if let Some(bit_offset) = bit_offset {
                shown.flag = 1;
                shown.detail = bit_offset;
            }
        }
        Operation::ImplicitValue { bytes } => show_block(bytes.len(), end, shown),
        Operation::ImplicitPointer { value, byte_offset } => {
            shown.number = value.0 as u64;
            shown.signed_number = byte_offset;
        }
        Operation::EntryValue { expression } => show_block(expression.len(), end, shown),
        Operation::ParameterRef { offset } => shown.number = offset.0 as u64,
        Operation::Address { address } => shown.number = address,
        Operation::AddressIndex { index } | Operation::ConstantIndex { index } => {
            shown.number = index.0 as u64;
        }
        Operation::TypedLiteral { base_type, value } => {
            shown.base_type = base_type.0 as u64;
            show_block(value.len(), end, shown);
        }
        Operation::Convert { base_type } | Operation::Reinterpret { base_type } => {
            shown.base_type = base_type.0 as u64;
        }
        Operation::WasmLocal { index }
        | Operation::WasmGlobal { index }
        | Operation::WasmStack { index } => shown.number = u64::from(index),
        Operation::VariableValue { offset } => shown.number = offset.0 as u64,
        // The others have none.
        _ => {}
    }
}

/// Shows an operation of this many bytes.
pub(crate) fn show(
    operation: Operation<Bytes<'_>>,
    offset: usize,
    opcode: u8,
    size: usize,
    shown: &mut DwexprOperation,
)
    requires { offset + size < 2 ^ 64 }
    ensures { shown.new
        ≡ decoded_operation offset opcode size (operation_of slice_text (λ x. x) operation.entry) }
{
    show_operands(operation, offset + size, shown);
    shown.offset = offset;
    shown.opcode = u32::from(opcode);
    shown.size = size;
    shown.kind = operation.number();
}
