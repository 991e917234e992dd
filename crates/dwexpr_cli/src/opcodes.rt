//! The standard's name of an operation, and its operands.

use crate::writing::{Bytes, Word, put_bytes, put_integer, put_number, put_text, put_word};
use dwarf_base::constants::*;
use dwarf_base::{DwOp, EndianSlice, ReaderOffset, Register};
use dwarf_eval::op::{DieReference, Operation};
use std::io;
use std::io::Write;

// The first and last opcode of each numbered range.
const LIT0: u8 = DW_OP_lit0.0;

const LIT31: u8 = DW_OP_lit31.0;

const REG0: u8 = DW_OP_reg0.0;

const REG31: u8 = DW_OP_reg31.0;

const BREG0: u8 = DW_OP_breg0.0;

const BREG31: u8 = DW_OP_breg31.0;

const BREGX: u8 = DW_OP_bregx.0;

/// The name of one of these constants.
macro_rules! name_among {
    ($opcode:ident in $($name:ident)+) => {
        match $opcode {
            $($name => stringify!($name),)+
            _ => "",
        }
    };
}

/// The standard's name of an opcode that isn't in a numbered range; empty if there is no such opcode.
fn name_of(opcode: DwOp) -> &'static str {
    name_among! { opcode in
        DW_OP_addr DW_OP_deref DW_OP_const1u DW_OP_const1s DW_OP_const2u DW_OP_const2s DW_OP_const4u DW_OP_const4s
        DW_OP_const8u DW_OP_const8s DW_OP_constu DW_OP_consts DW_OP_dup DW_OP_drop DW_OP_over DW_OP_pick DW_OP_swap
        DW_OP_rot DW_OP_xderef DW_OP_abs DW_OP_and DW_OP_div DW_OP_minus DW_OP_mod DW_OP_mul DW_OP_neg DW_OP_not
        DW_OP_or DW_OP_plus DW_OP_plus_uconst DW_OP_shl DW_OP_shr DW_OP_shra DW_OP_xor DW_OP_bra DW_OP_eq DW_OP_ge
        DW_OP_gt DW_OP_le DW_OP_lt DW_OP_ne DW_OP_skip DW_OP_regx DW_OP_fbreg DW_OP_bregx DW_OP_piece
        DW_OP_deref_size DW_OP_xderef_size DW_OP_nop DW_OP_push_object_address DW_OP_call2 DW_OP_call4
        DW_OP_call_ref DW_OP_form_tls_address DW_OP_call_frame_cfa DW_OP_bit_piece DW_OP_implicit_value
        DW_OP_stack_value DW_OP_implicit_pointer DW_OP_addrx DW_OP_constx DW_OP_entry_value DW_OP_const_type
        DW_OP_regval_type DW_OP_deref_type DW_OP_xderef_type DW_OP_convert DW_OP_reinterpret
        DW_OP_GNU_push_tls_address DW_OP_WASM_location DW_OP_GNU_uninit DW_OP_GNU_implicit_pointer
        DW_OP_GNU_entry_value DW_OP_GNU_const_type DW_OP_GNU_regval_type DW_OP_GNU_deref_type DW_OP_GNU_convert
        DW_OP_GNU_reinterpret DW_OP_GNU_parameter_ref DW_OP_GNU_addr_index DW_OP_GNU_const_index
        DW_OP_GNU_variable_value
    }
}

/// Writes the standard's name of an opcode.
fn put_name<W: Write>(output: &mut W, opcode: u8) -> io::Result<()> {
    match opcode {
        LIT0..=LIT31 => put_number(output, "DW_OP_lit", 10, u64::from(opcode - LIT0)),
        REG0..=REG31 => put_number(output, "DW_OP_reg", 10, u64::from(opcode - REG0)),
        BREG0..=BREG31 => put_number(output, "DW_OP_breg", 10, u64::from(opcode - BREG0)),
        _ => put_text(output, name_of(DwOp(opcode))),
    }
}

/// Writes those operands that are there, a blank before each.
fn put_operands<W: Write>(output: &mut W, operands: [Option<Word<'_>>; 2]) -> io::Result<()> {
    for operand in operands.iter().flatten() {
        put_text(output, " ")?;
        put_word(output, *operand)?;
    }
    Ok(())
}

/// Writes a distance, with its sign.
fn put_distance<W: Write>(output: &mut W, distance: i64) -> io::Result<()> {
    put_integer(output, if distance < 0 { " " } else { " +" }, distance)
}

/// Writes how many bytes a block has, and each of them.
fn put_block<W: Write>(output: &mut W, block: Bytes<'_>) -> io::Result<()> {
    let bytes = block.slice();
    put_number(output, " ", 10, bytes.len() as u64)?;
    put_text(output, " bytes:")?;
    for byte in bytes {
        put_text(output, " ")?;
        put_bytes(output, EndianSlice::new(&[*byte], block.endian()))?;
    }
    Ok(())
}

/// The offset of an entry.
fn entry(reference: DieReference<usize>) -> usize {
    match reference {
        DieReference::UnitRef(offset) => offset.0,
        DieReference::DebugInfoRef(offset) => offset.0,
    }
}

fn number(number: u64) -> Option<Word<'static>> {
    Some(Word::Number(number))
}

fn small(operand: u8) -> Option<Word<'static>> {
    number(u64::from(operand))
}

fn register(register: Register) -> Option<Word<'static>> {
    number(u64::from(register.0))
}

fn offset(offset: usize) -> Option<Word<'static>> {
    number(offset.into_u64())
}

/// The operands of an operation of WebAssembly.
fn wasm_operands(space: &'static str, index: u32) -> [Option<Word<'static>>; 2] {
    [Some(Word::Name(space)), number(u64::from(index))]
}

/// The numbers and names among the operands, which come before a distance or a block. An operand that the opcode
/// implies, as the register of `DW_OP_reg0`, isn't one.
fn operands_of(opcode: u8, operation: Operation<Bytes<'_>>) -> [Option<Word<'static>>; 2] {
    match operation {
        Operation::Deref {
            size,
            base_type,
            ..
        } => match DwOp(opcode) {
            DW_OP_deref | DW_OP_xderef => [None, None],
            DW_OP_deref_size | DW_OP_xderef_size => [small(size), None],
            _ => [small(size), offset(base_type.0)],
        },
        Operation::Pick { index } if DwOp(opcode) == DW_OP_pick => [small(index), None],
        Operation::PlusConstant { value } => [number(value), None],
        Operation::UnsignedConstant { value } if opcode < LIT0 => [number(value), None],
        Operation::SignedConstant { value } => [Some(Word::Integer(value)), None],
        Operation::Register { register: it } if DwOp(opcode) == DW_OP_regx => [register(it), None],
        Operation::RegisterOffset {
            register: it,
            base_type,
            ..
        } => match opcode {
            BREG0..=BREG31 => [None, None],
            BREGX => [register(it), None],
            _ => [register(it), offset(base_type.0)],
        },
        Operation::Call { offset: reference } => [offset(entry(reference)), None],
        Operation::Piece {
            size_in_bits,
            bit_offset: Some(start),
        } => [number(size_in_bits), number(start)],
        Operation::Piece { size_in_bits, .. } => [number(size_in_bits / 8), None],
        Operation::ImplicitPointer { value, .. } => [offset(value.0), None],
        Operation::ParameterRef { offset: it } => [offset(it.0), None],
        Operation::Address { address } => [Some(Word::Hexadecimal(address)), None],
        Operation::AddressIndex { index } | Operation::ConstantIndex { index } => [
            offset(index.0),
            None,
        ],
        Operation::TypedLiteral { base_type, .. }
        | Operation::Convert { base_type }
        | Operation::Reinterpret { base_type } => [offset(base_type.0), None],
        Operation::WasmLocal { index } => wasm_operands("local", index),
        Operation::WasmGlobal { index } => wasm_operands("global", index),
        Operation::WasmStack { index } => wasm_operands("stack", index),
        Operation::VariableValue { offset: it } => [offset(it.0), None],
        _ => [None, None],
    }
}

/// Writes an operation as the standard names it, and its operands as they are encoded.
pub(crate) fn put_operation<W: Write>(
    output: &mut W,
    opcode: u8,
    operation: Operation<Bytes<'_>>,
) -> io::Result<()> {
    put_name(output, opcode)?;
    put_operands(output, operands_of(opcode, operation))?;
    match operation {
        Operation::Bra { target } | Operation::Skip { target } => {
            put_distance(output, i64::from(target))
        }
        Operation::FrameOffset { offset: distance }
        | Operation::ImplicitPointer {
            byte_offset: distance,
            ..
        } => put_distance(output, distance),
        Operation::RegisterOffset {
            offset: distance,
            ..
        } if opcode <= BREGX => { put_distance(output, distance) }
        Operation::ImplicitValue { bytes: block }
        | Operation::EntryValue { expression: block }
        | Operation::TypedLiteral { value: block, .. } => put_block(output, block),
        _ => Ok(()),
    }
}
