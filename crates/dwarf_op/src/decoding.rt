//! Decodes the operation at the front of a text, by the table of opcodes.

ghost use Rattle.std.specs.Prelude.{◌≡◌, ◌<◌, ◌≤◌, length, OnOk};
ghost use Rattle.dwarf_base.specs.Leb.{uleb_at};
ghost use Rattle.dwarf_base.specs.Reads.{Reads, format_at};
ghost use Rattle.dwarf_meaning.specs.Decoding.{operation_at};
ghost use Rattle.dwarf_meaning.specs.Opcodes.{Unsigned, row_of, sized_block, wasm_row};
ghost use Rattle.dwarf_meaning.specs.Operands.{Bytes, Leb128, Any, Offset, ref_size};
ghost use Rattle.dwarf_meaning.specs.Operands as range;
ghost use Rattle.dwarf_meaning.specs.Operations.{TypedLiteral};
ghost use Rattle.dwarf_op.specs.inner.Operands.{operands_in, unsigned_in, bits_in, block_in};
ghost use Rattle.dwarf_op.specs.Views.{operation_of};

use crate::operations::{DieReference, Operation};
use dwarf_base::constants::*;
use dwarf_base::{
    DebugAddrIndex, DebugInfoOffset, DwOp, Encoding, Error, Format, Reader, ReaderOffset, Register,
    Result, UnitOffset, constants,
};

// The first and last opcode of each range.
const LIT0: u8 = DW_OP_lit0.0;

const LIT31: u8 = DW_OP_lit31.0;

const REG0: u8 = DW_OP_reg0.0;

const REG31: u8 = DW_OP_reg31.0;

const BREG0: u8 = DW_OP_breg0.0;

const BREG31: u8 = DW_OP_breg31.0;

/// A `match` on an opcode, of a table's rows: an opcode or several, and the operation with its operands in order. After
/// the last `;` stand arms as in any `match`.
macro_rules! table {
    (
        $opcode:expr;
        $($row:pat => $operation:ident $({ $($field:ident: $operand:expr),+ })?,)+
        ;
        $($others:pat => $other:expr,)+
    ) => {
        match $opcode {
            $($row => Operation::$operation $({ $($field: $operand),+ })?,)+
            $($others => $other,)+
        }
    };
}

impl<R: Reader + Copy> Operation<R> {
    /// Reads the operation at the front of `bytes` (DWARF 5, sections 2.5 and 7.7.1).
    ///
    /// `UnexpectedEof` if its bytes are cut off. `InvalidExpression` if the opcode is unknown. `BadUnsignedLeb128`,
    /// `BadSignedLeb128`, `UnsupportedAddressSize`, `UnsupportedOffset`, `UnsupportedRegister` or `InvalidPieceSize` if
    /// an operand is malformed; the first malformed operand decides. After an error `bytes` is some suffix of what it
    /// was: the reader may have taken the opcode and operands, or nothing.
    #[tactic(auto, using(dwarf_base::proofs::Suffixes::suffix_trans), unfolding(dwarf_meaning::specs::Decoding::operation_at))]
    #[inline(always)]
    pub fn parse(bytes: &mut R, encoding: Encoding) -> Result<Operation<R>>
        ensures reads { Reads (operation_of R.text R.Offset.number) (R.text bytes.old)
            (R.text bytes.new) result (operation_at encoding R.Offset.BITS (R.text bytes.old)) }
        ensures less { OnOk result
            (length (R.text bytes.new).bytes < length (R.text bytes.old).bytes) }
    {
        let opcode = bytes.read_u8()?;
        read_row(opcode, bytes, encoding)
    }
}

/// The table of opcodes (DWARF 5, section 7.7.1). A row reads its operands in order, each by the function of its
/// shape, and makes the operation from them.
#[tactic(auto, using(dwarf_base::proofs::FixedNumbers::fixed_one, dwarf_base::proofs::Suffixes::suffix_trans), unfolding(dwarf_meaning::specs::Opcodes::row_of))]
#[inline(always)]
fn read_row<R: Reader + Copy>(opcode: u8, bytes: &mut R, encoding: Encoding) -> Result<Operation<R>>
    ensures { Reads (operation_of R.text R.Offset.number) (R.text bytes.old) (R.text bytes.new) result
        (operands_in R.Offset.BITS (R.text bytes.old) (row_of encoding opcode)) }
{
    Ok(table! {
        DwOp(opcode);
        DW_OP_addr => Address { address: bytes.read_address(encoding.address_size)? },
        DW_OP_deref => Deref { size: encoding.address_size, base_type: generic_type(), space: false },
        DW_OP_const1u => UnsignedConstant { value: u64::from(bytes.read_u8()?) },
        DW_OP_const1s => SignedConstant { value: i64::from(bytes.read_i8()?) },
        DW_OP_const2u => UnsignedConstant { value: u64::from(bytes.read_u16()?) },
        DW_OP_const2s => SignedConstant { value: i64::from(bytes.read_i16()?) },
        DW_OP_const4u => UnsignedConstant { value: u64::from(bytes.read_u32()?) },
        DW_OP_const4s => SignedConstant { value: i64::from(bytes.read_i32()?) },
        DW_OP_const8u => UnsignedConstant { value: bytes.read_u64()? },
        DW_OP_const8s => SignedConstant { value: bytes.read_i64()? },
        DW_OP_constu => UnsignedConstant { value: bytes.read_uleb128()? },
        DW_OP_consts => SignedConstant { value: bytes.read_sleb128()? },
        DW_OP_dup => Pick { index: 0 },
        DW_OP_drop => Drop,
        DW_OP_over => Pick { index: 1 },
        DW_OP_pick => Pick { index: bytes.read_u8()? },
        DW_OP_swap => Swap,
        DW_OP_rot => Rot,
        DW_OP_xderef => Deref { size: encoding.address_size, base_type: generic_type(), space: true },
        DW_OP_abs => Abs,
        DW_OP_and => And,
        DW_OP_div => Div,
        DW_OP_minus => Minus,
        DW_OP_mod => Mod,
        DW_OP_mul => Mul,
        DW_OP_neg => Neg,
        DW_OP_not => Not,
        DW_OP_or => Or,
        DW_OP_plus => Plus,
        DW_OP_plus_uconst => PlusConstant { value: bytes.read_uleb128()? },
        DW_OP_shl => Shl,
        DW_OP_shr => Shr,
        DW_OP_shra => Shra,
        DW_OP_xor => Xor,
        DW_OP_bra => Bra { target: bytes.read_i16()? },
        DW_OP_eq => Eq,
        DW_OP_ge => Ge,
        DW_OP_gt => Gt,
        DW_OP_le => Le,
        DW_OP_lt => Lt,
        DW_OP_ne => Ne,
        DW_OP_skip => Skip { target: bytes.read_i16()? },
        DwOp(LIT0..=LIT31) => UnsignedConstant { value: u64::from(opcode - LIT0) },
        DwOp(REG0..=REG31) => Register { register: Register(u16::from(opcode - REG0)) },
        DwOp(BREG0..=BREG31) => RegisterOffset {
            register: Register(u16::from(opcode - BREG0)), offset: bytes.read_sleb128()?, base_type: generic_type()
        },
        DW_OP_regx => Register { register: register_number(bytes)? },
        DW_OP_fbreg => FrameOffset { offset: bytes.read_sleb128()? },
        DW_OP_bregx => RegisterOffset {
            register: register_number(bytes)?, offset: bytes.read_sleb128()?, base_type: generic_type()
        },
        DW_OP_piece => Piece { size_in_bits: piece_size(bytes)?, bit_offset: None },
        DW_OP_deref_size => Deref { size: bytes.read_u8()?, base_type: generic_type(), space: false },
        DW_OP_xderef_size => Deref { size: bytes.read_u8()?, base_type: generic_type(), space: true },
        DW_OP_nop => Nop,
        DW_OP_push_object_address => PushObjectAddress,
        DW_OP_call2 => Call { offset: DieReference::UnitRef(UnitOffset(R::Offset::from_u16(bytes.read_u16()?))) },
        DW_OP_call4 => Call { offset: DieReference::UnitRef(UnitOffset(R::Offset::from_u32(bytes.read_u32()?))) },
        DW_OP_call_ref => Call { offset: DieReference::DebugInfoRef(debug_info_offset(bytes, encoding.format)?) },
        DW_OP_form_tls_address | DW_OP_GNU_push_tls_address => TLS,
        DW_OP_call_frame_cfa => CallFrameCFA,
        DW_OP_bit_piece => Piece { size_in_bits: bytes.read_uleb128()?, bit_offset: Some(bytes.read_uleb128()?) },
        DW_OP_implicit_value => ImplicitValue { bytes: long_block(bytes)? },
        DW_OP_stack_value => StackValue,
        DW_OP_implicit_pointer | DW_OP_GNU_implicit_pointer => ImplicitPointer {
            value: DebugInfoOffset(reference(bytes, encoding)?), byte_offset: bytes.read_sleb128()?
        },
        DW_OP_addrx | DW_OP_GNU_addr_index => AddressIndex { index: address_index(bytes)? },
        DW_OP_constx | DW_OP_GNU_const_index => ConstantIndex { index: address_index(bytes)? },
        DW_OP_entry_value | DW_OP_GNU_entry_value => EntryValue { expression: long_block(bytes)? },
        DW_OP_regval_type | DW_OP_GNU_regval_type => RegisterOffset {
            register: register_number(bytes)?, offset: 0, base_type: base_type(bytes)?
        },
        DW_OP_deref_type | DW_OP_GNU_deref_type => Deref {
            size: bytes.read_u8()?, base_type: base_type(bytes)?, space: false
        },
        DW_OP_xderef_type => Deref { size: bytes.read_u8()?, base_type: base_type(bytes)?, space: true },
        DW_OP_convert | DW_OP_GNU_convert => Convert { base_type: base_type(bytes)? },
        DW_OP_reinterpret | DW_OP_GNU_reinterpret => Reinterpret { base_type: base_type(bytes)? },
        DW_OP_GNU_uninit => Uninitialized,
        DW_OP_GNU_parameter_ref => ParameterRef { offset: UnitOffset(R::Offset::from_u32(bytes.read_u32()?)) },
        DW_OP_GNU_variable_value => VariableValue { offset: debug_info_offset(bytes, encoding.format)? },
        ;
        DW_OP_const_type | DW_OP_GNU_const_type => typed_literal(bytes)?,
        DW_OP_WASM_location => wasm_location(bytes)?,
        _ => return Err(Error::InvalidExpression(DwOp(opcode))),
    })
}

/// Reads an unsigned LEB128 number, for rare rows.
// If these had `read_uleb128` in line, the table would be too large for the kit to inline. This saves 0.07 of gimli's
// time to decode libc and libm from C.
#[tactic(auto, using(dwarf_base::proofs::Suffixes::suffix_trans))]
#[inline]
fn unsigned<R: Reader + Copy>(bytes: &mut R) -> Result<u64>
    ensures { Reads (λ x. x) (R.text bytes.old) (R.text bytes.new) result
        (uleb_at (R.text bytes.old).bytes) }
{
    bytes.read_uleb128()
}

/// Reads an unsigned LEB128 number that fits an offset.
#[tactic(auto, using(dwarf_base::proofs::Suffixes::suffix_trans))]
#[inline]
fn offset<R: Reader + Copy>(bytes: &mut R) -> Result<R::Offset>
    ensures { Reads R.Offset.number (R.text bytes.old) (R.text bytes.new) result
        (unsigned_in R.Offset.BITS (R.text bytes.old) (Leb128, Offset)) }
{
    R::Offset::from_u64(bytes.read_uleb128()?)
}

/// Reads the offset of a base type's entry in the unit.
#[tactic(auto, using(dwarf_base::proofs::Suffixes::suffix_trans))]
#[inline(always)]
fn base_type<R: Reader + Copy>(bytes: &mut R) -> Result<UnitOffset<R::Offset>>
    ensures { Reads (λ base_type. R.Offset.number base_type.0) (R.text bytes.old) (R.text bytes.new) result
        (unsigned_in R.Offset.BITS (R.text bytes.old) (Leb128, Offset)) }
{
    Ok(UnitOffset(offset(bytes)?))
}

/// Reads an index into `.debug_addr`.
#[tactic(auto, using(dwarf_base::proofs::Suffixes::suffix_trans))]
#[inline(always)]
fn address_index<R: Reader + Copy>(bytes: &mut R) -> Result<DebugAddrIndex<R::Offset>>
    ensures { Reads (λ index. R.Offset.number index.0) (R.text bytes.old) (R.text bytes.new) result
        (unsigned_in R.Offset.BITS (R.text bytes.old) (Leb128, Offset)) }
{
    Ok(DebugAddrIndex(offset(bytes)?))
}

/// Reads the offset of an entry in `.debug_info`.
#[tactic(auto, using(dwarf_base::proofs::Suffixes::suffix_trans))]
#[inline(always)]
fn debug_info_offset<R: Reader + Copy>(
    bytes: &mut R,
    format: Format,
) -> Result<DebugInfoOffset<R::Offset>>
    ensures { Reads (λ entry. R.Offset.number entry.0) (R.text bytes.old) (R.text bytes.new) result
        (format_at (R.text bytes.old).is_big format R.Offset.BITS (R.text bytes.old).bytes) }
{
    Ok(DebugInfoOffset(bytes.read_offset(format)?))
}

/// Reads an unsigned LEB128 number that is the number of a register.
#[tactic(auto, using(dwarf_base::proofs::Suffixes::suffix_trans))]
#[inline(always)]
fn register_number<R: Reader + Copy>(bytes: &mut R) -> Result<Register>
    ensures { Reads (λ r. r.0) (R.text bytes.old) (R.text bytes.new) result
        (unsigned_in R.Offset.BITS (R.text bytes.old) (Leb128, range.Register)) }
{
    Register::from_u64(unsigned(bytes)?)
}

/// Reads the size of a piece in bytes, and gives it in bits.
#[tactic(auto, using(dwarf_base::proofs::Suffixes::suffix_trans))]
#[inline(always)]
fn piece_size<R: Reader + Copy>(bytes: &mut R) -> Result<u64>
    ensures { Reads (λ bits. bits) (R.text bytes.old) (R.text bytes.new) result
        (bits_in R.Offset.BITS (R.text bytes.old)) }
{
    let size = unsigned(bytes)?;
    size.checked_mul(8).ok_or(Error::InvalidPieceSize(size))
}

/// Reads a block whose size is an unsigned LEB128 number.
#[tactic(auto, using(dwarf_base::proofs::Suffixes::suffix_trans))]
#[inline(always)]
fn long_block<R: Reader + Copy>(bytes: &mut R) -> Result<R>
    ensures { Reads R.text (R.text bytes.old) (R.text bytes.new) result
        (block_in R.Offset.BITS (R.text bytes.old) (Leb128, Offset)) }
{
    let length = offset(bytes)?;
    bytes.split(length)
}

/// Reads a block whose size is one byte.
#[tactic(auto, using(dwarf_base::proofs::FixedNumbers::fixed_one, dwarf_base::proofs::Suffixes::suffix_trans))]
#[inline(always)]
fn short_block<R: Reader + Copy>(bytes: &mut R) -> Result<R>
    ensures { Reads R.text (R.text bytes.old) (R.text bytes.new) result
        (block_in R.Offset.BITS (R.text bytes.old) (Bytes 1, Any)) }
{
    let length = R::Offset::from_u8(bytes.read_u8()?);
    bytes.split(length)
}

/// Reads an offset into `.debug_info`. In version 2 it is as wide as an address.
#[tactic(auto, using(dwarf_base::proofs::Suffixes::suffix_trans))]
#[inline(always)]
fn reference<R: Reader + Copy>(bytes: &mut R, encoding: Encoding) -> Result<R::Offset>
    ensures { Reads R.Offset.number (R.text bytes.old) (R.text bytes.new) result
        (unsigned_in R.Offset.BITS (R.text bytes.old) (Bytes (ref_size encoding), Offset)) }
{
    if encoding.version != 2 {
        return bytes.read_offset(encoding.format);
    }
    let address = bytes.read_address(encoding.address_size)?;
    R::Offset::from_u64(address)
}

/// Reads a literal: its base type, and a block whose size is one byte.
#[tactic(auto, using(dwarf_base::proofs::FixedNumbers::fixed_one, dwarf_base::proofs::Suffixes::suffix_trans))]
#[inline(always)]
fn typed_literal<R: Reader + Copy>(bytes: &mut R) -> Result<Operation<R>>
    ensures { Reads (operation_of R.text R.Offset.number) (R.text bytes.old) (R.text bytes.new) result
        (operands_in R.Offset.BITS (R.text bytes.old)
        (Unsigned (Leb128, Offset) λ base_type. sized_block (Bytes 1, Any) (TypedLiteral base_type))) }
{
    Ok(Operation::TypedLiteral {
        base_type: base_type(bytes)?,
        value: short_block(bytes)?,
    })
}

/// Reads a WebAssembly value: its kind, and its index, which some kinds encode in another way.
#[tactic(auto, using(dwarf_base::proofs::FixedNumbers::fixed_one, dwarf_base::proofs::Suffixes::suffix_trans))]
#[inline(always)]
fn wasm_location<R: Reader + Copy>(bytes: &mut R) -> Result<Operation<R>>
    ensures { Reads (operation_of R.text R.Offset.number) (R.text bytes.old) (R.text bytes.new) result
        (operands_in R.Offset.BITS (R.text bytes.old) (Unsigned (Bytes 1, Any) wasm_row)) }
{
    let kind = bytes.read_u8()?;
    let index = match kind {
        0 | 1 | 2 => bytes.read_uleb128_u32()?,
        3 => bytes.read_u32()?,
        _ => return Err(Error::InvalidExpression(constants::DW_OP_WASM_location)),
    };
    match kind {
        0 => Ok(Operation::WasmLocal { index }),
        2 => Ok(Operation::WasmStack { index }),
        _ => Ok(Operation::WasmGlobal { index }),
    }
}

/// The generic type: the base type at offset 0.
#[inline]
fn generic_type<O: ReaderOffset>() -> UnitOffset<O>
    ensures { O.number result.0 ≡ 0 }
{
    UnitOffset(O::from_u8(0))
}
