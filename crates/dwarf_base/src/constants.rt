//! The numbers that DWARF gives to operations and encodings, by the standard's names.
#![allow(non_upper_case_globals)]

/// The opcode of an operation (DWARF 5, section 7.7.1).
#[derive(Clone, Copy, Debug, PartialEq, Eq)]
pub struct DwOp(pub u8);

/// The encoding of a base type (DWARF 5, section 7.8).
#[derive(Clone, Copy, Debug, PartialEq, Eq)]
pub struct DwAte(pub u8);

/// A binary floating-point number.
pub const DW_ATE_float: DwAte = DwAte(0x04);
/// A signed binary integer.
pub const DW_ATE_signed: DwAte = DwAte(0x05);
/// An unsigned binary integer.
pub const DW_ATE_unsigned: DwAte = DwAte(0x07);

/// The address that follows.
pub const DW_OP_addr: DwOp = DwOp(0x03);
/// The memory at an address, as wide as an address.
pub const DW_OP_deref: DwOp = DwOp(0x06);
/// An unsigned number of 1 byte.
pub const DW_OP_const1u: DwOp = DwOp(0x08);
/// A signed number of 1 byte.
pub const DW_OP_const1s: DwOp = DwOp(0x09);
/// An unsigned number of 2 bytes.
pub const DW_OP_const2u: DwOp = DwOp(0x0a);
/// A signed number of 2 bytes.
pub const DW_OP_const2s: DwOp = DwOp(0x0b);
/// An unsigned number of 4 bytes.
pub const DW_OP_const4u: DwOp = DwOp(0x0c);
/// A signed number of 4 bytes.
pub const DW_OP_const4s: DwOp = DwOp(0x0d);
/// An unsigned number of 8 bytes.
pub const DW_OP_const8u: DwOp = DwOp(0x0e);
/// A signed number of 8 bytes.
pub const DW_OP_const8s: DwOp = DwOp(0x0f);
/// An unsigned LEB128 number.
pub const DW_OP_constu: DwOp = DwOp(0x10);
/// A signed LEB128 number.
pub const DW_OP_consts: DwOp = DwOp(0x11);
/// Pushes the top value again.
pub const DW_OP_dup: DwOp = DwOp(0x12);
/// Drops the top.
pub const DW_OP_drop: DwOp = DwOp(0x13);
/// Pushes the value below the top again.
pub const DW_OP_over: DwOp = DwOp(0x14);
/// Pushes a value of the stack again, by its index from the top.
pub const DW_OP_pick: DwOp = DwOp(0x15);
/// Exchanges the top two values.
pub const DW_OP_swap: DwOp = DwOp(0x16);
/// Moves the top below the two values under it.
pub const DW_OP_rot: DwOp = DwOp(0x17);
/// The memory at an address in an address space.
pub const DW_OP_xderef: DwOp = DwOp(0x18);
/// The absolute value.
pub const DW_OP_abs: DwOp = DwOp(0x19);
/// Bitwise and.
pub const DW_OP_and: DwOp = DwOp(0x1a);
/// The quotient.
pub const DW_OP_div: DwOp = DwOp(0x1b);
/// The difference.
pub const DW_OP_minus: DwOp = DwOp(0x1c);
/// The remainder.
pub const DW_OP_mod: DwOp = DwOp(0x1d);
/// The product.
pub const DW_OP_mul: DwOp = DwOp(0x1e);
/// The negative.
pub const DW_OP_neg: DwOp = DwOp(0x1f);
/// Bitwise complement.
pub const DW_OP_not: DwOp = DwOp(0x20);
/// Bitwise or.
pub const DW_OP_or: DwOp = DwOp(0x21);
/// The sum.
pub const DW_OP_plus: DwOp = DwOp(0x22);
/// The sum with an unsigned LEB128 number.
pub const DW_OP_plus_uconst: DwOp = DwOp(0x23);
/// A shift to the left.
pub const DW_OP_shl: DwOp = DwOp(0x24);
/// A shift to the right that fills with zeros.
pub const DW_OP_shr: DwOp = DwOp(0x25);
/// A shift to the right that keeps the sign.
pub const DW_OP_shra: DwOp = DwOp(0x26);
/// Bitwise exclusive or.
pub const DW_OP_xor: DwOp = DwOp(0x27);
/// A branch if the top isn't zero.
pub const DW_OP_bra: DwOp = DwOp(0x28);
/// Whether the two values are equal.
pub const DW_OP_eq: DwOp = DwOp(0x29);
/// Whether the lower value is at least the top.
pub const DW_OP_ge: DwOp = DwOp(0x2a);
/// Whether the lower value is greater than the top.
pub const DW_OP_gt: DwOp = DwOp(0x2b);
/// Whether the lower value is at most the top.
pub const DW_OP_le: DwOp = DwOp(0x2c);
/// Whether the lower value is less than the top.
pub const DW_OP_lt: DwOp = DwOp(0x2d);
/// Whether the two values differ.
pub const DW_OP_ne: DwOp = DwOp(0x2e);
/// A branch.
pub const DW_OP_skip: DwOp = DwOp(0x2f);
/// The number 0.
pub const DW_OP_lit0: DwOp = DwOp(0x30);
/// The number 1.
pub const DW_OP_lit1: DwOp = DwOp(0x31);
/// The number 2.
pub const DW_OP_lit2: DwOp = DwOp(0x32);
/// The number 3.
pub const DW_OP_lit3: DwOp = DwOp(0x33);
/// The number 4.
pub const DW_OP_lit4: DwOp = DwOp(0x34);
/// The number 5.
pub const DW_OP_lit5: DwOp = DwOp(0x35);
/// The number 6.
pub const DW_OP_lit6: DwOp = DwOp(0x36);
/// The number 7.
pub const DW_OP_lit7: DwOp = DwOp(0x37);
/// The number 8.
pub const DW_OP_lit8: DwOp = DwOp(0x38);
/// The number 9.
pub const DW_OP_lit9: DwOp = DwOp(0x39);
/// The number 10.
pub const DW_OP_lit10: DwOp = DwOp(0x3a);
/// The number 11.
pub const DW_OP_lit11: DwOp = DwOp(0x3b);
/// The number 12.
pub const DW_OP_lit12: DwOp = DwOp(0x3c);
/// The number 13.
pub const DW_OP_lit13: DwOp = DwOp(0x3d);
/// The number 14.
pub const DW_OP_lit14: DwOp = DwOp(0x3e);
/// The number 15.
pub const DW_OP_lit15: DwOp = DwOp(0x3f);
/// The number 16.
pub const DW_OP_lit16: DwOp = DwOp(0x40);
/// The number 17.
pub const DW_OP_lit17: DwOp = DwOp(0x41);
/// The number 18.
pub const DW_OP_lit18: DwOp = DwOp(0x42);
/// The number 19.
pub const DW_OP_lit19: DwOp = DwOp(0x43);
/// The number 20.
pub const DW_OP_lit20: DwOp = DwOp(0x44);
/// The number 21.
pub const DW_OP_lit21: DwOp = DwOp(0x45);
/// The number 22.
pub const DW_OP_lit22: DwOp = DwOp(0x46);
/// The number 23.
pub const DW_OP_lit23: DwOp = DwOp(0x47);
/// The number 24.
pub const DW_OP_lit24: DwOp = DwOp(0x48);
/// The number 25.
pub const DW_OP_lit25: DwOp = DwOp(0x49);
/// The number 26.
pub const DW_OP_lit26: DwOp = DwOp(0x4a);
/// The number 27.
pub const DW_OP_lit27: DwOp = DwOp(0x4b);
/// The number 28.
pub const DW_OP_lit28: DwOp = DwOp(0x4c);
/// The number 29.
pub const DW_OP_lit29: DwOp = DwOp(0x4d);
/// The number 30.
pub const DW_OP_lit30: DwOp = DwOp(0x4e);
/// The number 31.
pub const DW_OP_lit31: DwOp = DwOp(0x4f);
/// The location is register 0.
pub const DW_OP_reg0: DwOp = DwOp(0x50);
/// The location is register 1.
pub const DW_OP_reg1: DwOp = DwOp(0x51);
/// The location is register 2.
pub const DW_OP_reg2: DwOp = DwOp(0x52);
/// The location is register 3.
pub const DW_OP_reg3: DwOp = DwOp(0x53);
/// The location is register 4.
pub const DW_OP_reg4: DwOp = DwOp(0x54);
/// The location is register 5.
pub const DW_OP_reg5: DwOp = DwOp(0x55);
/// The location is register 6.
pub const DW_OP_reg6: DwOp = DwOp(0x56);
/// The location is register 7.
pub const DW_OP_reg7: DwOp = DwOp(0x57);
/// The location is register 8.
pub const DW_OP_reg8: DwOp = DwOp(0x58);
/// The location is register 9.
pub const DW_OP_reg9: DwOp = DwOp(0x59);
/// The location is register 10.
pub const DW_OP_reg10: DwOp = DwOp(0x5a);
/// The location is register 11.
pub const DW_OP_reg11: DwOp = DwOp(0x5b);
/// The location is register 12.
pub const DW_OP_reg12: DwOp = DwOp(0x5c);
/// The location is register 13.
pub const DW_OP_reg13: DwOp = DwOp(0x5d);
/// The location is register 14.
pub const DW_OP_reg14: DwOp = DwOp(0x5e);
/// The location is register 15.
pub const DW_OP_reg15: DwOp = DwOp(0x5f);
/// The location is register 16.
pub const DW_OP_reg16: DwOp = DwOp(0x60);
/// The location is register 17.
pub const DW_OP_reg17: DwOp = DwOp(0x61);
/// The location is register 18.
pub const DW_OP_reg18: DwOp = DwOp(0x62);
/// The location is register 19.
pub const DW_OP_reg19: DwOp = DwOp(0x63);
/// The location is register 20.
pub const DW_OP_reg20: DwOp = DwOp(0x64);
/// The location is register 21.
pub const DW_OP_reg21: DwOp = DwOp(0x65);
/// The location is register 22.
pub const DW_OP_reg22: DwOp = DwOp(0x66);
/// The location is register 23.
pub const DW_OP_reg23: DwOp = DwOp(0x67);
/// The location is register 24.
pub const DW_OP_reg24: DwOp = DwOp(0x68);
/// The location is register 25.
pub const DW_OP_reg25: DwOp = DwOp(0x69);
/// The location is register 26.
pub const DW_OP_reg26: DwOp = DwOp(0x6a);
/// The location is register 27.
pub const DW_OP_reg27: DwOp = DwOp(0x6b);
/// The location is register 28.
pub const DW_OP_reg28: DwOp = DwOp(0x6c);
/// The location is register 29.
pub const DW_OP_reg29: DwOp = DwOp(0x6d);
/// The location is register 30.
pub const DW_OP_reg30: DwOp = DwOp(0x6e);
/// The location is register 31.
pub const DW_OP_reg31: DwOp = DwOp(0x6f);
/// Register 0 plus a signed LEB128 number.
pub const DW_OP_breg0: DwOp = DwOp(0x70);
/// Register 1 plus a signed LEB128 number.
pub const DW_OP_breg1: DwOp = DwOp(0x71);
/// Register 2 plus a signed LEB128 number.
pub const DW_OP_breg2: DwOp = DwOp(0x72);
/// Register 3 plus a signed LEB128 number.
pub const DW_OP_breg3: DwOp = DwOp(0x73);
/// Register 4 plus a signed LEB128 number.
pub const DW_OP_breg4: DwOp = DwOp(0x74);
/// Register 5 plus a signed LEB128 number.
pub const DW_OP_breg5: DwOp = DwOp(0x75);
/// Register 6 plus a signed LEB128 number.
pub const DW_OP_breg6: DwOp = DwOp(0x76);
/// Register 7 plus a signed LEB128 number.
pub const DW_OP_breg7: DwOp = DwOp(0x77);
/// Register 8 plus a signed LEB128 number.
pub const DW_OP_breg8: DwOp = DwOp(0x78);
/// Register 9 plus a signed LEB128 number.
pub const DW_OP_breg9: DwOp = DwOp(0x79);
/// Register 10 plus a signed LEB128 number.
pub const DW_OP_breg10: DwOp = DwOp(0x7a);
/// Register 11 plus a signed LEB128 number.
pub const DW_OP_breg11: DwOp = DwOp(0x7b);
/// Register 12 plus a signed LEB128 number.
pub const DW_OP_breg12: DwOp = DwOp(0x7c);
/// Register 13 plus a signed LEB128 number.
pub const DW_OP_breg13: DwOp = DwOp(0x7d);
/// Register 14 plus a signed LEB128 number.
pub const DW_OP_breg14: DwOp = DwOp(0x7e);
/// Register 15 plus a signed LEB128 number.
pub const DW_OP_breg15: DwOp = DwOp(0x7f);
/// Register 16 plus a signed LEB128 number.
pub const DW_OP_breg16: DwOp = DwOp(0x80);
/// Register 17 plus a signed LEB128 number.
pub const DW_OP_breg17: DwOp = DwOp(0x81);
/// Register 18 plus a signed LEB128 number.
pub const DW_OP_breg18: DwOp = DwOp(0x82);
/// Register 19 plus a signed LEB128 number.
pub const DW_OP_breg19: DwOp = DwOp(0x83);
/// Register 20 plus a signed LEB128 number.
pub const DW_OP_breg20: DwOp = DwOp(0x84);
/// Register 21 plus a signed LEB128 number.
pub const DW_OP_breg21: DwOp = DwOp(0x85);
/// Register 22 plus a signed LEB128 number.
pub const DW_OP_breg22: DwOp = DwOp(0x86);
/// Register 23 plus a signed LEB128 number.
pub const DW_OP_breg23: DwOp = DwOp(0x87);
/// Register 24 plus a signed LEB128 number.
pub const DW_OP_breg24: DwOp = DwOp(0x88);
/// Register 25 plus a signed LEB128 number.
pub const DW_OP_breg25: DwOp = DwOp(0x89);
/// Register 26 plus a signed LEB128 number.
pub const DW_OP_breg26: DwOp = DwOp(0x8a);
/// Register 27 plus a signed LEB128 number.
pub const DW_OP_breg27: DwOp = DwOp(0x8b);
/// Register 28 plus a signed LEB128 number.
pub const DW_OP_breg28: DwOp = DwOp(0x8c);
/// Register 29 plus a signed LEB128 number.
pub const DW_OP_breg29: DwOp = DwOp(0x8d);
/// Register 30 plus a signed LEB128 number.
pub const DW_OP_breg30: DwOp = DwOp(0x8e);
/// Register 31 plus a signed LEB128 number.
pub const DW_OP_breg31: DwOp = DwOp(0x8f);
/// The location is a register, by its number.
pub const DW_OP_regx: DwOp = DwOp(0x90);
/// The frame base plus a signed LEB128 number.
pub const DW_OP_fbreg: DwOp = DwOp(0x91);
/// A register, by its number, plus a signed LEB128 number.
pub const DW_OP_bregx: DwOp = DwOp(0x92);
/// A piece of this many bytes.
pub const DW_OP_piece: DwOp = DwOp(0x93);
/// This many bytes of the memory at an address.
pub const DW_OP_deref_size: DwOp = DwOp(0x94);
/// This many bytes of the memory at an address in an address space.
pub const DW_OP_xderef_size: DwOp = DwOp(0x95);
/// Nothing.
pub const DW_OP_nop: DwOp = DwOp(0x96);
/// The address of the object.
pub const DW_OP_push_object_address: DwOp = DwOp(0x97);
/// Calls the expression of an entry in this unit, by an offset of 2 bytes.
pub const DW_OP_call2: DwOp = DwOp(0x98);
/// Calls the expression of an entry in this unit, by an offset of 4 bytes.
pub const DW_OP_call4: DwOp = DwOp(0x99);
/// Calls the expression of an entry in any unit.
pub const DW_OP_call_ref: DwOp = DwOp(0x9a);
/// An address in thread-local storage.
pub const DW_OP_form_tls_address: DwOp = DwOp(0x9b);
/// The canonical frame address.
pub const DW_OP_call_frame_cfa: DwOp = DwOp(0x9c);
/// A piece of this many bits, starting at a bit offset.
pub const DW_OP_bit_piece: DwOp = DwOp(0x9d);
/// The object isn't in memory: its value is a block of bytes.
pub const DW_OP_implicit_value: DwOp = DwOp(0x9e);
/// The object isn't in memory: its value is the top of the stack.
pub const DW_OP_stack_value: DwOp = DwOp(0x9f);
/// The object is a pointer to one that isn't in memory.
pub const DW_OP_implicit_pointer: DwOp = DwOp(0xa0);
/// An address, by its index among the unit's addresses.
pub const DW_OP_addrx: DwOp = DwOp(0xa1);
/// A constant, by its index among the unit's addresses.
pub const DW_OP_constx: DwOp = DwOp(0xa2);
/// The value that an expression had when its function was entered.
pub const DW_OP_entry_value: DwOp = DwOp(0xa3);
/// A constant of a base type.
pub const DW_OP_const_type: DwOp = DwOp(0xa4);
/// The contents of a register, as a value of a base type.
pub const DW_OP_regval_type: DwOp = DwOp(0xa5);
/// The memory at an address, as a value of a base type.
pub const DW_OP_deref_type: DwOp = DwOp(0xa6);
/// The memory at an address in an address space, as a value of a base type.
pub const DW_OP_xderef_type: DwOp = DwOp(0xa7);
/// The value, converted to a base type.
pub const DW_OP_convert: DwOp = DwOp(0xa8);
/// The value's bits, reinterpreted as a value of a base type.
pub const DW_OP_reinterpret: DwOp = DwOp(0xa9);
/// GNU's form of `DW_OP_form_tls_address`.
pub const DW_OP_GNU_push_tls_address: DwOp = DwOp(0xe0);
/// A WebAssembly local, global or operand stack item.
pub const DW_OP_WASM_location: DwOp = DwOp(0xed);
/// The variable at this location isn't initialized.
pub const DW_OP_GNU_uninit: DwOp = DwOp(0xf0);
/// GNU's form of `DW_OP_implicit_pointer`.
pub const DW_OP_GNU_implicit_pointer: DwOp = DwOp(0xf2);
/// GNU's form of `DW_OP_entry_value`.
pub const DW_OP_GNU_entry_value: DwOp = DwOp(0xf3);
/// GNU's form of `DW_OP_const_type`.
pub const DW_OP_GNU_const_type: DwOp = DwOp(0xf4);
/// GNU's form of `DW_OP_regval_type`.
pub const DW_OP_GNU_regval_type: DwOp = DwOp(0xf5);
/// GNU's form of `DW_OP_deref_type`.
pub const DW_OP_GNU_deref_type: DwOp = DwOp(0xf6);
/// GNU's form of `DW_OP_convert`.
pub const DW_OP_GNU_convert: DwOp = DwOp(0xf7);
/// GNU's form of `DW_OP_reinterpret`.
pub const DW_OP_GNU_reinterpret: DwOp = DwOp(0xf9);
/// The value of a parameter, by its entry in this unit.
pub const DW_OP_GNU_parameter_ref: DwOp = DwOp(0xfa);
/// GNU's form of `DW_OP_addrx`.
pub const DW_OP_GNU_addr_index: DwOp = DwOp(0xfb);
/// GNU's form of `DW_OP_constx`.
pub const DW_OP_GNU_const_index: DwOp = DwOp(0xfc);
/// The value of a variable, by its entry.
pub const DW_OP_GNU_variable_value: DwOp = DwOp(0xfd);
