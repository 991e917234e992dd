//! Laws of reads, of equality and of the constants.
ghost use Rattle.std.specs.Prelude.{ℕ, Bool};
ghost use Rattle.dwarf_base.specs.declared.common.Format.{Format};
ghost use Rattle.dwarf_base.specs.Equality.{IsEquality, IsEqualityBy, IsSliceEquality};
ghost use Rattle.dwarf_base.specs.Fronts.{ReadsExactly, ReadsFronts, SpellsBlock, SpellsFixed, MalformedBlock};
ghost use Rattle.dwarf_base.specs.Leb.{uleb_at, uleb_u32_at, sleb_at, unsigned_leb, signed_leb, SpellsLeb, MalformedLeb};
ghost use Rattle.dwarf_base.specs.Reads.{u8_at, split_at, fixed_at, signed_at, address_at, format_at};
ghost use Rattle.dwarf_base.specs.StandardNumbers.{HaveTheirNumbers, operation_numbers, extension_numbers, encoding_numbers};

use crate::byte_order::{BigEndian, Endianity, LittleEndian, RunTimeEndian};
use crate::common::{
    DebugAddrIndex, DebugInfoOffset, Encoding, Format, ReaderOffsetId, Register, UnitOffset,
};
use crate::constants::{DwAte, DwOp};
use crate::errors::Error;
use crate::slices::EndianSlice;

/// A read returns what a prefix of the bytes spells, and looks at no byte after that prefix.
pub fn reader_laws()
    // A read returns a value exactly if a prefix spells it, and a fault exactly if the bytes are malformed.
    ensures block { (n : ℕ) → ReadsExactly (SpellsBlock n) (MalformedBlock n) (split_at n) }
    ensures fixed { (big : Bool) (n : ℕ)
        → ReadsExactly (SpellsFixed big n) (MalformedBlock n) (fixed_at big n) }
    ensures unsigned { ReadsExactly (SpellsLeb unsigned_leb) (MalformedLeb unsigned_leb) uleb_at }
    ensures signed { ReadsExactly (SpellsLeb signed_leb) (MalformedLeb signed_leb) sleb_at }

    // Bytes after that prefix change nothing. A shorter prefix gives `UnexpectedEof`.
    ensures byte_fronts { ReadsFronts u8_at }
    ensures block_fronts { (n : ℕ) → ReadsFronts (split_at n) }
    ensures fixed_fronts { (big : Bool) (n : ℕ) → ReadsFronts (fixed_at big n) }
    ensures signed_fixed_fronts { (big : Bool) (n : ℕ) → ReadsFronts (signed_at big n) }
    ensures address_fronts { (big : Bool) (size : ℕ) → ReadsFronts (address_at big size) }
    ensures offset_fronts { (big : Bool) (format : Format) (bits : ℕ)
        → ReadsFronts (format_at big format bits) }
    ensures unsigned_fronts { ReadsFronts uleb_at }
    ensures small_unsigned_fronts { ReadsFronts uleb_u32_at }
    ensures signed_fronts { ReadsFronts sleb_at }
{}

/// Two values are equal exactly if contracts can't tell them apart. It does nothing; its contract states the laws.
pub fn equality_laws()
    ensures little_endian { IsEquality ⟦<LittleEndian as PartialEq>⟧.eq }
    ensures big_endian { IsEquality ⟦<BigEndian as PartialEq>⟧.eq }
    ensures run_time_endian { IsEquality ⟦<RunTimeEndian as PartialEq>⟧.eq }
    ensures format { IsEquality ⟦<Format as PartialEq>⟧.eq }
    ensures encoding { IsEquality ⟦<Encoding as PartialEq>⟧.eq }
    ensures register { IsEquality ⟦<Register as PartialEq>⟧.eq }
    ensures reader_offset_id { IsEquality ⟦<ReaderOffsetId as PartialEq>⟧.eq }
    ensures operation { IsEquality ⟦<DwOp as PartialEq>⟧.eq }
    ensures base_type_encoding { IsEquality ⟦<DwAte as PartialEq>⟧.eq }
    ensures error { IsEquality ⟦<Error as PartialEq>⟧.eq }
{}

/// Offsets and indices are equal exactly if their numbers are.
pub fn offset_equality_laws<T: Eq>()
    ensures unit_offset { IsEqualityBy ⟦<UnitOffset<T> as PartialEq>⟧.eq (λ offset. offset.0)
        T.PartialEq.eq }
    ensures debug_info_offset { IsEqualityBy ⟦<DebugInfoOffset<T> as PartialEq>⟧.eq
        (λ offset. offset.0) T.PartialEq.eq }
    ensures debug_addr_index { IsEqualityBy ⟦<DebugAddrIndex<T> as PartialEq>⟧.eq (λ index. index.0)
        T.PartialEq.eq }
{}

/// Slices are equal exactly if their bytes are the same and their byte orders are equal.
pub fn slice_equality_laws<E: Endianity + Eq>()
    ensures { IsSliceEquality E.PartialEq.eq ⟦<EndianSlice<'static, E> as PartialEq>⟧.eq }
{}

/// Each constant has the number that DWARF gives to its name (DWARF 5, sections 7.7.1 and 7.8).
pub fn constant_laws()
    ensures operations { HaveTheirNumbers operation_numbers }
    ensures extensions { HaveTheirNumbers extension_numbers }
    ensures encodings { HaveTheirNumbers encoding_numbers }
{}
