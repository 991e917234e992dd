//! An encoding as numbers.

ghost use Rattle.dwarf_eval.specs.Evaluation.{IsAddressSize};
ghost use Rattle.std.specs.Prelude.{◌≡◌, ◌<◌, ◌≤◌, ◌⊎◌, IfSome, IfNone, ◌==◌, if◌then◌else◌};
ghost use Rattle.dwarf_base.specs.ByteOrder.{is_big_of};
ghost use Rattle.dwexpr_c.specs.Encodings.{IsEncoding, encoding_in, is_big_in};

use dwarf_base::{Encoding, Format, RunTimeEndian};

/// How to read bytes, as a caller's numbers. Any of them may be wrong.
#[repr(C)]
#[derive(Clone, Copy)]
pub struct DwexprEncoding {
    /// The size of an address in bytes, 1 to 8.
    pub address_size: u8,
    /// The size of an offset in bytes, 4 or 8.
    pub offset_size: u8,
    /// 0 if the least significant byte of a number comes first, 1 if the most significant byte does.
    pub big_endian: u8,
    /// The version of DWARF, 2 to 5.
    pub version: u8,
}

fn format_of(offset_size: u8) -> Option<Format>
    ensures some { IfSome result
        (λ format. ((offset_size ≡ 4) ⊎ (offset_size ≡ 8))
        × (format ≡ (if offset_size == 8 then Format.Dwarf64 else Format.Dwarf32))) }
    ensures none { IfNone result (((offset_size ≡ 4) ⊎ (offset_size ≡ 8)) → ⊥) }
{
    match offset_size {
        4 => Some(Format::Dwarf32),
        8 => Some(Format::Dwarf64),
        _ => None,
    }
}

/// The byte order with this number.
pub(crate) fn order_of(big_endian: u8) -> Option<RunTimeEndian>
    ensures some { IfSome result
        (λ order. (big_endian ≤ 1)
        × (is_big_of order ≡ (big_endian == 1))) }
    ensures none { IfNone result (1 < big_endian) }
{
    match big_endian {
        0 => Some(RunTimeEndian::Little),
        1 => Some(RunTimeEndian::Big),
        _ => None,
    }
}

/// The encoding and the byte order that the numbers stand for, if both are allowed.
pub(crate) fn reading_of(numbers: DwexprEncoding) -> Option<(Encoding, RunTimeEndian)>
    ensures some { IfSome result
        (λ reading. IsEncoding numbers × (reading.0 ≡ encoding_in numbers)
        × (is_big_of reading.1 ≡ is_big_in numbers)) }
    ensures none { IfNone result (IsEncoding numbers → ⊥) }
    ensures size { IfSome result
        (λ reading. IsAddressSize reading.0.address_size) }
{
    if numbers.address_size == 0 || numbers.address_size > 8 {
        return None;
    }
    if numbers.version < 2 || numbers.version > 5 {
        return None;
    }
    let encoding = Encoding {
        address_size: numbers.address_size,
        format: format_of(numbers.offset_size)?,
        version: u16::from(numbers.version),
    };
    Some((encoding, order_of(numbers.big_endian)?))
}
