//! Pieces as numbers.

ghost use Rattle.std.specs.Prelude.{◌≡◌, ◌<◌, is_some, true, false, map, option_map, slice_get, unwrap_or};
ghost use Rattle.dwarf_meaning.specs.Locations.{HoldsBytes};
ghost use Rattle.dwarf_op.specs.Views.{piece_of};
ghost use Rattle.dwexpr_c.specs.Outcomes.{AreWritten, ShowsLocation, ShowsPiece, piece_of_kind};
ghost use Rattle.dwexpr_c.specs.CallerTexts.{text_of_placed, HoldsNowhere, IsNowhere, SomeNowhere};

use crate::places::Placed;
use crate::texts::{DwexprText, place_of};
use crate::values::numbers_of_value;
use crate::{piece_kinds, types};
use dwarf_base::Reader;
use dwarf_op::{Location, Piece};
use dwarf_value::Value;

/// A piece of a variable. Fields that its kind doesn't name are 0.
#[repr(C)]
#[derive(Clone, Copy)]
pub struct DwexprPiece {
    /// Where it is, or what it contains.
    pub kind: u32,
    /// 1 if it has a size; 0 if it is the whole variable.
    pub has_size: u32,
    /// Its size in bits.
    pub size_in_bits: u64,
    /// The offset of its first bit in its location.
    pub bit_offset: u64,
    /// 1 if the bit offset is given.
    pub has_bit_offset: u32,
    /// The type of its value.
    pub value_type: u32,
    /// A register, an address, a value or an offset of an entry.
    pub number: u64,
    /// The offset into the object to which it points, in bytes.
    pub byte_offset: i64,
    /// The index of the text in which its bytes are.
    pub block_text: usize,
    /// The offset in that text at which they begin.
    pub block_offset: usize,
    /// The number of its bytes.
    pub block_length: usize,
}

fn piece_of_kind(kind: u32, size_in_bits: Option<u64>, bit_offset: Option<u64>) -> DwexprPiece
    ensures { result ≡ piece_of_kind kind size_in_bits bit_offset }
{
    DwexprPiece {
        kind,
        has_size: u32::from(size_in_bits.is_some()),
        size_in_bits: size_in_bits.unwrap_or(0),
        bit_offset: bit_offset.unwrap_or(0),
        has_bit_offset: u32::from(bit_offset.is_some()),
        value_type: types::NO_TYPE,
        number: 0,
        byte_offset: 0,
        block_text: 0,
        block_offset: 0,
        block_length: 0,
    }
}

/// Writes a piece with bytes; `false` if they are nowhere in the texts.
fn show_bytes(
    texts: &[DwexprText<'_>],
    bytes: &Placed<'_>,
    piece: &Piece<Placed<'_>>,
    shown: &mut DwexprPiece,
) -> bool
    ensures some { result ≡ true
        → ShowsLocation texts.now piece.now.size_in_bits piece.now.bit_offset
        (HoldsBytes (text_of_placed bytes.now)) shown.new }
    ensures none { result ≡ false
        → IsNowhere texts.now (text_of_placed bytes.now).bytes }
{
    let Some(place) = place_of(texts, *bytes) else {
        return false;
    };
    *shown = DwexprPiece {
        block_text: place.text,
        block_offset: place.offset,
        block_length: bytes.len(),
        ..piece_of_kind(
            piece_kinds::HOLDS_BYTES,
            piece.size_in_bits,
            piece.bit_offset,
        )
    };
    true
}

/// Writes a piece; `false` if it has bytes that are nowhere in the texts.
#[inline(always)]
fn show_piece(texts: &[DwexprText<'_>], piece: &Piece<Placed<'_>>, shown: &mut DwexprPiece) -> bool
    ensures some { result ≡ true
        → ShowsPiece texts.now (piece_of text_of_placed (λ x. x) piece.now) shown.new }
    ensures none { result ≡ false
        → HoldsNowhere texts.now (piece_of text_of_placed (λ x. x) piece.now).location }
{
    let (size, offset) = (piece.size_in_bits, piece.bit_offset);
    match &piece.location {
        Location::Empty => *shown = piece_of_kind(piece_kinds::EMPTY, size, offset),
        Location::Register { register } => *shown = DwexprPiece {
            number: u64::from(register.0),
            ..piece_of_kind(piece_kinds::IN_REGISTER, size, offset)
        },
        Location::Address { address } => *shown = DwexprPiece {
            number: *address,
            ..piece_of_kind(piece_kinds::AT_ADDRESS, size, offset)
        },
        Location::Value { value } => {
            let numbers = numbers_of_value(*value);
            *shown = DwexprPiece {
                value_type: numbers.value_type,
                number: numbers.content,
                ..piece_of_kind(piece_kinds::HOLDS_VALUE, size, offset)
            };
        }
        Location::Bytes { value } => return show_bytes(texts, value, piece, shown),
        Location::ImplicitPointer { value, byte_offset } => *shown = DwexprPiece {
            number: value.0 as u64,
            byte_offset: *byte_offset,
            ..piece_of_kind(piece_kinds::POINTS_INTO, size, offset)
        },
    }
    true
}

/// The piece at an index, if there is one.
fn piece_at<'a, 'b>(pieces: &'b [Piece<Placed<'a>>], index: usize) -> Option<&'b Piece<Placed<'a>>>
    ensures { option_map (λ piece. piece.now) result ≡ slice_get pieces.now index }
{
    pieces.get(index)
}

/// Writes as many pieces as there is room for; `false` if one of these has bytes that are nowhere in the texts.
#[inline(always)]
pub(crate) fn write_pieces(
    texts: &[DwexprText<'_>],
    pieces: &[Piece<Placed<'_>>],
    places: &mut [DwexprPiece],
) -> bool
    ensures written { result ≡ true
        → AreWritten texts.now (map (piece_of text_of_placed (λ x. x)) pieces.now) places.old
        places.new }
    ensures unplaced { result ≡ false
        → SomeNowhere texts.now (map (piece_of text_of_placed (λ x. x)) pieces.now) }
{
    for index in 0..places.len() {
        let Some(piece) = piece_at(pieces, index) else {
            return true;
        };
        if !show_piece(texts, piece, &mut places[index]) {
            return false;
        }
    }
    true
}
