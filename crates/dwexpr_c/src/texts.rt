//! A caller's texts, and where in them a block is.

ghost use Rattle.std.specs.Prelude.{ℕ, ◌≡◌, ◌<◌, IfSome, IfNone, option_map, true, false};
ghost use Rattle.dwarf_base.specs.ByteOrder.{is_big_of};
ghost use Rattle.dwexpr_c.specs.CallerTexts.{IsAt, IsGiven, IsNowhere, IsPlaced, text_at, text_of_placed};

use crate::places::Placed;
use dwarf_base::RunTimeEndian;

/// The bytes of an expression.
#[repr(C)]
#[derive(Clone, Copy)]
pub struct DwexprText<'a> {
    /// A pointer and a length.
    pub bytes: &'a [u8],
}

/// Where bytes are in the texts of a caller.
#[derive(Clone, Copy)]
pub(crate) struct Place {
    /// The index of the text.
    pub(crate) text: usize,
    /// Where in it they begin.
    pub(crate) offset: usize,
}

/// The bytes of a text. A caller in C may give a null pointer if there are none, which a slice never has.
fn bytes_of<'a>(text: &DwexprText<'a>) -> &'a [u8]
    ensures { result.now ≡ text.now.bytes.now }
{
    if text.bytes.is_empty() {
        &[]
    } else {
        text.bytes
    }
}

/// The text at an index, if there is one.
pub(crate) fn text_at<'a>(
    texts: &[DwexprText<'a>],
    order: RunTimeEndian,
    index: usize,
) -> Option<Placed<'a>>
    ensures text { option_map text_of_placed result ≡ text_at (is_big_of order) texts.now index }
    ensures order { IfSome result (λ placed. (text_of_placed placed).is_big ≡ is_big_of order) }
    ensures given { IfSome result (λ placed. IsGiven texts.now (text_of_placed placed).bytes) }
{
    let text = texts.get(index)?;
    Some(Placed::new(bytes_of(text), order, index))
}

/// Whether the text has the block at this place.
fn is_there(text: &[u8], place: usize, block: &[u8]) -> bool
    ensures yes { result ≡ true → IsAt text.now place block.now }
    ensures no { result ≡ false → IsAt text.now place block.now → ⊥ }
{
    place <= text.len() && text[place..].starts_with(block)
}

/// Where the bytes should be, if they are there.
fn expected_place(texts: &[DwexprText<'_>], block: Placed<'_>) -> Option<Place>
    ensures { IfSome result
        (λ place. IsPlaced texts.now place.text place.offset (text_of_placed block.entry).bytes) }
{
    let (text, offset) = (block.text_index(), block.place());
    if is_there(bytes_of(texts.get(text)?), offset, block.bytes()) {
        Some(Place { text, offset })
    } else {
        None
    }
}

/// The first place at which the text has the block.
fn find_in(text: &[u8], block: &[u8]) -> Option<usize>
    ensures some { IfSome result (λ place. IsAt text.now place block.now) }
    ensures first { IfSome result
        (λ place. (before : ℕ) → before < place → IsAt text.now before block.now → ⊥) }
    ensures none { IfNone result ((place : ℕ) → IsAt text.now place block.now → ⊥) }
{
    for place in 0..text.len() {
        if is_there(text, place, block) {
            return Some(place);
        }
    }
    if is_there(text, text.len(), block) {
        return Some(text.len());
    }
    None
}

/// The first place at which the text with this index has the block.
fn find_at(texts: &[DwexprText<'_>], text: usize, block: &[u8]) -> Option<Place>
    ensures some { IfSome result
        (λ place. (place.text ≡ text) × IsPlaced texts.now text place.offset block.now) }
    ensures first { IfSome result
        (λ place. (before : ℕ) → before < place.offset → IsPlaced texts.now text before block.now → ⊥) }
    ensures none { IfNone result
        ((offset : ℕ) → IsPlaced texts.now text offset block.now → ⊥) }
{
    let offset = find_in(bytes_of(texts.get(text)?), block)?;
    Some(Place { text, offset })
}

/// The first place at which one of the texts has the block.
fn find(texts: &[DwexprText<'_>], block: &[u8]) -> Option<Place>
    ensures some { IfSome result
        (λ place. IsPlaced texts.now place.text place.offset block.now) }
    ensures first_text { IfSome result
        (λ place. (text : ℕ) → text < place.text → (offset : ℕ)
        → IsPlaced texts.now text offset block.now → ⊥) }
    ensures first_offset { IfSome result
        (λ place. (offset : ℕ) → offset < place.offset
        → IsPlaced texts.now place.text offset block.now → ⊥) }
    ensures none { IfNone result (IsNowhere texts.now block.now) }
{
    for text in 0..texts.len() {
        if let Some(place) = find_at(texts, text, block) {
            return Some(place);
        }
    }
    None
}

/// The place of the block. It is the one that the reader names, if the bytes are there, which no contract promises;
/// else it is the first place that has them.
#[inline(never)]
pub(crate) fn place_of(texts: &[DwexprText<'_>], block: Placed<'_>) -> Option<Place>
    ensures some { IfSome result
        (λ place. IsPlaced texts.now place.text place.offset (text_of_placed block.entry).bytes) }
    ensures none { IfNone result (IsNowhere texts.now (text_of_placed block.entry).bytes) }
{
    match expected_place(texts, block) {
        Some(place) => Some(place),
        None => find(texts, block.bytes()),
    }
}
