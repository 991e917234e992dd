//! The call that decodes an operation.

ghost use Rattle.std.specs.Prelude.{◌≡◌, ◌<◌, ◌≤◌, length, drop, slice_index};
ghost use Rattle.dwarf_base.specs.ByteOrder.{is_big_of};
ghost use Rattle.dwarf_meaning.specs.Decoding.{operation_at};
ghost use Rattle.dwexpr_c.specs.CodedOperations.{Decodes, IsBlockAt, undecoded_operation};
ghost use Rattle.dwexpr_c.specs.Encodings.{IsEncoding, encoding_in, is_big_in};
ghost use Rattle.dwexpr_c.specs.declared.faults.TheConstants as codes;

use crate::encodings::{DwexprEncoding, reading_of};
use crate::faults::{BAD_ENCODING, BAD_OFFSET, numbers_of};
use crate::operations::{DwexprOperation, disallow, show, show_fault};
use dwarf_base::{Encoding, EndianSlice, Reader, RunTimeEndian};
use dwarf_op::Operation;

/// Shows the operation at an offset that has a byte.
fn decode_at(
    bytes: &[u8],
    encoding: Encoding,
    order: RunTimeEndian,
    offset: usize,
    shown: &mut DwexprOperation,
)
    requires { offset < length bytes.now }
    ensures { Decodes offset (slice_index bytes.now offset) (length (drop offset bytes.now))
        (operation_at encoding 64
        (record { bytes = drop offset bytes.now; is_big = is_big_of order })) shown.new }
{
    let opcode = bytes[offset];
    let front = EndianSlice::new(&bytes[offset..], order);
    let mut rest = front;
    match Operation::parse(&mut rest, encoding) {
        Ok(operation) => show(operation, offset, opcode, rest.offset_from(&front), shown),
        Err(error) => *shown = show_fault(offset, opcode, numbers_of(error)),
    }
}

/// Decodes the operation that begins at an offset of the bytes (DWARF 5, sections 2.5 and 7.7.1).
///
/// It returns 0 or a code. A fault of the bytes has a code from 1 to 21. The code is 64 if the encoding isn't allowed;
/// else 65 if there is no byte at the offset. `operation` is always written; its `fault` is the code.
#[tactic(auto, using(crate::proofs::DecodedBlocks::block_shown))]
#[unsafe(no_mangle)]
pub extern "C" fn dwexpr_decode(
    bytes: &[u8],
    encoding: DwexprEncoding,
    offset: usize,
    operation: &mut DwexprOperation,
) -> u32
    ensures code { result ≡ operation.new.fault }
    ensures encoding { (IsEncoding encoding → ⊥)
        → operation.new ≡ undecoded_operation offset codes.BAD_ENCODING }
    ensures offset { IsEncoding encoding → length bytes.now ≤ offset
        → operation.new ≡ undecoded_operation offset codes.BAD_OFFSET }
    ensures decodes { IsEncoding encoding → offset < length bytes.now
        → Decodes offset (slice_index bytes.now offset) (length (drop offset bytes.now))
        (operation_at (encoding_in encoding) 64
        (record { bytes = drop offset bytes.now; is_big = is_big_in encoding })) operation.new }
    ensures block { IsEncoding encoding → offset < length bytes.now
        → IsBlockAt bytes.now operation.new
        (operation_at (encoding_in encoding) 64
        (record { bytes = drop offset bytes.now; is_big = is_big_in encoding })) }
{
    match reading_of(encoding) {
        None => *operation = disallow(offset, BAD_ENCODING),
        Some(_) if offset >= bytes.len() => *operation = disallow(offset, BAD_OFFSET),
        Some((encoding, order)) => decode_at(bytes, encoding, order, offset, operation),
    }
    operation.fault
}
