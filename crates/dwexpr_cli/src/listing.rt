//! The listing of an expression's operations.

ghost use Rattle.dwarf_base.specs.ByteOrder.{is_big_of};
ghost use Rattle.dwarf_meaning.specs.Operands.{context_of};
ghost use Rattle.dwexpr_cli.specs.Endings.{Ending};
ghost use Rattle.dwexpr_cli.specs.inner.Outputs.{WritesEnding};
ghost use Rattle.dwexpr_cli.specs.Listing.{ListsOperations};

use crate::endings::{DONE, FAILED};
use crate::lines::print_fault_at;
use crate::words::DecodingContext;
use crate::writing::{Word, put_numbered_line};
use dwarf_base::{EndianSlice, Reader};
use dwarf_eval::op::Operation;
use std::io;
use std::io::Write;

/// Prints the operations of the bytes, one per line, up to the first fault.
pub(crate) fn print_operations<W: Write>(
    output: &mut W,
    bytes: &[u8],
    context: DecodingContext,
) -> io::Result<u8>
    ensures { (ending : Ending)
        × ListsOperations (context_of context.encoding 64 (is_big_of context.order)) 0 bytes.now ending
        × WritesEnding (W.contents output.old) (W.contents output.new) ending result }
{
    let mut left = EndianSlice::new(bytes, context.order);
    while !left.is_empty() {
        let place = bytes.len() - left.len();
        match Operation::parse(&mut left, context.encoding) {
            Ok(operation) => {
                let end = bytes.len() - left.len();
                let spelling = EndianSlice::new(&bytes[place..end], context.order);
                let words = [Word::Bytes(spelling), Word::Name(operation.name())];
                put_numbered_line(output, place as u64, &words)?;
            }
            Err(error) => {
                print_fault_at(output, place as u64, error)?;
                return Ok(FAILED);
            }
        }
    }
    Ok(DONE)
}
