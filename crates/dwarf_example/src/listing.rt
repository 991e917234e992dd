//! Decoding, without an evaluation.

use dwarf_expr::base::{Encoding, Reader, Result};
use dwarf_expr::op::{Expression, Operation};

/// The name of the first operation, and how many bytes it has. `None` if the expression has no bytes.
pub fn first_operation<R: Reader + Copy>(
    bytes: R,
    encoding: Encoding,
) -> Result<Option<(&'static str, R::Offset)>> {
    let expression = Expression(bytes);
    let mut operations = expression.operations(encoding);
    match operations.next()? {
        Some(operation) => Ok(Some((operation.name(), operations.offset_from(&expression)))),
        None => Ok(None),
    }
}

/// The number of the first operation.
pub fn first_number<R: Reader + Copy>(mut bytes: R, encoding: Encoding) -> Result<u32> {
    Ok(Operation::parse(&mut bytes, encoding)?.number())
}
