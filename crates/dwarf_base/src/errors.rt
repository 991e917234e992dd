use crate::common::ReaderOffsetId;
use crate::constants::DwOp;

/// Why a read, an operation on values or an evaluation failed.
#[derive(Clone, Copy, Debug, PartialEq, Eq)]
pub enum Error {
    /// A read goes past the end. The reader chooses the identifier.
    UnexpectedEof(ReaderOffsetId),
    /// The tenth byte of an unsigned LEB128 number is neither `00` nor `01`, or an index of 32 bits is too large.
    /// Padding is no fault: nine bytes `80` and a `00` are zero.
    BadUnsignedLeb128,
    /// The tenth byte of a signed LEB128 number is neither `00` nor `7f`.
    BadSignedLeb128,
    /// The size of an address isn't 1, 2, 4 or 8 bytes.
    UnsupportedAddressSize(u8),
    /// A number doesn't fit the reader's offsets.
    UnsupportedOffset,
    /// A register's number is above 65535.
    UnsupportedRegister(u64),
    /// An opcode is unknown, or the kind that follows the opcode `DW_OP_WASM_location`.
    InvalidExpression(DwOp),
    /// The size of a `DW_OP_piece`, given here in bytes, doesn't fit in 64 bits once it is converted to bits.
    InvalidPieceSize(u64),
    /// The operation isn't defined for the value's type.
    UnsupportedTypeOperation,
    /// Two values have different types, or a value is reinterpreted as a type of another size.
    TypeMismatch,
    /// The divisor is zero.
    DivisionByZero,
    /// The length of a shift is negative.
    InvalidShiftExpression,
    /// An operation takes more values than the stack holds.
    NotEnoughStackItems,
    /// A dereference reads this many bytes, more than an address has.
    InvalidDerefSize(u8),
    /// `DW_OP_push_object_address` is evaluated and no object address is set.
    InvalidPushObjectAddress,
    /// The operation is decoded, and can't be evaluated.
    UnsupportedEvaluation,
    /// A branch leads to this place, past the end of its expression.
    BadBranchTarget(u64),
    /// The maximum number of operations is reached.
    TooManyIterations,
    /// An expression has pieces, and also a value or a location that belongs to no piece.
    InvalidPiece,
    /// An operation other than a piece follows a location; its last byte is at this place.
    InvalidExpressionTerminator(u64),
    /// One of the lists of the evaluation couldn't take one more item.
    StackFull,
}

/// The result of a call that may fail.
pub type Result<T> = std::result::Result<T, Error>;
