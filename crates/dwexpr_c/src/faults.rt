//! The codes of faults and of arguments that aren't allowed.

ghost use Rattle.std.specs.Prelude.{◌≡◌};
ghost use Rattle.dwarf_base.specs.Faults.{fault_of};
ghost use Rattle.dwexpr_c.specs.Codes.{code_of_fault, number_of_fault};

use dwarf_base::Error;

/// The code of success.
pub(crate) const OK: u32 = 0;

// The codes of faults.

pub(crate) const UNEXPECTED_EOF: u32 = 1;

pub(crate) const BAD_UNSIGNED_LEB128: u32 = 2;

pub(crate) const BAD_SIGNED_LEB128: u32 = 3;

pub(crate) const UNSUPPORTED_ADDRESS_SIZE: u32 = 4;

pub(crate) const UNSUPPORTED_OFFSET: u32 = 5;

pub(crate) const UNSUPPORTED_REGISTER: u32 = 6;

pub(crate) const INVALID_EXPRESSION: u32 = 7;

pub(crate) const INVALID_PIECE_SIZE: u32 = 8;

pub(crate) const UNSUPPORTED_TYPE_OPERATION: u32 = 9;

pub(crate) const TYPE_MISMATCH: u32 = 10;

pub(crate) const DIVISION_BY_ZERO: u32 = 11;

pub(crate) const INVALID_SHIFT_EXPRESSION: u32 = 12;

pub(crate) const NOT_ENOUGH_STACK_ITEMS: u32 = 13;

pub(crate) const INVALID_DEREF_SIZE: u32 = 14;

pub(crate) const INVALID_PUSH_OBJECT_ADDRESS: u32 = 15;

pub(crate) const UNSUPPORTED_EVALUATION: u32 = 16;

pub(crate) const BAD_BRANCH_TARGET: u32 = 17;

pub(crate) const TOO_MANY_ITERATIONS: u32 = 18;

pub(crate) const INVALID_PIECE: u32 = 19;

pub(crate) const INVALID_EXPRESSION_TERMINATOR: u32 = 20;

pub(crate) const STACK_FULL: u32 = 21;

/// The code for an encoding that isn't allowed.
pub(crate) const BAD_ENCODING: u32 = 64;

/// The code for an offset at which there is no byte.
pub(crate) const BAD_OFFSET: u32 = 65;

/// The code for an index at which there is no text.
pub(crate) const BAD_TEXT: u32 = 66;

/// The code for numbers that stand for no answer.
pub(crate) const BAD_ANSWER: u32 = 67;

/// The code for an answer that isn't allowed: no request of its kind is open.
pub(crate) const MISPLACED: u32 = 68;

/// The code for bytes that are in none of the texts. It is only returned if the caller passes other texts to a held
/// evaluation than before.
pub(crate) const LOST_TEXT: u32 = 69;

/// The code for numbers that stand for no value, no operation on values or no mask; 70 is a code of the driver in C.
pub(crate) const BAD_VALUE: u32 = 71;

/// A fault as callers see it.
#[derive(Clone, Copy)]
pub(crate) struct FaultNumbers {
    pub(crate) code: u32,
    /// The number that the fault carries, or 0.
    pub(crate) number: u64,
}

/// A code that carries no number.
pub(crate) fn code_alone(code: u32) -> FaultNumbers
    ensures { result ≡ record { code = code; number = 0 } }
{
    FaultNumbers { code, number: 0 }
}

fn code_with(code: u32, number: u64) -> FaultNumbers
    ensures { result ≡ record { code = code; number = number } }
{
    FaultNumbers { code, number }
}

/// The code of a fault, and the number that it carries.
pub(crate) fn numbers_of(error: Error) -> FaultNumbers
    ensures code { result.code ≡ code_of_fault error }
    ensures numbers { result
        ≡ record {
          code = code_of_fault (fault_of error);
          number = number_of_fault (fault_of error);
        } }
{
    match error {
        Error::UnexpectedEof(_) => code_alone(UNEXPECTED_EOF),
        Error::BadUnsignedLeb128 => code_alone(BAD_UNSIGNED_LEB128),
        Error::BadSignedLeb128 => code_alone(BAD_SIGNED_LEB128),
        Error::UnsupportedAddressSize(size) => code_with(UNSUPPORTED_ADDRESS_SIZE, u64::from(size)),
        Error::UnsupportedOffset => code_alone(UNSUPPORTED_OFFSET),
        Error::UnsupportedRegister(register) => code_with(UNSUPPORTED_REGISTER, register),
        Error::InvalidExpression(opcode) => code_with(INVALID_EXPRESSION, u64::from(opcode.0)),
        Error::InvalidPieceSize(size) => code_with(INVALID_PIECE_SIZE, size),
        Error::UnsupportedTypeOperation => code_alone(UNSUPPORTED_TYPE_OPERATION),
        Error::TypeMismatch => code_alone(TYPE_MISMATCH),
        Error::DivisionByZero => code_alone(DIVISION_BY_ZERO),
        Error::InvalidShiftExpression => code_alone(INVALID_SHIFT_EXPRESSION),
        Error::NotEnoughStackItems => code_alone(NOT_ENOUGH_STACK_ITEMS),
        Error::InvalidDerefSize(size) => code_with(INVALID_DEREF_SIZE, u64::from(size)),
        Error::InvalidPushObjectAddress => code_alone(INVALID_PUSH_OBJECT_ADDRESS),
        Error::UnsupportedEvaluation => code_alone(UNSUPPORTED_EVALUATION),
        Error::BadBranchTarget(target) => code_with(BAD_BRANCH_TARGET, target),
        Error::TooManyIterations => code_alone(TOO_MANY_ITERATIONS),
        Error::InvalidPiece => code_alone(INVALID_PIECE),
        Error::InvalidExpressionTerminator(place) => code_with(
            INVALID_EXPRESSION_TERMINATOR,
            place,
        ),
        Error::StackFull => code_alone(STACK_FULL),
    }
}
