//! Replies, pieces, values and faults as lines.

ghost use Rattle.std.specs.Option.{option_map_or};
ghost use Rattle.std.specs.Prelude.{◌≡◌, [], ◌∷◌, decimal, codes, if◌then◌else◌};
ghost use Rattle.dwarf_base.specs.EndianSlice.{slice_text};
ghost use Rattle.dwarf_base.specs.Faults.{fault_of};
ghost use Rattle.dwarf_eval.specs.Evaluation.{reply_of, ok_reply};
ghost use Rattle.dwarf_meaning.specs.Requests.{RequiresAtLocation};
ghost use Rattle.dwarf_op.specs.Views.{piece_of, reference_of};
ghost use Rattle.dwexpr_cli.specs.Lines.{fault_line, fault_words, piece_line, reply_line, request_line, value_line};
ghost use Rattle.dwexpr_cli.specs.Writing.{hexadecimal, line};
ghost use Rattle.dwexpr_cli.specs.inner.Outputs.{Prints, word_text};

use crate::writing::{Bytes, Word, put_line, put_numbered_line};
use dwarf_base::{Error, ReaderOffset};
use dwarf_eval::op::{DieReference, EvaluationResult, Location, Piece};
use dwarf_replay::Answer;
use dwarf_value::Value;
use std::io;
use std::io::Write;

/// The name of a fault, and its number if it carries one.
fn words_of(error: Error) -> (&'static str, Option<u64>)
    ensures { fault_words (fault_of error)
        ≡ result.0.now ∷ option_map_or (λ number. decimal number ∷ []) result.1 [] }
{
    match error {
        Error::UnexpectedEof(_) => ("UnexpectedEof", None),
        Error::BadUnsignedLeb128 => ("BadUnsignedLeb128", None),
        Error::BadSignedLeb128 => ("BadSignedLeb128", None),
        Error::UnsupportedAddressSize(size) => ("UnsupportedAddressSize", Some(u64::from(size))),
        Error::UnsupportedOffset => ("UnsupportedOffset", None),
        Error::UnsupportedRegister(register) => ("UnsupportedRegister", Some(register)),
        Error::InvalidExpression(opcode) => ("InvalidExpression", Some(u64::from(opcode.0))),
        Error::InvalidPieceSize(size) => ("InvalidPieceSize", Some(size)),
        Error::UnsupportedTypeOperation => ("UnsupportedTypeOperation", None),
        Error::TypeMismatch => ("TypeMismatch", None),
        Error::DivisionByZero => ("DivisionByZero", None),
        Error::InvalidShiftExpression => ("InvalidShiftExpression", None),
        Error::NotEnoughStackItems => ("NotEnoughStackItems", None),
        Error::InvalidDerefSize(size) => ("InvalidDerefSize", Some(u64::from(size))),
        Error::InvalidPushObjectAddress => ("InvalidPushObjectAddress", None),
        Error::UnsupportedEvaluation => ("UnsupportedEvaluation", None),
        Error::BadBranchTarget(target) => ("BadBranchTarget", Some(target)),
        Error::TooManyIterations => ("TooManyIterations", None),
        Error::InvalidPiece => ("InvalidPiece", None),
        Error::InvalidExpressionTerminator(place) => ("InvalidExpressionTerminator", Some(place)),
        Error::StackFull => ("StackFull", None),
    }
}

/// Prints the line of a fault.
pub(crate) fn print_fault<W: Write>(output: &mut W, error: Error) -> io::Result<()>
    ensures { Prints (W.contents output.old) (W.contents output.new) (fault_line (fault_of error))
        result }
{
    match words_of(error) {
        (name, Some(number)) => put_line(
            output,
            "fault",
            &[Word::Name(name), Word::Number(number)],
        ),
        (name, None) => put_line(output, "fault", &[Word::Name(name)]),
    }
}

/// Prints the line of a fault at a place.
pub(crate) fn print_fault_at<W: Write>(output: &mut W, place: u64, error: Error) -> io::Result<()>
    ensures { Prints (W.contents output.old) (W.contents output.new)
        (line (decimal place) (codes "fault" ∷ fault_words (fault_of error))) result }
{
    let first = Word::Name("fault");
    match words_of(error) {
        (name, Some(number)) => put_numbered_line(
            output,
            place,
            &[first, Word::Name(name), Word::Number(number)],
        ),
        (name, None) => put_numbered_line(output, place, &[first, Word::Name(name)]),
    }
}

/// A number, or `none`.
fn number_word(number: Option<u64>) -> Word<'static>
    ensures { word_text result ≡ option_map_or decimal number (codes "none") }
{
    match number {
        Some(number) => Word::Number(number),
        None => Word::Name("none"),
    }
}

/// An address space, or `none`.
fn space_word(space: Option<u64>) -> Word<'static>
    ensures { word_text result ≡ option_map_or hexadecimal space (codes "none") }
{
    match space {
        Some(space) => Word::Hexadecimal(space),
        None => Word::Name("none"),
    }
}

/// Whether the address has to be relocated.
fn relocate_word(relocate: bool) -> Word<'static>
    ensures { word_text result ≡ (if relocate then codes "relocate" else codes "keep") }
{
    if relocate {
        Word::Name("relocate")
    } else {
        Word::Name("keep")
    }
}

/// Prints the line of a request for the expression of an entry.
fn print_reference<W: Write>(output: &mut W, reference: DieReference<usize>) -> io::Result<()>
    ensures { Prints (W.contents output.old) (W.contents output.new)
        (request_line (RequiresAtLocation (reference_of (λ x. x) reference))) result }
{
    match reference {
        DieReference::UnitRef(offset) => {
            let number = Word::Number(offset.0.into_u64());
            put_line(output, "location", &[Word::Name("unit"), number])
        }
        DieReference::DebugInfoRef(offset) => {
            let number = Word::Number(offset.0.into_u64());
            put_line(output, "location", &[Word::Name("info"), number])
        }
    }
}

/// Prints the line of a result of the evaluation.
fn print_result<W: Write>(output: &mut W, reply: EvaluationResult<Bytes<'_>>) -> io::Result<()>
    ensures { Prints (W.contents output.old) (W.contents output.new)
        (reply_line (ok_reply slice_text (λ x. x) reply.entry)) result }
{
    match reply {
        EvaluationResult::Complete => put_line(output, "complete", &[]),
        EvaluationResult::RequiresMemory {
            address,
            size,
            space,
            base_type,
        } => {
            let place = Word::Hexadecimal(address);
            let count = Word::Number(u64::from(size));
            let base = Word::Number(base_type.0.into_u64());
            put_line(output, "memory", &[place, count, space_word(space), base])
        }
        EvaluationResult::RequiresRegister {
            register,
            base_type,
        } => {
            let number = Word::Number(u64::from(register.0));
            let base = Word::Number(base_type.0.into_u64());
            put_line(output, "register", &[number, base])
        }
        EvaluationResult::RequiresWasmLocal { index } => {
            put_line(output, "wasm-local", &[Word::Number(u64::from(index))])
        }
        EvaluationResult::RequiresWasmGlobal { index } => {
            put_line(output, "wasm-global", &[Word::Number(u64::from(index))])
        }
        EvaluationResult::RequiresWasmStack { index } => {
            put_line(output, "wasm-stack", &[Word::Number(u64::from(index))])
        }
        EvaluationResult::RequiresFrameBase => put_line(output, "frame-base", &[]),
        EvaluationResult::RequiresTls(index) => {
            put_line(output, "tls", &[Word::Hexadecimal(index)])
        }
        EvaluationResult::RequiresCallFrameCfa => put_line(output, "cfa", &[]),
        EvaluationResult::RequiresAtLocation(reference) => print_reference(output, reference),
        EvaluationResult::RequiresEntryValue(expression) => {
            put_line(output, "entry", &[Word::Bytes(expression.0)])
        }
        EvaluationResult::RequiresParameterRef(offset) => {
            put_line(output, "parameter", &[Word::Number(offset.0.into_u64())])
        }
        EvaluationResult::RequiresRelocatedAddress(address) => {
            put_line(output, "relocated", &[Word::Hexadecimal(address)])
        }
        EvaluationResult::RequiresIndexedAddress { index, relocate } => {
            let number = Word::Number(index.0.into_u64());
            put_line(output, "indexed", &[number, relocate_word(relocate)])
        }
        EvaluationResult::RequiresBaseType(offset) => {
            put_line(output, "type", &[Word::Number(offset.0.into_u64())])
        }
    }
}

/// Prints the line of the result of one call of the evaluation.
pub(crate) fn print_reply<W: Write>(output: &mut W, answer: Answer<Bytes<'_>>) -> io::Result<()>
    ensures { Prints (W.contents output.old) (W.contents output.new)
        (reply_line (reply_of slice_text (λ x. x) answer.entry.0)) result }
{
    match answer.0 {
        Ok(result) => print_result(output, result),
        Err(error) => print_fault(output, error),
    }
}

/// Prints the line of a piece.
pub(crate) fn print_piece<W: Write>(output: &mut W, piece: Piece<Bytes<'_>>) -> io::Result<()>
    ensures { Prints (W.contents output.old) (W.contents output.new)
        (piece_line (piece_of slice_text (λ x. x) piece.entry)) result }
{
    let size = number_word(piece.size_in_bits);
    let offset = number_word(piece.bit_offset);
    match piece.location {
        Location::Empty => put_line(output, "piece", &[size, offset, Word::Name("empty")]),
        Location::Register { register } => {
            let number = Word::Number(u64::from(register.0));
            put_line(
                output,
                "piece",
                &[size, offset, Word::Name("register"), number],
            )
        }
        Location::Address { address } => {
            let number = Word::Hexadecimal(address);
            put_line(
                output,
                "piece",
                &[size, offset, Word::Name("address"), number],
            )
        }
        Location::Value { value } => {
            let content = Word::Value(value);
            put_line(
                output,
                "piece",
                &[size, offset, Word::Name("value"), content],
            )
        }
        Location::Bytes { value } => {
            let block = Word::Bytes(value);
            put_line(output, "piece", &[size, offset, Word::Name("bytes"), block])
        }
        Location::ImplicitPointer { value, byte_offset } => {
            let object = Word::Number(value.0.into_u64());
            let into = Word::Integer(byte_offset);
            put_line(
                output,
                "piece",
                &[size, offset, Word::Name("pointer"), object, into],
            )
        }
    }
}

/// Prints the line of the value of a complete evaluation.
pub(crate) fn print_value_line<W: Write>(output: &mut W, value: Option<Value>) -> io::Result<()>
    ensures { Prints (W.contents output.old) (W.contents output.new) (value_line value) result }
{
    match value {
        Some(value) => put_line(output, "value", &[Word::Value(value)]),
        None => put_line(output, "value", &[Word::Name("none")]),
    }
}
