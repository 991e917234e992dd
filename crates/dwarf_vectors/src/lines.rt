//! What an evaluation gives, in the lines of `dwexpr`.

use crate::words::{Bytes, detail_of, name_in};
use dwarf_base::Error;
use dwarf_eval::eval::{Evaluation, Status};
use dwarf_eval::op::{DieReference, EvaluationResult, Location, Piece};
use dwarf_eval::store::EvaluationStorage;
use dwarf_replay::Answer;
use dwarf_value::Value;
use std::alloc::{AllocError, Global};

fn fault_line(alloc: Global, error: Error) -> Result<String, AllocError> {
    let shown = format!(in alloc; "{error:?}")?;
    let name = name_in(shown.as_str());
    match detail_of(error) {
        0 => format!(in alloc; "fault {name}"),
        detail => format!(in alloc; "fault {name} {detail}"),
    }
}

/// The line of a reply.
pub(crate) fn reply_line(alloc: Global, reply: Answer<Bytes<'_>>) -> Result<String, AllocError> {
    match reply.0 {
        Err(error) => fault_line(alloc, error),
        Ok(EvaluationResult::Complete) => String::from_str(alloc, "complete"),
        Ok(
            EvaluationResult::RequiresMemory {
                address,
                size,
                space: None,
                base_type,
            },
        ) => format!(in alloc; "memory {address:#x} {size} none {}", base_type.0),
        Ok(
            EvaluationResult::RequiresRegister {
                register,
                base_type,
            },
        ) => format!(in alloc; "register {} {}", register.0, base_type.0),
        Ok(EvaluationResult::RequiresWasmGlobal { index }) => {
            format!(in alloc; "wasm-global {index}")
        }
        Ok(EvaluationResult::RequiresFrameBase) => String::from_str(alloc, "frame-base"),
        Ok(EvaluationResult::RequiresTls(index)) => format!(in alloc; "tls {index:#x}"),
        Ok(EvaluationResult::RequiresCallFrameCfa) => String::from_str(alloc, "cfa"),
        Ok(EvaluationResult::RequiresAtLocation(DieReference::UnitRef(offset))) => {
            format!(in alloc; "location unit {}", offset.0)
        }
        Ok(EvaluationResult::RequiresParameterRef(offset)) => {
            format!(in alloc; "parameter {}", offset.0)
        }
        Ok(EvaluationResult::RequiresRelocatedAddress(address)) => {
            format!(in alloc; "relocated {address:#x}")
        }
        Ok(
            EvaluationResult::RequiresIndexedAddress {
                index,
                relocate: true,
            },
        ) => format!(in alloc; "indexed {} relocate", index.0),
        Ok(EvaluationResult::RequiresBaseType(offset)) => format!(in alloc; "type {}", offset.0),
        // No vector has another request.
        Ok(request) => format!(in alloc; "{request:?}"),
    }
}

fn piece_line(alloc: Global, piece: Piece<Bytes<'_>>) -> Result<String, AllocError> {
    match piece {
        Piece {
            size_in_bits: None,
            bit_offset: None,
            location: Location::Address { address },
        } => format!(in alloc; "piece none none address {address:#x}"),
        Piece {
            size_in_bits: Some(size),
            bit_offset: None,
            location: Location::Address { address },
        } => format!(in alloc; "piece {size} none address {address:#x}"),
        Piece {
            size_in_bits: Some(size),
            bit_offset: None,
            location: Location::Register { register },
        } => format!(in alloc; "piece {size} none register {}", register.0),
        piece => format!(in alloc; "{piece:?}"),
    }
}

fn value_line(alloc: Global, value: Option<Value>) -> Result<String, AllocError> {
    match value {
        None => String::from_str(alloc, "value none"),
        Some(Value::Generic(content)) => format!(in alloc; "value generic:{content:#x}"),
        Some(Value::U16(number)) => format!(in alloc; "value u16:{number}"),
        Some(value) => format!(in alloc; "{value:?}"),
    }
}

/// Adds a line, whose end is spelled as in JSON.
pub(crate) fn push_line(said: &mut String, line: &str) -> Result<(), AllocError> {
    said.push_str(line)?;
    said.push_str("\\n")
}

/// Adds the lines of the pieces and of the value, if the evaluation is complete.
pub(crate) fn push_results<'a, S: EvaluationStorage<Bytes<'a>>>(
    said: &mut String,
    alloc: Global,
    evaluation: &Evaluation<Bytes<'a>, S>,
) -> Result<(), AllocError> {
    if matches!(evaluation.status(), Status::Complete) {
        for piece in evaluation.as_result() {
            push_line(said, piece_line(alloc, *piece)?.as_str())?;
        }
        push_line(said, value_line(alloc, evaluation.value_result())?.as_str())?;
    }
    Ok(())
}
