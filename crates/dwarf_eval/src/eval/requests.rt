//! The reply of a machine, and the kind of a request.

ghost use Rattle.std.specs.Prelude.{◌≡◌, IfOk, Some};
ghost use Rattle.dwarf_meaning.specs.Kinds.{kind_of_request};
ghost use Rattle.dwarf_eval.specs.inner.StateChanges.{HasReply};
ghost use Rattle.dwarf_eval.specs.Permits.{Admits};
ghost use Rattle.dwarf_eval.specs.Evaluation.{IsReplied, reply_of, request_in};
ghost use Rattle.dwarf_eval.specs.inner.Answers.{IsAtRest, IsEndedBy};
ghost use Rattle.dwarf_eval.specs.inner.Machine.{request_of};

use crate::op::{EvaluationResult, Expression};
use crate::run::machine::Machine;
use crate::run::states::{EvaluationState, EvaluationWaiting};
use crate::store::EvaluationStorage;
use dwarf_base::{Reader, Result, copy_of};
use dwarf_meaning::WaitingKind;

/// The kind of answer that is waited for.
#[inline(always)]
pub(crate) fn kind_of<R: Reader + Copy>(waiting: &EvaluationWaiting<R>) -> WaitingKind
    ensures { result ≡ kind_of_request (request_of R.text R.Offset.number waiting.now) }
{
    match waiting {
        EvaluationWaiting::Memory { .. } => WaitingKind::Memory,
        EvaluationWaiting::Register { .. } => WaitingKind::Register,
        EvaluationWaiting::WasmLocal(_) => WaitingKind::WasmValue,
        EvaluationWaiting::WasmGlobal(_) => WaitingKind::WasmValue,
        EvaluationWaiting::WasmStack(_) => WaitingKind::WasmValue,
        EvaluationWaiting::FrameBase { .. } => WaitingKind::FrameBase,
        EvaluationWaiting::Tls(_) => WaitingKind::Tls,
        EvaluationWaiting::CallFrameCfa => WaitingKind::CallFrameCfa,
        EvaluationWaiting::AtLocation(_) => WaitingKind::AtLocation,
        EvaluationWaiting::EntryValue(_) => WaitingKind::EntryValue,
        EvaluationWaiting::ParameterRef(_) => WaitingKind::ParameterRef,
        EvaluationWaiting::RelocatedAddress(_) => WaitingKind::RelocatedAddress,
        EvaluationWaiting::IndexedAddress { .. } => WaitingKind::IndexedAddress,
        EvaluationWaiting::TypedLiteral { .. } => WaitingKind::BaseType,
        EvaluationWaiting::Convert(_) => WaitingKind::BaseType,
        EvaluationWaiting::Reinterpret(_) => WaitingKind::BaseType,
    }
}

/// The request for what is waited for.
#[inline(always)]
fn request_for<R: Reader + Copy>(waiting: &EvaluationWaiting<R>) -> EvaluationResult<R>
    ensures { request_in R.text R.Offset.number result
        ≡ Some (request_of R.text R.Offset.number waiting.now) }
{
    match waiting {
        EvaluationWaiting::Memory {
            address,
            size,
            space,
            base_type,
        } => EvaluationResult::RequiresMemory {
            address: *address,
            size: *size,
            space: *space,
            base_type: *base_type,
        },
        EvaluationWaiting::Register {
            register,
            base_type,
            ..
        } => EvaluationResult::RequiresRegister {
            register: *register,
            base_type: *base_type,
        },
        EvaluationWaiting::WasmLocal(index) => {
            EvaluationResult::RequiresWasmLocal { index: *index }
        }
        EvaluationWaiting::WasmGlobal(index) => {
            EvaluationResult::RequiresWasmGlobal { index: *index }
        }
        EvaluationWaiting::WasmStack(index) => {
            EvaluationResult::RequiresWasmStack { index: *index }
        }
        EvaluationWaiting::FrameBase { .. } => EvaluationResult::RequiresFrameBase,
        EvaluationWaiting::Tls(index) => EvaluationResult::RequiresTls(*index),
        EvaluationWaiting::CallFrameCfa => EvaluationResult::RequiresCallFrameCfa,
        EvaluationWaiting::AtLocation(entry) => EvaluationResult::RequiresAtLocation(*entry),
        EvaluationWaiting::EntryValue(expression) => {
            EvaluationResult::RequiresEntryValue(Expression(copy_of(expression)))
        }
        EvaluationWaiting::ParameterRef(parameter) => {
            EvaluationResult::RequiresParameterRef(*parameter)
        }
        EvaluationWaiting::RelocatedAddress(address) => {
            EvaluationResult::RequiresRelocatedAddress(*address)
        }
        EvaluationWaiting::IndexedAddress { index, relocate } => {
            EvaluationResult::RequiresIndexedAddress {
                index: *index,
                relocate: *relocate,
            }
        }
        EvaluationWaiting::TypedLiteral { base_type, .. }
        | EvaluationWaiting::Convert(base_type)
        | EvaluationWaiting::Reinterpret(base_type) => {
            EvaluationResult::RequiresBaseType(*base_type)
        }
    }
}

/// The reply of a machine that doesn't run.
#[inline(always)]
pub(crate) fn reply<R: Reader + Copy, S: EvaluationStorage<R>>(
    machine: &Machine<R, S>,
) -> Result<EvaluationResult<R>>
    requires { HasReply machine.now.status }
    ensures reply { IsReplied (reply_of R.text R.Offset.number result)
        machine.now.status }
    ensures ends { IsEndedBy result machine.now.status }
    ensures rests { IsAtRest machine.now }
    ensures admits { IfOk result (λ replied. Admits replied machine.now.status) }
{
    match machine.state() {
        EvaluationState::Waiting(waiting) => Ok(request_for(waiting)),
        EvaluationState::Failed(error) => Err(*error),
        _ => Ok(EvaluationResult::Complete),
    }
}
