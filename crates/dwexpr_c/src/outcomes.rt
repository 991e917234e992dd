//! An outcome as numbers.

ghost use Rattle.std.specs.Prelude.{◌≡◌, true, false};
ghost use Rattle.dwarf_eval.specs.Evaluation.{ok_reply};
ghost use Rattle.dwexpr_c.specs.Outcomes.{ShowsReply, request_outcome, complete_outcome, ended_outcome};
ghost use Rattle.dwexpr_c.specs.declared.requests.TheConstants as requests;
ghost use Rattle.dwexpr_c.specs.CallerTexts.{text_of_placed, AsksNowhere};

use crate::faults::{FaultNumbers, OK};
use crate::places::Placed;
use crate::texts::{DwexprText, place_of};
use crate::values::{DwexprValue, NO_VALUE, numbers_of_value};
use crate::{requests, types};
use dwarf_base::Reader;
use dwarf_eval::op::EvaluationResult;
use dwarf_op::DieReference;
use dwarf_value::Value;

/// The outcome of an evaluation. Fields that its request doesn't name are 0.
#[repr(C)]
#[derive(Clone, Copy)]
pub struct DwexprOutcome {
    /// The code that the call returns.
    pub code: u32,
    /// The request's kind, or the kind for completion; 0 if nothing was evaluated, or if the code isn't 0.
    pub request: u32,
    /// The number that a fault carries.
    pub detail: u64,
    /// An address, an index or an offset of an entry.
    pub number: u64,
    /// The type that the answer should have, as its offset in the unit; 0 for the generic type.
    pub base_type: u64,
    /// The address space.
    pub space: u64,
    /// The register.
    pub register_number: u32,
    /// How many bytes are read from memory.
    pub size: u32,
    /// 1 if there is an address space, an entry is given by its offset in `.debug_info`, or an address has to be
    /// relocated.
    pub flag: u32,
    /// The type of the value of a complete evaluation; 0 if it has none.
    pub value_type: u32,
    /// The value of a complete evaluation.
    pub value: u64,
    /// The index of the text in which the block is.
    pub block_text: usize,
    /// The offset in that text at which the block begins.
    pub block_offset: usize,
    /// The number of bytes in the block.
    pub block_length: usize,
    /// The number of pieces of a complete evaluation.
    pub pieces: usize,
}

pub(crate) const BLANK: DwexprOutcome = DwexprOutcome {
    code: OK,
    request: requests::NOTHING,
    detail: 0,
    number: 0,
    base_type: 0,
    space: 0,
    register_number: 0,
    size: 0,
    flag: 0,
    value_type: types::NO_TYPE,
    value: 0,
    block_text: 0,
    block_offset: 0,
    block_length: 0,
    pieces: 0,
};

/// Shows a fault, or an argument that isn't allowed.
pub(crate) fn show_end(fault: FaultNumbers) -> DwexprOutcome
    ensures { result ≡ ended_outcome fault.code fault.number }
{
    DwexprOutcome {
        code: fault.code,
        detail: fault.number,
        ..BLANK
    }
}

fn request_outcome(request: u32, number: u64) -> DwexprOutcome
    ensures { result ≡ request_outcome request number }
{
    DwexprOutcome {
        request,
        number,
        ..BLANK
    }
}

/// A request for memory.
fn memory_outcome(address: u64, size: u8, base_type: usize) -> DwexprOutcome
    ensures { result ≡ record (request_outcome requests.WANTS_MEMORY address) { size = size; base_type = base_type } }
{
    DwexprOutcome {
        size: u32::from(size),
        base_type: base_type as u64,
        ..request_outcome(requests::WANTS_MEMORY, address)
    }
}

/// Shows a request; `false` if its block is nowhere in the texts.
#[inline(always)]
pub(crate) fn show_request(
    texts: &[DwexprText<'_>],
    request: EvaluationResult<Placed<'_>>,
    outcome: &mut DwexprOutcome,
) -> bool
    requires { request ≡ EvaluationResult.Complete → ⊥ }
    ensures shown { result ≡ true
        → ShowsReply texts.now (ok_reply text_of_placed (λ x. x) request.entry) outcome.new }
    ensures unplaced { result ≡ false
        → AsksNowhere texts.now (ok_reply text_of_placed (λ x. x) request.entry) }
{
    match request {
        EvaluationResult::Complete => unreachable!(),
        EvaluationResult::RequiresMemory {
            address,
            size,
            space: None,
            base_type,
        } => *outcome = memory_outcome(address, size, base_type.0),
        EvaluationResult::RequiresMemory {
            address,
            size,
            space: Some(space),
            base_type,
        } => *outcome = DwexprOutcome {
            flag: 1,
            space,
            ..memory_outcome(address, size, base_type.0)
        },
        EvaluationResult::RequiresRegister {
            register,
            base_type,
        } => *outcome = DwexprOutcome {
            register_number: u32::from(register.0),
            base_type: base_type.0 as u64,
            ..request_outcome(requests::WANTS_REGISTER, 0)
        },
        EvaluationResult::RequiresFrameBase => *outcome = request_outcome(
            requests::WANTS_FRAME_BASE,
            0,
        ),
        EvaluationResult::RequiresTls(index) => *outcome = request_outcome(
            requests::WANTS_TLS,
            index,
        ),
        EvaluationResult::RequiresCallFrameCfa => *outcome = request_outcome(
            requests::WANTS_CFA,
            0,
        ),
        EvaluationResult::RequiresAtLocation(DieReference::UnitRef(offset)) => *outcome =
            request_outcome(requests::WANTS_LOCATION, offset.0 as u64),
        EvaluationResult::RequiresAtLocation(DieReference::DebugInfoRef(offset)) => *outcome =
            DwexprOutcome {
                flag: 1,
                ..request_outcome(requests::WANTS_LOCATION, offset.0 as u64)
            },
        EvaluationResult::RequiresEntryValue(expression) => {
            let Some(place) = place_of(texts, expression.0) else {
                return false;
            };
            *outcome = DwexprOutcome {
                block_text: place.text,
                block_offset: place.offset,
                block_length: expression.0.len(),
                ..request_outcome(requests::WANTS_ENTRY_VALUE, 0)
            };
        }
        EvaluationResult::RequiresParameterRef(offset) => *outcome = request_outcome(
            requests::WANTS_PARAMETER,
            offset.0 as u64,
        ),
        EvaluationResult::RequiresRelocatedAddress(address) => *outcome = request_outcome(
            requests::WANTS_RELOCATED,
            address,
        ),
        EvaluationResult::RequiresIndexedAddress { index, relocate } => *outcome = DwexprOutcome {
            flag: u32::from(relocate),
            ..request_outcome(requests::WANTS_INDEXED, index.0 as u64)
        },
        EvaluationResult::RequiresBaseType(offset) => *outcome = DwexprOutcome {
            base_type: offset.0 as u64,
            ..request_outcome(requests::WANTS_BASE_TYPE, 0)
        },
        EvaluationResult::RequiresWasmLocal { index } => *outcome = request_outcome(
            requests::WANTS_WASM_LOCAL,
            u64::from(index),
        ),
        EvaluationResult::RequiresWasmGlobal { index } => *outcome = request_outcome(
            requests::WANTS_WASM_GLOBAL,
            u64::from(index),
        ),
        EvaluationResult::RequiresWasmStack { index } => *outcome = request_outcome(
            requests::WANTS_WASM_STACK,
            u64::from(index),
        ),
    }
    true
}

/// Shows a complete evaluation.
#[inline(always)]
pub(crate) fn show_complete(pieces: usize, value: Option<Value>) -> DwexprOutcome
    ensures { result ≡ complete_outcome pieces value }
{
    let numbers = match value {
        None => NO_VALUE,
        // Most values are generic.
        Some(Value::Generic(content)) => DwexprValue {
            value_type: types::GENERIC,
            content,
        },
        Some(value) => numbers_of_value(value),
    };
    DwexprOutcome {
        value_type: numbers.value_type,
        value: numbers.content,
        pieces,
        ..request_outcome(requests::COMPLETE, 0)
    }
}
