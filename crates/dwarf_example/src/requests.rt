//! Two loops that answer every request: a debugger's, and one that asks for the evaluation's status.

ghost use Rattle.std.specs.Prelude.{◌≢◌, ◌<◌, IfOk, OnOk};
ghost use Rattle.dwarf_expr.specs.Bounds.{calls_left};
ghost use Rattle.dwarf_expr.specs.Evaluation.{IsClosed, IsComplete};
ghost use Rattle.dwarf_expr.specs.Permits.{Admits, IsOpenFor};
ghost use Rattle.dwarf_expr.specs.EvaluationResult.TheVariants.{Complete};

use dwarf_expr::base::{DebugAddrIndex, Reader, Register, Result, UnitOffset};
use dwarf_expr::eval::{Evaluation, Status, WaitingKind};
use dwarf_expr::op::{DieReference, EvaluationResult, Expression};
use dwarf_expr::store::EvaluationStorage;
use dwarf_expr::value::{Value, ValueType};

/// What a debugger knows of the process that it examines.
pub trait Process<R: Reader> {
    /// The contents of `size` bytes of memory.
    fn memory(&self, address: u64, size: u8, space: Option<u64>) -> Result<Value>;

    /// The contents of a register.
    fn register(&self, register: Register, base_type: UnitOffset<R::Offset>) -> Result<Value>;

    /// A WebAssembly local, global or operand stack item.
    fn wasm_value(&self, index: u32) -> Result<Value>;

    /// The value of the function's `DW_AT_frame_base`.
    fn frame_base(&self) -> Result<u64>;

    /// The canonical frame address.
    fn call_frame_cfa(&self) -> Result<u64>;

    /// The address of a thread-local variable.
    fn thread_local(&self, offset: u64) -> Result<u64>;

    /// The `DW_AT_location` of an entry, or no bytes if it has none.
    fn expression_at(&self, entry: DieReference<R::Offset>) -> Result<R>;

    /// The value that the expression had when the function was entered.
    fn entry_value(&self, expression: Expression<R>) -> Result<Value>;

    /// The value of a parameter, as the call site gives it.
    fn parameter(&self, entry: UnitOffset<R::Offset>) -> Result<u64>;

    /// An address of the file, relocated to where the file is loaded.
    fn relocated(&self, address: u64) -> Result<u64>;

    /// The address or constant at this index of `.debug_addr`.
    fn indexed_address(&self, index: DebugAddrIndex<R::Offset>, relocate: bool) -> Result<u64>;

    /// The type that a base type's entry describes.
    fn base_type(&self, entry: UnitOffset<R::Offset>) -> Result<ValueType>;
}

/// Evaluates to the end, with answers from the process.
pub fn complete<R: Reader + Copy, S: EvaluationStorage<R>, P: Process<R>>(
    evaluation: &mut Evaluation<R, S>,
    process: &P,
) -> Result<()>
    requires { IsClosed evaluation.old.status }
    ensures { OnOk result (IsComplete evaluation.new.status) }
{
    let mut request = evaluation.evaluate()?;
    'requests: loop {
        request = match request {
            EvaluationResult::Complete => break,
            request => answer(evaluation, request, process)?,
        };
    }
    Ok(())
}

/// Resumes with the process's answer to the request.
fn answer<R: Reader + Copy, S: EvaluationStorage<R>, P: Process<R>>(
    evaluation: &mut Evaluation<R, S>,
    request: EvaluationResult<R>,
    process: &P,
) -> Result<EvaluationResult<R>>
    requires open { Admits request evaluation.old.status }
    requires asks { request ≢ Complete }
    ensures admits { IfOk result (λ replied. Admits replied evaluation.new.status) }
    ensures fewer { IfOk result (λ replied. calls_left evaluation.new < calls_left evaluation.old) }
{
    match request {
        EvaluationResult::Complete => unreachable!(),
        EvaluationResult::RequiresMemory {
            address,
            size,
            space,
            ..
        } => evaluation.resume_with_memory(process.memory(address, size, space)?),
        EvaluationResult::RequiresRegister {
            register,
            base_type,
        } => evaluation.resume_with_register(process.register(register, base_type)?),
        EvaluationResult::RequiresWasmLocal { index }
        | EvaluationResult::RequiresWasmGlobal { index }
        | EvaluationResult::RequiresWasmStack { index } => {
            evaluation.resume_with_wasm_value(process.wasm_value(index)?)
        }
        EvaluationResult::RequiresFrameBase => {
            evaluation.resume_with_frame_base(process.frame_base()?)
        }
        EvaluationResult::RequiresTls(offset) => {
            evaluation.resume_with_tls(process.thread_local(offset)?)
        }
        EvaluationResult::RequiresCallFrameCfa => {
            evaluation.resume_with_call_frame_cfa(process.call_frame_cfa()?)
        }
        EvaluationResult::RequiresAtLocation(entry) => {
            evaluation.resume_with_at_location(process.expression_at(entry)?)
        }
        EvaluationResult::RequiresEntryValue(expression) => {
            evaluation.resume_with_entry_value(process.entry_value(expression)?)
        }
        EvaluationResult::RequiresParameterRef(entry) => {
            evaluation.resume_with_parameter_ref(process.parameter(entry)?)
        }
        EvaluationResult::RequiresRelocatedAddress(address) => {
            evaluation.resume_with_relocated_address(process.relocated(address)?)
        }
        EvaluationResult::RequiresIndexedAddress { index, relocate } => {
            evaluation.resume_with_indexed_address(process.indexed_address(index, relocate)?)
        }
        EvaluationResult::RequiresBaseType(entry) => {
            evaluation.resume_with_base_type(process.base_type(entry)?)
        }
    }
}

/// Evaluates with 0 as every answer, and `nothing` as every expression. Returns the number of requests.
pub fn count_requests<R: Reader + Copy, S: EvaluationStorage<R>>(
    evaluation: &mut Evaluation<R, S>,
    nothing: R,
) -> Result<u32>
    requires { IsClosed evaluation.old.status }
{
    let mut asked: u32 = 0;
    let _request = evaluation.evaluate()?;
    'requests: while let Status::Waiting(kind) = evaluation.status() {
        asked = asked.saturating_add(1);
        let _request = answer_zero(evaluation, kind, nothing)?;
    }
    Ok(asked)
}

/// Resumes with 0, or with `nothing`.
fn answer_zero<R: Reader + Copy, S: EvaluationStorage<R>>(
    evaluation: &mut Evaluation<R, S>,
    kind: WaitingKind,
    nothing: R,
) -> Result<EvaluationResult<R>>
    requires { IsOpenFor kind evaluation.old.status }
    ensures fewer { OnOk result (calls_left evaluation.new < calls_left evaluation.old) }
{
    let zero = Value::Generic(0);
    match kind {
        WaitingKind::Memory => evaluation.resume_with_memory(zero),
        WaitingKind::Register => evaluation.resume_with_register(zero),
        WaitingKind::WasmValue => evaluation.resume_with_wasm_value(zero),
        WaitingKind::EntryValue => evaluation.resume_with_entry_value(zero),
        WaitingKind::FrameBase => evaluation.resume_with_frame_base(0),
        WaitingKind::Tls => evaluation.resume_with_tls(0),
        WaitingKind::CallFrameCfa => evaluation.resume_with_call_frame_cfa(0),
        WaitingKind::ParameterRef => evaluation.resume_with_parameter_ref(0),
        WaitingKind::RelocatedAddress => evaluation.resume_with_relocated_address(0),
        WaitingKind::IndexedAddress => evaluation.resume_with_indexed_address(0),
        WaitingKind::AtLocation => evaluation.resume_with_at_location(nothing),
        WaitingKind::BaseType => evaluation.resume_with_base_type(ValueType::Generic),
    }
}
