//! An evaluation and its calls.

ghost use Rattle.std.specs.Prelude.{◌≡◌, [], None, Some, IfOk, map, true, ◌↔◌};
ghost use Rattle.dwarf_meaning.specs.declared.kinds.WaitingKind.{WaitingKind};
ghost use Rattle.dwarf_meaning.specs.declared.kinds.WaitingKind.TheVariants as kind;
ghost use Rattle.dwarf_meaning.specs.Kinds.{kind_of_answer};
ghost use Rattle.dwarf_meaning.specs.Requests as requests;
ghost use Rattle.dwarf_meaning.specs.Rest.{Start};
ghost use Rattle.dwarf_eval.specs.Permits.{Admits, AnswersWith, IsOpenFor, Permits, Shows};
ghost use Rattle.dwarf_eval.specs.inner.Answers.{answer_of, open_kind};
ghost use Rattle.dwarf_eval.specs.Evaluation.{Evaluates, HasResult, IsAddressSize, IsClosed, IsComplete, fresh_state, with_maximum, with_object, with_status};
ghost use Rattle.dwarf_meaning.specs.Stores.{setup_of};
ghost use Rattle.dwarf_op.specs.Views.{piece_of};

use crate::eval::requests::{kind_of, reply};
use crate::eval::states::Status;
use crate::op::{EvaluationResult, Piece};
use crate::run::machine::Machine;
use crate::run::states::{Answer, EvaluationState};
use crate::store::EvaluationStorage;
use dwarf_base::{Encoding, Reader, Result};
use dwarf_meaning::WaitingKind;
use dwarf_value::{Value, ValueType};
use std::marker::Model;

/// An evaluation of an expression (DWARF 5, section 2.5).
///
/// `evaluate` starts it. The reply is a request or completion. The caller answers a request by the `resume_with_` call
/// of its name, which gives the next reply; `status` also tells which call comes next. A fault is kept: every later
/// `evaluate` and resume gives it again, and changes nothing.
#[derive(Drop)]
pub struct Evaluation<R: Reader + Copy, S: EvaluationStorage<R>> {
    machine: Machine<R, S>,
}

impl<R: Reader + Copy, S: EvaluationStorage<R>> Model for Evaluation<R, S> {
    ghost use Rattle.dwarf_meaning.specs.Rest.{State};

    ghost Value = { State };

    ghost use Rattle.dwarf_eval.specs.inner.Answers.{IsAtRest};

    ghost view = { λ e. e.machine };

    ghost invariant = { λ e. IsAtRest e.machine };
}

impl<R: Reader + Copy, S: EvaluationStorage<R>> Evaluation<R, S> {
    /// A fresh evaluation of `bytecode`, over three empty lists. It allocates nothing.
    ///
    /// The encoding's address size has to be from 1 to 8 bytes.
    pub fn new_in(
        bytecode: R,
        encoding: Encoding,
        stack: S::Stack,
        expression_stack: S::ExpressionStack,
        pieces: S::Result,
    ) -> Self
        requires address_size { IsAddressSize encoding.address_size }
        requires stack { S.Stack.items stack ≡ [] }
        requires expression_stack { S.ExpressionStack.items expression_stack ≡ [] }
        requires pieces { S.Result.items pieces ≡ [] }
        ensures { result ≡ fresh_state (setup_of encoding R.Offset.BITS (S.Stack.limit stack)
            (S.ExpressionStack.limit expression_stack) (S.Result.limit pieces)) (R.text bytecode) }
    {
        Evaluation {
            machine: Machine::new_in(bytecode, encoding, stack, expression_stack, pieces),
        }
    }

    /// Makes this a fresh evaluation of another `bytecode`, over the same lists with the same limits. It may be called
    /// in any status, also after a fault. Every setting is unset. The lists are emptied and keep their memory, so
    /// nothing is allocated or freed.
    ///
    /// The encoding's address size has to be from 1 to 8 bytes.
    #[inline(always)]
    pub fn restart(&mut self, bytecode: R, encoding: Encoding)
        requires { IsAddressSize encoding.address_size }
        ensures { self.new ≡ fresh_state (setup_of encoding R.Offset.BITS
            self.old.setup.limits.values self.old.setup.limits.callers
            self.old.setup.limits.pieces) (R.text bytecode) }
    {
        self.machine.restart(bytecode, encoding);
    }

    /// The kind of the open request, if there is one.
    #[inline(always)]
    fn open_kind(&self) -> Option<WaitingKind>
        ensures { result ≡ open_kind self.now.status }
    {
        match self.machine.state() {
            EvaluationState::Waiting(waiting) => Some(kind_of(waiting)),
            _ => None,
        }
    }

    /// Where the evaluation stands, and so which calls it allows.
    pub fn status(&self) -> Status
        ensures shows { Shows self.now.status result }
        ensures permits { Permits self.now.status result }
    {
        match self.machine.state() {
            EvaluationState::Start(initial_value) => Status::Start {
                initial: initial_value.is_some(),
            },
            EvaluationState::Waiting(waiting) => Status::Waiting(kind_of(waiting)),
            EvaluationState::Complete(_) => Status::Complete,
            EvaluationState::Failed(error) => Status::Failed(*error),
            EvaluationState::Running => unreachable!(),
        }
    }

    /// Whether a resume with an answer of this kind is allowed: a request of the kind is open, or the evaluation met a
    /// fault. It costs less than [`status`](Self::status).
    #[inline(always)]
    pub fn is_open_for(&self, kind: WaitingKind) -> bool
        ensures { (result ≡ true) ↔ IsOpenFor kind self.now.status }
    {
        match self.open_kind() {
            Some(open) => open == kind,
            None => matches!(self.machine.state(), EvaluationState::Failed(_)),
        }
    }

    /// Sets the value with which the stack starts: the object's address, for `DW_AT_vtable_elem_location` and
    /// `DW_AT_data_member_location`. It may be set once, before the start. Without one the stack starts empty, and an
    /// expression that pops from it fails with `NotEnoughStackItems`.
    pub fn set_initial_value(&mut self, value: u64)
        requires { self.old.status ≡ Start None }
        ensures { self.new ≡ with_status (Start (Some value)) self.old }
    {
        self.machine.set_initial_value(value);
    }

    /// Sets the address of the described object, for `DW_OP_push_object_address`. It holds from now on. Without one
    /// that operation fails with `InvalidPushObjectAddress`.
    pub fn set_object_address(&mut self, value: u64)
        ensures { self.new ≡ with_object (Some value) self.old }
    {
        self.machine.set_object_address(value);
    }

    /// Sets the maximum number of operations in the whole evaluation; one more fails with `TooManyIterations`. It holds
    /// from now on, and can't be unset. If it was never set, the maximum is 4294967295. A location and the piece after
    /// it count as one operation. The maximum bounds what broken or hostile bytes can cost.
    pub fn set_max_iterations(&mut self, value: u32)
        ensures { self.new ≡ with_maximum value self.old }
    {
        self.machine.set_max_iterations(value);
    }

    /// Evaluates from the start to a request or to the end.
    ///
    /// No request may be open. After the end it replies `Complete` again, and after a fault it gives that fault.
    ///
    /// # Errors
    ///
    /// - Those of `Operation::parse`, if the next operation is malformed.
    /// - Those of the methods of [`Value`] that it calls: `UnsupportedTypeOperation`, `TypeMismatch`, `DivisionByZero`,
    ///   `InvalidShiftExpression`.
    /// - `NotEnoughStackItems`, if the stack has too few values; also at the end, if there is neither a
    ///   value nor a location or piece.
    /// - `InvalidDerefSize`, if a dereference is wider than an address.
    /// - `InvalidPushObjectAddress`, if no object address is set.
    /// - `UnsupportedEvaluation`, at an operation that can't be evaluated.
    /// - `BadBranchTarget`, if a branch leaves its expression.
    /// - `TooManyIterations`, if another operation follows after the maximum number of them.
    /// - `InvalidPiece`, if the last operation after pieces gives a value or a location that belongs to no piece.
    /// - `InvalidExpressionTerminator`, if an operation other than a piece follows a location.
    /// - `StackFull`, if a list has no room or there is no memory.
    #[inline(always)]
    pub fn evaluate(&mut self) -> Result<EvaluationResult<R>>
        requires { IsClosed self.old.status }
        ensures follows { Evaluates R.text R.Offset.number self.old self.new
            result self.old.status }
        ensures admits { IfOk result (λ replied. Admits replied self.new.status) }
    {
        let EvaluationState::Start(initial_value) = *self.machine.state() else {
            return reply(&self.machine);
        };
        self.machine.begin(initial_value);
        self.machine.run_on();
        reply(&self.machine)
    }

    /// Goes on with an answer.
    #[inline(always)]
    fn resume(&mut self, answer: Answer<R>) -> Result<EvaluationResult<R>>
        requires { IsOpenFor (kind_of_answer (answer_of R.text answer)) self.old.status }
        ensures { AnswersWith R.text R.Offset.number (answer_of R.text answer)
            self.old self.new result }
    {
        if let EvaluationState::Failed(error) = self.machine.state() {
            return Err(*error);
        }
        self.machine.take(answer);
        self.machine.run_on();
        reply(&self.machine)
    }

    /// Goes on with a value from memory, after `RequiresMemory`.
    ///
    /// # Errors
    ///
    /// `StackFull`, if there is no room for the value; then those of [`evaluate`](Self::evaluate). It may be called
    /// after a fault too, and gives that fault.
    #[inline(always)]
    pub fn resume_with_memory(&mut self, value: Value) -> Result<EvaluationResult<R>>
        requires { IsOpenFor kind.Memory self.old.status }
        ensures { AnswersWith R.text R.Offset.number
            (requests.ValueAnswer kind.Memory value) self.old self.new result }
    {
        self.resume(Answer::Value(WaitingKind::Memory, value))
    }

    /// Goes on with the value of a register, after `RequiresRegister`.
    ///
    /// # Errors
    ///
    /// `StackFull`, if there is no room for the sum; then those of [`evaluate`](Self::evaluate). It may be called after
    /// a fault too, and gives that fault.
    #[inline(always)]
    pub fn resume_with_register(&mut self, value: Value) -> Result<EvaluationResult<R>>
        requires { IsOpenFor kind.Register self.old.status }
        ensures { AnswersWith R.text R.Offset.number
            (requests.ValueAnswer kind.Register value) self.old self.new result }
    {
        self.resume(Answer::Value(WaitingKind::Register, value))
    }

    /// Goes on with a WebAssembly value, after `RequiresWasmLocal`, `RequiresWasmGlobal` or `RequiresWasmStack`.
    ///
    /// # Errors
    ///
    /// `StackFull`, if there is no room for the value; then those of [`evaluate`](Self::evaluate). It may be called
    /// after a fault too, and gives that fault.
    #[inline(always)]
    pub fn resume_with_wasm_value(&mut self, value: Value) -> Result<EvaluationResult<R>>
        requires { IsOpenFor kind.WasmValue self.old.status }
        ensures { AnswersWith R.text R.Offset.number
            (requests.ValueAnswer kind.WasmValue value) self.old self.new result }
    {
        self.resume(Answer::Value(WaitingKind::WasmValue, value))
    }

    /// Goes on with the value that the expression had at the function's entry, after `RequiresEntryValue`.
    ///
    /// # Errors
    ///
    /// `StackFull`, if there is no room for the value; then those of [`evaluate`](Self::evaluate). It may be called
    /// after a fault too, and gives that fault.
    #[inline(always)]
    pub fn resume_with_entry_value(&mut self, value: Value) -> Result<EvaluationResult<R>>
        requires { IsOpenFor kind.EntryValue self.old.status }
        ensures { AnswersWith R.text R.Offset.number
            (requests.ValueAnswer kind.EntryValue value) self.old self.new result }
    {
        self.resume(Answer::Value(WaitingKind::EntryValue, value))
    }

    /// Goes on with the frame base, after `RequiresFrameBase`.
    ///
    /// # Errors
    ///
    /// `StackFull`, if there is no room for the sum; then those of [`evaluate`](Self::evaluate). It may be called
    /// after a fault too, and gives that fault.
    #[inline(always)]
    pub fn resume_with_frame_base(&mut self, frame_base: u64) -> Result<EvaluationResult<R>>
        requires { IsOpenFor kind.FrameBase self.old.status }
        ensures { AnswersWith R.text R.Offset.number
            (requests.NumberAnswer kind.FrameBase frame_base) self.old self.new result }
    {
        self.resume(Answer::Number(WaitingKind::FrameBase, frame_base))
    }

    /// Goes on with an address in thread-local storage, after `RequiresTls`.
    ///
    /// # Errors
    ///
    /// `StackFull`, if there is no room for the value; then those of [`evaluate`](Self::evaluate). It may be called
    /// after a fault too, and gives that fault.
    #[inline(always)]
    pub fn resume_with_tls(&mut self, value: u64) -> Result<EvaluationResult<R>>
        requires { IsOpenFor kind.Tls self.old.status }
        ensures { AnswersWith R.text R.Offset.number
            (requests.NumberAnswer kind.Tls value) self.old self.new result }
    {
        self.resume(Answer::Number(WaitingKind::Tls, value))
    }

    /// Goes on with the canonical frame address, after `RequiresCallFrameCfa`.
    ///
    /// # Errors
    ///
    /// `StackFull`, if there is no room for the value; then those of [`evaluate`](Self::evaluate). It may be called
    /// after a fault too, and gives that fault.
    #[inline(always)]
    pub fn resume_with_call_frame_cfa(&mut self, cfa: u64) -> Result<EvaluationResult<R>>
        requires { IsOpenFor kind.CallFrameCfa self.old.status }
        ensures { AnswersWith R.text R.Offset.number
            (requests.NumberAnswer kind.CallFrameCfa cfa) self.old self.new result }
    {
        self.resume(Answer::Number(WaitingKind::CallFrameCfa, cfa))
    }

    /// Goes on with the expression of the entry, after `RequiresAtLocation`. It is evaluated in place of the call; if
    /// it has no bytes, there is nothing to evaluate.
    ///
    /// # Errors
    ///
    /// `StackFull`, if there is no room for the caller; then those of [`evaluate`](Self::evaluate). It may be called
    /// after a fault too, and gives that fault.
    #[inline(always)]
    pub fn resume_with_at_location(&mut self, bytes: R) -> Result<EvaluationResult<R>>
        requires { IsOpenFor kind.AtLocation self.old.status }
        ensures { AnswersWith R.text R.Offset.number
            (requests.LocationAnswer (R.text bytes)) self.old self.new result }
    {
        self.resume(Answer::Location(bytes))
    }

    /// Goes on with the value of the parameter, after `RequiresParameterRef`.
    ///
    /// # Errors
    ///
    /// `StackFull`, if there is no room for the value; then those of [`evaluate`](Self::evaluate). It may be called
    /// after a fault too, and gives that fault.
    #[inline(always)]
    pub fn resume_with_parameter_ref(&mut self, parameter_value: u64) -> Result<EvaluationResult<R>>
        requires { IsOpenFor kind.ParameterRef self.old.status }
        ensures { AnswersWith R.text R.Offset.number
            (requests.NumberAnswer kind.ParameterRef parameter_value) self.old self.new result }
    {
        self.resume(Answer::Number(WaitingKind::ParameterRef, parameter_value))
    }

    /// Goes on with the relocated address, after `RequiresRelocatedAddress`.
    ///
    /// # Errors
    ///
    /// `StackFull`, if there is no room for the value; then those of [`evaluate`](Self::evaluate). It may be called
    /// after a fault too, and gives that fault.
    #[inline(always)]
    pub fn resume_with_relocated_address(&mut self, address: u64) -> Result<EvaluationResult<R>>
        requires { IsOpenFor kind.RelocatedAddress self.old.status }
        ensures { AnswersWith R.text R.Offset.number
            (requests.NumberAnswer kind.RelocatedAddress address) self.old self.new result }
    {
        self.resume(Answer::Number(WaitingKind::RelocatedAddress, address))
    }

    /// Goes on with the address or constant at the index, after `RequiresIndexedAddress`.
    ///
    /// # Errors
    ///
    /// `StackFull`, if there is no room for the value; then those of [`evaluate`](Self::evaluate). It may be called
    /// after a fault too, and gives that fault.
    #[inline(always)]
    pub fn resume_with_indexed_address(&mut self, address: u64) -> Result<EvaluationResult<R>>
        requires { IsOpenFor kind.IndexedAddress self.old.status }
        ensures { AnswersWith R.text R.Offset.number
            (requests.NumberAnswer kind.IndexedAddress address) self.old self.new result }
    {
        self.resume(Answer::Number(WaitingKind::IndexedAddress, address))
    }

    /// Goes on with the base type, after `RequiresBaseType`.
    ///
    /// # Errors
    ///
    /// `UnexpectedEof` or `UnsupportedTypeOperation`, if a literal's bytes aren't a value of the type;
    /// `NotEnoughStackItems`, if there is no value to convert; `TypeMismatch`, if a value of another size is to be
    /// reinterpreted; `StackFull`, if there is no room for the value; then those of [`evaluate`](Self::evaluate). It
    /// may be called after a fault too, and gives that fault.
    #[inline(always)]
    pub fn resume_with_base_type(&mut self, base_type: ValueType) -> Result<EvaluationResult<R>>
        requires { IsOpenFor kind.BaseType self.old.status }
        ensures { AnswersWith R.text R.Offset.number
            (requests.BaseTypeAnswer base_type) self.old self.new result }
    {
        self.resume(Answer::BaseType(base_type))
    }

    /// The value of a complete evaluation, with all bits that it had on the stack. `None` if it has pieces or a
    /// location instead.
    pub fn value_result(&self) -> Option<Value>
        requires { IsComplete self.now.status }
        ensures { HasResult result self.now.status }
    {
        match self.machine.state() {
            EvaluationState::Complete(value) => *value,
            _ => None,
        }
    }

    /// The list of the pieces of a complete evaluation.
    pub(crate) fn into_pieces(self) -> S::Result
        requires { IsComplete self.status }
        ensures { map (piece_of R.text R.Offset.number) (S.Result.items result)
            ≡ self.store.pieces }
    {
        self.machine.into_pieces()
    }

    /// The pieces of a complete evaluation.
    pub fn as_result(&self) -> &[Piece<R>]
        requires { IsComplete self.now.status }
        ensures { map (piece_of R.text R.Offset.number) result.now
            ≡ self.now.store.pieces }
    {
        self.machine.pieces()
    }
}
