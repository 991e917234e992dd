//! The state of an evaluation and its smallest steps: changes of the lists and the count, and reads of the text.

ghost use Rattle.std.specs.Prelude.{◌≡◌, ◌<◌, ◌*◌, [], Some, Err, map, length, slice_get, false, true, OnOk, IfOk, IfErr};
ghost use Rattle.dwarf_base.specs.Faults.{fault_of};
ghost use Rattle.dwarf_value.specs.Values.{IsAddressMask, width_of};
ghost use Rattle.dwarf_meaning.specs.Locations as meant;
ghost use Rattle.dwarf_meaning.specs.Meaning.{has_pieces};
ghost use Rattle.dwarf_meaning.specs.Rest.{Start, Running, RequestStatus, CompleteStatus, FaultStatus};
ghost use Rattle.dwarf_meaning.specs.Acts.{RequestAct};
ghost use Rattle.dwarf_meaning.specs.Run.{read};
ghost use Rattle.dwarf_meaning.specs.Stores.{Located, Pieced, address_bits, push_value, push_piece};
ghost use Rattle.dwarf_op.specs.Views.{operation_of, location_of, piece_of};
ghost use Rattle.dwarf_meaning.specs.Inputs.{with_maximum, with_object, with_status};
ghost use Rattle.dwarf_eval.specs.Evaluation.{IsAddressSize};
ghost use Rattle.dwarf_eval.specs.inner.Machine.{fresh_machine, last_of, limits_of, on_answer_of, request_of, status_of};
ghost use Rattle.dwarf_eval.specs.inner.StateChanges.{CountsOne, GoesBack, Jumps, Performs, Pops, ReadsOperation, TriesChange, TriesToEnter, TriesToPop, has_location, is_running, read_to, with_last};

use crate::run::states::{EvaluationState, EvaluationWaiting, LastOperation};
use crate::run::ticks::Ticks;
use crate::store::{ArrayLike, EvaluationStorage};
use dwarf_base::{Encoding, Error, Reader, ReaderOffset, Result, copy_of};
use dwarf_op::{Location, Operation, Piece};
use dwarf_value::Value;
use std::marker::Model;
use std::mem;

/// The state of an evaluation. Its methods in this file alone use the bytes and the lists.
#[derive(Drop)]
pub(crate) struct Machine<R: Reader + Copy, S: EvaluationStorage<R>> {
    state: EvaluationState<R>,
    encoding: Encoding,
    addr_mask: u64,
    object_address: Option<u64>,
    max_iterations: u32,
    iteration: u32,
    // The unread bytes of the text that runs.
    rest: R,
    // All bytes of that text.
    whole: R,
    last: LastOperation,
    // The location whose piece comes next, if the last operation gave a location.
    location: Location<R>,
    stack: S::Stack,
    expression_stack: S::ExpressionStack,
    pieces: S::Result,
    // For contracts only.
    decodings: Ticks,
}

impl<R: Reader + Copy, S: EvaluationStorage<R>> Model for Machine<R, S> {
    ghost use Rattle.dwarf_meaning.specs.Rest.{State};

    ghost Value = { State };

    ghost use Rattle.dwarf_meaning.specs.Stores.{setup_of};
    ghost use Rattle.dwarf_eval.specs.inner.Machine.{status_of, store_of, place_of, callers_of, IsSound};

    ghost view = { λ e. record {
      status = status_of R.text R.Offset.number e.state;
      setup = setup_of e.encoding R.Offset.BITS (S.Stack.limit e.stack)
          (S.ExpressionStack.limit e.expression_stack) (S.Result.limit e.pieces);
      text = R.text e.whole;
      place = place_of (R.text e.whole) (R.text e.rest);
      callers = callers_of R.text (S.ExpressionStack.items e.expression_stack);
      store = store_of R.text R.Offset.number (S.Stack.items e.stack) (S.Result.items e.pieces)
          e.iteration e.object_address e.max_iterations e.last e.location;
      decodings = e.decodings.count;
    } };

    ghost invariant = { λ e. IsSound R.text e.encoding e.addr_mask e.whole e.rest
        (S.ExpressionStack.items e.expression_stack) };
}

impl<R: Reader + Copy, S: EvaluationStorage<R>> Machine<R, S> {
    /// Ends the run with a fault, and keeps it.
    #[inline(always)]
    pub(crate) fn fail(&mut self, error: Error)
        ensures { self.new ≡ with_status (FaultStatus error) self.old }
    {
        self.state = EvaluationState::Failed(error);
    }

    /// Pushes a value. If the stack refuses it, fails with `StackFull` and returns `false`.
    #[inline(always)]
    pub(crate) fn push(&mut self, value: Value) -> bool
        ensures { TriesChange 0 (push_value self.old.setup value) self.old self.new result }
    {
        let Ok(()) = self.stack.push(value) else {
            self.fail(Error::StackFull);
            return false;
        };
        true
    }

    /// Pops the top, if there is one.
    #[inline(always)]
    pub(crate) fn pop_if_any(&mut self) -> Option<Value>
        ensures { Pops result self.old self.new }
    {
        self.stack.pop()
    }

    /// Pops the top. If the stack is empty, fails with `NotEnoughStackItems` and returns `None`.
    #[inline(always)]
    pub(crate) fn pop(&mut self) -> Option<Value>
        ensures { TriesToPop result self.old self.new }
    {
        let Some(top) = self.pop_if_any() else {
            self.fail(Error::NotEnoughStackItems);
            return None;
        };
        Some(top)
    }

    /// The value at this distance from the top; 0 is the top.
    #[inline(always)]
    pub(crate) fn value_at(&self, index: u8) -> Option<Value>
        ensures { result ≡ slice_get self.now.store.values index }
    {
        let index = self.stack.len().checked_sub(usize::from(index) + 1)?;
        self.stack.get(index)
    }

    /// Adds a piece. If the list refuses it, fails with `StackFull` and returns `false`.
    #[inline(always)]
    pub(crate) fn push_piece(&mut self, piece: Piece<R>) -> bool
        ensures { TriesChange 0 (push_piece self.old.setup (piece_of R.text R.Offset.number piece))
            self.old self.new result }
    {
        let Ok(()) = self.pieces.push(piece) else {
            self.fail(Error::StackFull);
            return false;
        };
        true
    }

    /// Counts one more operation. If the maximum is reached, fails with `TooManyIterations` and returns `false`.
    #[inline(always)]
    pub(crate) fn count(&mut self) -> bool
        ensures { CountsOne self.old self.new result }
    {
        if self.iteration >= self.max_iterations {
            self.fail(Error::TooManyIterations);
            return false;
        }
        self.iteration += 1;
        true
    }

    /// Sets the kind of the last operation, which gave no location.
    #[inline(always)]
    pub(crate) fn mark(&mut self, last: LastOperation)
        requires { has_location (last_of last meant.Empty) ≡ false }
        ensures { self.new ≡ with_last (last_of last meant.Empty) self.old }
    {
        self.last = last;
    }

    /// Keeps the location that the last operation gave; its piece comes next.
    #[inline(always)]
    pub(crate) fn locate(&mut self, location: Location<R>)
        ensures { self.new
            ≡ with_last (Located (location_of R.text R.Offset.number location)) self.old }
    {
        self.last = LastOperation::Located;
        self.location = location;
    }

    /// The kind of the last operation.
    #[inline(always)]
    pub(crate) fn last(&self) -> LastOperation
        ensures { (location : _)
            × (last_of result location ≡ self.now.store.last) }
    {
        self.last
    }

    /// The location whose piece comes next.
    #[inline(always)]
    pub(crate) fn location(&self) -> &Location<R>
        requires { has_location self.now.store.last ≡ true }
        ensures { self.now.store.last ≡ Located (location_of R.text R.Offset.number result.now) }
    {
        &self.location
    }

    /// Takes the location whose piece was just read.
    #[inline(always)]
    pub(crate) fn take_located(&mut self) -> Location<R>
        requires { has_location self.old.store.last ≡ true }
        ensures located { self.old.store.last
            ≡ Located (location_of R.text R.Offset.number result) }
        ensures pieced { self.new ≡ with_last Pieced self.old }
    {
        let location = mem::replace(&mut self.location, Location::Empty);
        self.mark(LastOperation::Pieced);
        location
    }

    /// Sets the value with which the stack starts.
    #[inline(always)]
    pub(crate) fn set_initial_value(&mut self, value: u64)
        ensures { self.new ≡ with_status (Start (Some value)) self.old }
    {
        self.state = EvaluationState::Start(Some(value));
    }

    /// Sets the address of the described object.
    pub(crate) fn set_object_address(&mut self, value: u64)
        ensures { self.new ≡ with_object (Some value) self.old }
    {
        self.object_address = Some(value);
    }

    /// The address of the described object, if it is set.
    #[inline(always)]
    pub(crate) fn object_address(&self) -> Option<u64>
        ensures { result ≡ self.now.store.settings.object_address }
    {
        self.object_address
    }

    /// Sets the maximum number of operations.
    pub(crate) fn set_max_iterations(&mut self, value: u32)
        ensures { self.new ≡ with_maximum value self.old }
    {
        self.max_iterations = value;
    }

    /// Sets the state to running.
    #[inline(always)]
    pub(crate) fn set_running(&mut self)
        ensures { self.new ≡ with_status Running self.old }
    {
        self.state = EvaluationState::Running;
    }

    /// Completes the evaluation with this value.
    #[inline(always)]
    pub(crate) fn complete(&mut self, value: Option<Value>)
        ensures { self.new ≡ with_status (CompleteStatus value) self.old }
    {
        self.state = EvaluationState::Complete(value);
    }

    /// Opens a request.
    #[inline(always)]
    pub(crate) fn ask(&mut self, waiting: EvaluationWaiting<R>)
        ensures alone { self.new
            ≡ with_status
            (RequestStatus (request_of R.text R.Offset.number waiting)
            (on_answer_of R.text R.Offset.number waiting))
            self.old }
        ensures asks { Performs
            (RequestAct self.old.store.values (request_of R.text R.Offset.number waiting)
            (on_answer_of R.text R.Offset.number waiting))
            self.old self.new }
    {
        self.state = EvaluationState::Waiting(waiting);
    }

    /// The evaluation's state.
    #[inline(always)]
    pub(crate) fn state(&self) -> &EvaluationState<R>
        ensures { status_of R.text R.Offset.number result.now ≡ self.now.status }
    {
        &self.state
    }

    /// Whether the evaluation runs: it has no request, result or fault yet.
    #[inline(always)]
    pub(crate) fn is_running(&self) -> bool
        ensures { result ≡ is_running self.now.status }
    {
        matches!(self.state, EvaluationState::Running)
    }

    /// Whether the last operation gave a location.
    #[inline(always)]
    pub(crate) fn has_location(&self) -> bool
        ensures { result ≡ has_location self.now.store.last }
    {
        matches!(self.last, LastOperation::Located)
    }

    /// Whether no byte of the text is left.
    #[inline(always)]
    pub(crate) fn is_at_end(&self) -> bool
        ensures ends { result ≡ true → self.now.place ≡ length self.now.text.bytes }
        ensures inside { result ≡ false → self.now.place < length self.now.text.bytes }
    {
        self.rest.is_empty()
    }

    /// Whether there are pieces.
    #[inline(always)]
    pub(crate) fn has_pieces(&self) -> bool
        ensures { result ≡ has_pieces self.now.store.pieces }
    {
        self.pieces.len() != 0
    }

    /// The mask of an address.
    #[inline(always)]
    pub(crate) fn addr_mask(&self) -> u64
        ensures mask { IsAddressMask result }
        ensures width { width_of result ≡ address_bits self.now.setup }
    {
        self.addr_mask
    }

    /// The size of an address, in bytes.
    #[inline(always)]
    pub(crate) fn address_size(&self) -> u8
        ensures { result ≡ self.now.setup.encoding.address_size }
    {
        self.encoding.address_size
    }

    /// The place in the text: how many of its bytes were read.
    #[inline(always)]
    pub(crate) fn place(&self) -> R::Offset
        ensures value { R.Offset.number result ≡ self.now.place }
        ensures bits { self.now.setup.offset_bits ≡ R.Offset.BITS }
    {
        self.rest.offset_from(&self.whole)
    }

    /// Decodes the next operation. Nothing else in an evaluation decodes, so `decodings` counts all that it decodes.
    #[inline(always)]
    pub(crate) fn decode(&mut self) -> Result<Operation<R>>
        ensures ok { IfOk result
            (λ operation. ReadsOperation (operation_of R.text R.Offset.number operation) self.old self.new) }
        ensures beyond { OnOk result (0 < self.new.place) }
        ensures err { IfErr result
            (λ e. read self.old.setup self.old.text self.old.place ≡ Err (fault_of e)) }
        ensures alone { self.new ≡ read_to self.new.place self.old }
    {
        self.decodings.tick();
        Operation::parse(&mut self.rest, self.encoding)
    }

    /// Goes to a place of the text. If there is no such place, fails with `BadBranchTarget` and returns `false`.
    #[inline(always)]
    pub(crate) fn jump(&mut self, place: R::Offset) -> bool
        ensures { Jumps (R.Offset.number place) self.old self.new result }
    {
        let mut target = copy_of(&self.whole);
        let Ok(()) = target.skip(place) else {
            self.fail(Error::BadBranchTarget(place.into_u64()));
            return false;
        };
        self.rest = target;
        true
    }

    /// Keeps the text as a caller, and runs the called one. If the list refuses the caller, fails with `StackFull` and
    /// returns `false`.
    pub(crate) fn push_caller(&mut self, callee: R) -> bool
        ensures { TriesToEnter (R.text callee) self.old self.new result }
    {
        let rest = mem::replace(&mut self.rest, copy_of(&callee));
        let whole = mem::replace(&mut self.whole, callee);
        match self.expression_stack.push((rest, whole)) {
            Ok(()) => true,
            Err((rest, whole)) => {
                self.rest = rest;
                self.whole = whole;
                self.fail(Error::StackFull);
                false
            }
        }
    }

    /// Returns to the innermost caller; `false` if there is none.
    pub(crate) fn pop_caller(&mut self) -> bool
        ensures { GoesBack result self.old self.new }
    {
        let Some(caller) = self.expression_stack.pop() else {
            return false;
        };
        self.rest = caller.0;
        self.whole = caller.1;
        true
    }

    /// The pieces.
    #[inline(always)]
    pub(crate) fn pieces(&self) -> &[Piece<R>]
        ensures { map (piece_of R.text R.Offset.number) result.now ≡ self.now.store.pieces }
    {
        self.pieces.as_slice()
    }

    /// The pieces, as the list that they are in.
    pub(crate) fn into_pieces(self) -> S::Result
        ensures { map (piece_of R.text R.Offset.number) (S.Result.items result)
            ≡ self.store.pieces }
    {
        self.pieces
    }

    /// Makes this a fresh evaluation of another text. The lists are emptied and keep their memory.
    #[tactic(auto, unfolding(dwarf_meaning::specs::Run::most_operations))]
    #[inline(always)]
    pub(crate) fn restart(&mut self, bytecode: R, encoding: Encoding)
        requires { IsAddressSize encoding.address_size }
        ensures { self.new
            ≡ fresh_machine self.old.setup.limits encoding R.Offset.BITS (R.text bytecode) }
    {
        clear(&mut self.stack);
        clear(&mut self.expression_stack);
        clear(&mut self.pieces);
        self.state = EvaluationState::Start(None);
        self.encoding = encoding;
        self.addr_mask = mask_of(encoding.address_size);
        self.object_address = None;
        self.max_iterations = u32::MAX;
        self.iteration = 0;
        self.rest = copy_of(&bytecode);
        self.whole = bytecode;
        self.last = LastOperation::Nothing;
        // In Rust it may hold a reader of the text before.
        self.location = Location::Empty;
        self.decodings = Ticks::new();
    }

    /// A fresh evaluation.
    #[tactic(auto, unfolding(dwarf_meaning::specs::Run::most_operations))]
    pub(crate) fn new_in(
        bytecode: R,
        encoding: Encoding,
        stack: S::Stack,
        expression_stack: S::ExpressionStack,
        pieces: S::Result,
    ) -> Self
        requires address_size { IsAddressSize encoding.address_size }
        requires stack { S.Stack.items stack ≡ [] }
        requires expression_stack { S.ExpressionStack.items expression_stack ≡ [] }
        requires pieces { S.Result.items pieces ≡ [] }
        ensures { result ≡ fresh_machine (limits_of (S.Stack.limit stack)
            (S.ExpressionStack.limit expression_stack) (S.Result.limit pieces))
            encoding R.Offset.BITS (R.text bytecode) }
    {
        Machine {
            state: EvaluationState::Start(None),
            encoding,
            addr_mask: mask_of(encoding.address_size),
            object_address: None,
            max_iterations: u32::MAX,
            iteration: 0,
            rest: copy_of(&bytecode),
            whole: bytecode,
            last: LastOperation::Nothing,
            location: Location::Empty,
            stack,
            expression_stack,
            pieces,
            decodings: Ticks::new(),
        }
    }
}

/// The mask of addresses of this many bytes.
fn mask_of(address_size: u8) -> u64
    requires { IsAddressSize address_size }
    ensures mask { IsAddressMask result }
    ensures width { width_of result ≡ 8 * address_size }
{
    u64::MAX >> (64 - 8 * u32::from(address_size))
}

/// Empties a list, which keeps its memory.
#[inline(always)]
fn clear<L: ArrayLike>(list: &mut L)
    ensures items { L.items list.new ≡ [] }
    ensures limit { L.limit list.new ≡ L.limit list.old }
{
    while list.len() != 0 {
        list.pop();
    }
}
