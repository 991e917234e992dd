//! The loop of a run: operations, the pieces after locations, and the ends of texts.

ghost use Rattle.std.specs.Prelude.{◌≡◌, ◌<◌, length, true};
ghost use Rattle.dwarf_meaning.specs.Meaning.{finish, whole_piece};
ghost use Rattle.dwarf_eval.specs.inner.Answers.{IsAtRestBy};
ghost use Rattle.dwarf_meaning.specs.Rest.{Running, Start};
ghost use Rattle.dwarf_meaning.specs.RunLaws.{waits_of};
ghost use Rattle.dwarf_meaning.specs.Stores.{Located};
ghost use Rattle.dwarf_op.specs.Views.{operation_of, location_of};
ghost use Rattle.dwarf_eval.specs.inner.StateChanges.{Closes, ComesToState, CompletesWith, EndsLocated, RunsOn, Turns, has_location, total};

use crate::run::machine::Machine;
use crate::run::states::LastOperation;
use crate::store::EvaluationStorage;
use dwarf_base::{Error, Reader, ReaderOffset, copy_of};
use dwarf_op::{Location, Operation, Piece};
use dwarf_value::Value;

impl<R: Reader + Copy, S: EvaluationStorage<R>> Machine<R, S> {
    /// Performs the next operation. After a location it has to be a piece, which isn't counted.
    #[inline(always)]
    fn turn(&mut self)
        requires runs { self.old.status ≡ Running }
        requires inside { self.old.place < length self.old.text.bytes }
        ensures { Turns self.old self.new }
    {
        let has_location = self.has_location();
        if !has_location && !self.count() {
            return;
        }
        match self.decode() {
            Ok(operation) if has_location => self.add_piece_of_location(operation),
            Ok(operation) => self.operate(operation),
            Err(error) => self.fail(error),
        }
    }

    /// Adds the piece of the location. `operation` follows the location, and has to be a piece; else it fails with
    /// `InvalidExpressionTerminator`.
    #[inline(always)]
    fn add_piece_of_location(&mut self, operation: Operation<R>)
        requires after { 0 < self.old.place }
        requires waits { has_location self.old.store.last ≡ true }
        ensures { (location : _) → self.old.store.last ≡ Located location →
            EndsLocated location (operation_of R.text R.Offset.number operation) self.old self.new }
    {
        let Operation::Piece {
            size_in_bits,
            bit_offset,
        } = operation
        else {
            let place = self.place().into_u64();
            self.fail(Error::InvalidExpressionTerminator(place - 1));
            return;
        };
        let location = self.take_located();
        self.push_piece(Piece {
            size_in_bits: Some(size_in_bits),
            bit_offset,
            location,
        });
    }

    /// Adds a piece that is the whole variable, and completes the evaluation.
    fn complete_with(&mut self, location: Location<R>, value: Option<Value>)
        requires { self.old.status ≡ Running }
        ensures { CompletesWith (whole_piece (location_of R.text R.Offset.number location)) value
            self.old self.new }
    {
        let piece = Piece {
            size_in_bits: None,
            bit_offset: None,
            location,
        };
        if self.push_piece(piece) {
            self.complete(value);
        }
    }

    /// Finishes the evaluation at the end of the outermost text. If it has pieces, no value or location may follow the
    /// last one. If it has none, the last location is the only piece, or else the address on top is.
    #[inline(never)]
    fn finish(&mut self)
        requires { self.old.status ≡ Running }
        ensures { Closes (waits_of self.old.store.last) (finish self.old.setup) self.old self.new }
    {
        if self.has_pieces() {
            match self.last() {
                LastOperation::Nothing | LastOperation::Pieced | LastOperation::Called => {
                    self.complete(None)
                }
                _ => self.fail(Error::InvalidPiece),
            }
            return;
        }
        if self.has_location() {
            self.complete_with(copy_of(self.location()), None);
            return;
        }
        let Some(value) = self.pop() else { return };
        let address = self.number_of(value);
        self.complete_with(Location::Address { address }, Some(value));
    }

    /// Runs on to a request, to completion or to a fault. At the end of a text it goes back to the caller. After a
    /// fault it does nothing.
    #[inline(never)]
    pub(crate) fn run_on(&mut self)
        ensures { RunsOn self.old self.new }
    {
        while self.is_running() {
            if self.is_at_end() {
                if !self.pop_caller() {
                    self.finish();
                }
            } else {
                self.turn();
            }
        }
    }

    /// Begins the run. The initial value is pushed, if there is one.
    pub(crate) fn begin(&mut self, initial_value: Option<u64>)
        requires { IsAtRestBy self.old (Start initial_value) }
        ensures { ComesToState self.old (total self.old) self.new }
    {
        self.set_running();
        if let Some(value) = initial_value {
            self.push(Value::Generic(value));
        }
    }
}
