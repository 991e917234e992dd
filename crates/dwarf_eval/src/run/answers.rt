ghost use Rattle.std.specs.Prelude.{◌≡◌};
ghost use Rattle.dwarf_meaning.specs.declared.kinds.WaitingKind.{WaitingKind};
ghost use Rattle.dwarf_meaning.specs.Requests as requests;
ghost use Rattle.dwarf_eval.specs.inner.Answers.{IsWaiting, answer_of, offset_in};
ghost use Rattle.dwarf_eval.specs.inner.StateChanges.{AnswersOpenRequest, PushesAsAnswer};

use crate::run::machine::Machine;
use crate::run::states::{Answer, EvaluationState, EvaluationWaiting, LastOperation};
use crate::store::EvaluationStorage;
use dwarf_base::{Reader, Result, copy_of};
use dwarf_value::{Value, ValueType};

impl<R: Reader + Copy, S: EvaluationStorage<R>> Machine<R, S> {
    /// Pushes the value that an answer gives and runs on, or fails with its error.
    #[inline(always)]
    fn push_answer(&mut self, answer: Result<Value>)
        ensures { PushesAsAnswer answer self.old self.new }
    {
        match answer {
            Ok(value) => {
                self.mark(LastOperation::Pushed);
                self.set_running();
                self.push(value);
            }
            Err(error) => self.fail(error),
        }
    }

    /// The offset that the open request adds to its answer.
    #[inline(always)]
    fn offset(&self) -> Option<i64>
        ensures { result ≡ offset_in self.now.status }
    {
        match self.state() {
            EvaluationState::Waiting(EvaluationWaiting::Register { offset, .. }) => Some(*offset),
            EvaluationState::Waiting(EvaluationWaiting::FrameBase { offset }) => Some(*offset),
            _ => None,
        }
    }

    /// Pushes a value; if the request has an offset, their sum in the value's type.
    #[inline(always)]
    fn take_value(&mut self, value: Value)
        requires { IsWaiting self.old.status }
        ensures { (kind : WaitingKind) → AnswersOpenRequest (requests.ValueAnswer kind value) self.old self.new }
    {
        match self.offset() {
            Some(offset) => self.push_answer(self.sum(value, offset.cast_unsigned())),
            None => self.push_answer(Ok(value)),
        }
    }

    /// Pushes a number as a generic value; if the request has an offset, their sum.
    #[inline(always)]
    fn take_number(&mut self, number: u64)
        requires { IsWaiting self.old.status }
        ensures { (kind : WaitingKind) → AnswersOpenRequest (requests.NumberAnswer kind number) self.old self.new }
    {
        let sum = match self.offset() {
            Some(offset) => number.wrapping_add(offset.cast_unsigned()),
            None => number,
        };
        self.push_answer(Ok(Value::Generic(sum)))
    }

    /// Pushes a value of the type: the literal's, or the top converted or reinterpreted.
    #[inline(never)]
    fn take_base_type(&mut self, base_type: ValueType)
        requires { IsWaiting self.old.status }
        ensures { AnswersOpenRequest (requests.BaseTypeAnswer base_type) self.old self.new }
    {
        let EvaluationState::Waiting(waiting) = self.state() else {
            return;
        };
        match waiting {
            EvaluationWaiting::TypedLiteral { value, .. } => {
                let parsed = Value::parse(base_type, copy_of(value));
                self.push_answer(parsed)
            }
            EvaluationWaiting::Convert(_) => {
                let Some(value) = self.pop() else { return };
                self.push_answer(value.convert(base_type, self.addr_mask()))
            }
            _ => {
                let Some(value) = self.pop() else { return };
                self.push_answer(value.reinterpret(base_type, self.addr_mask()))
            }
        }
    }

    /// Runs the called text in place of the call. An empty text is skipped.
    #[inline(never)]
    fn take_location(&mut self, callee: R)
        requires { IsWaiting self.old.status }
        ensures { AnswersOpenRequest (requests.LocationAnswer (R.text callee)) self.old self.new }
    {
        self.set_running();
        if callee.is_empty() {
            self.mark(LastOperation::Called);
            return;
        }
        self.push_caller(callee);
    }

    /// Uses an answer as the open request says.
    #[inline(always)]
    pub(crate) fn take(&mut self, answer: Answer<R>)
        requires { IsWaiting self.old.status }
        ensures { AnswersOpenRequest (answer_of R.text answer) self.old self.new }
    {
        match answer {
            Answer::Value(_, value) => self.take_value(value),
            Answer::Number(_, number) => self.take_number(number),
            Answer::Location(callee) => self.take_location(callee),
            Answer::BaseType(base_type) => self.take_base_type(base_type),
        }
    }
}
