//! What each operation does.

ghost use Rattle.std.specs.Prelude.{◌≡◌};
ghost use Rattle.dwarf_meaning.specs.Rest.{Running};
ghost use Rattle.dwarf_eval.specs.inner.StateChanges.{Performs, act_of};
ghost use Rattle.dwarf_op.specs.Views.{operation_of};

use crate::run::machine::Machine;
use crate::run::states::{EvaluationWaiting, LastOperation};
use crate::store::EvaluationStorage;
use dwarf_base::{Error, Reader};
use dwarf_op::{Location, Operation};
use dwarf_value::Value;

impl<R: Reader + Copy, S: EvaluationStorage<R>> Machine<R, S> {
    /// Performs an operation.
    #[inline(always)]
    #[tactic(auto, unfolding(dwarf_meaning::specs::Acts::act))]
    pub(crate) fn operate(&mut self, operation: Operation<R>)
        requires { self.old.status ≡ Running }
        ensures { Performs
            (act_of self.old (operation_of R.text R.Offset.number operation)) self.old self.new }
    {
        match operation {
            Operation::Deref {
                size,
                space,
                base_type,
            } => self.dereference(base_type, size, space),
            Operation::Drop => self.drop_top(),
            Operation::Pick { index } => self.pick(index),
            Operation::Swap => self.swap(),
            Operation::Rot => self.rotate(),
            Operation::Abs => self.compute_unary(Value::abs),
            Operation::Neg => self.compute_unary(Value::neg),
            Operation::Not => self.compute_unary(Value::not),
            Operation::And => self.compute_binary(Value::and),
            Operation::Div => self.compute_binary(Value::div),
            Operation::Minus => self.compute_binary(Value::sub),
            Operation::Mod => self.compute_binary(Value::rem),
            Operation::Mul => self.compute_binary(Value::mul),
            Operation::Or => self.compute_binary(Value::or),
            Operation::Plus => self.compute_binary(Value::add),
            Operation::Shl => self.compute_binary(Value::shl),
            Operation::Shr => self.compute_binary(Value::shr),
            Operation::Shra => self.compute_binary(Value::shra),
            Operation::Xor => self.compute_binary(Value::xor),
            Operation::Eq => self.compute_binary(Value::eq),
            Operation::Ge => self.compute_binary(Value::ge),
            Operation::Gt => self.compute_binary(Value::gt),
            Operation::Le => self.compute_binary(Value::le),
            Operation::Lt => self.compute_binary(Value::lt),
            Operation::Ne => self.compute_binary(Value::ne),
            Operation::PlusConstant { value } => self.add_constant(value),
            Operation::Bra { target } => self.branch_if(target),
            Operation::Skip { target } => self.take_branch(target),
            Operation::UnsignedConstant { value } => self.push_plain(Value::Generic(value)),
            Operation::SignedConstant { value } => {
                self.push_plain(Value::Generic(value.cast_unsigned()))
            }
            Operation::Register { register } => self.locate(Location::Register { register }),
            Operation::RegisterOffset {
                register,
                offset,
                base_type,
            } => self.ask(EvaluationWaiting::Register {
                register,
                base_type,
                offset,
            }),
            Operation::FrameOffset { offset } => self.ask(EvaluationWaiting::FrameBase { offset }),
            Operation::Nop => self.mark(LastOperation::Plain),
            Operation::PushObjectAddress => self.push_object_address(),
            Operation::Call { offset } => self.ask(EvaluationWaiting::AtLocation(offset)),
            Operation::TLS => self.ask_tls(),
            Operation::CallFrameCFA => self.ask(EvaluationWaiting::CallFrameCfa),
            Operation::Piece {
                size_in_bits,
                bit_offset,
            } => self.add_piece(size_in_bits, bit_offset),
            Operation::ImplicitValue { bytes } => self.locate(Location::Bytes { value: bytes }),
            Operation::StackValue => self.locate_value(),
            Operation::ImplicitPointer { value, byte_offset } => {
                self.locate(Location::ImplicitPointer { value, byte_offset })
            }
            Operation::EntryValue { expression } => {
                self.ask(EvaluationWaiting::EntryValue(expression))
            }
            Operation::ParameterRef { offset } => {
                self.ask(EvaluationWaiting::ParameterRef(offset))
            }
            Operation::Address { address } => {
                self.ask(EvaluationWaiting::RelocatedAddress(address))
            }
            Operation::AddressIndex { index } => self.ask(EvaluationWaiting::IndexedAddress {
                index,
                relocate: true,
            }),
            Operation::ConstantIndex { index } => self.ask(EvaluationWaiting::IndexedAddress {
                index,
                relocate: false,
            }),
            Operation::TypedLiteral { base_type, value } => {
                self.ask(EvaluationWaiting::TypedLiteral { base_type, value })
            }
            Operation::Convert { base_type } => self.ask(EvaluationWaiting::Convert(base_type)),
            Operation::Reinterpret { base_type } => {
                self.ask(EvaluationWaiting::Reinterpret(base_type))
            }
            Operation::Uninitialized => self.fail(Error::UnsupportedEvaluation),
            Operation::WasmLocal { index } => self.ask(EvaluationWaiting::WasmLocal(index)),
            Operation::WasmGlobal { index } => self.ask(EvaluationWaiting::WasmGlobal(index)),
            Operation::WasmStack { index } => self.ask(EvaluationWaiting::WasmStack(index)),
            Operation::VariableValue { offset: _ } => { self.fail(Error::UnsupportedEvaluation) }
        }
    }
}
