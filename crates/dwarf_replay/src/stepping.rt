//! One step of an evaluation.

ghost use Rattle.dwarf_replay.specs.Stepping.{IsStepped, step_of};

use crate::steps::{Answer, Step, Stepped};
use dwarf_base::Reader;
use dwarf_eval::eval::{Evaluation, Status, WaitingKind};
use dwarf_eval::store::EvaluationStorage;

/// Takes one step of an evaluation, if it is allowed (DWARF 5, section 2.5).
///
/// `Misplaced`: the evaluation doesn't allow the step now, and nothing is changed. `Set`: the setting is in force.
/// `Answered`: the result of `evaluate` or of the step's resume, which may be a fault.
pub fn take_step<R: Reader + Copy, S: EvaluationStorage<R>>(
    eval: &mut Evaluation<R, S>,
    step: Step<R>,
) -> Stepped<R>
    ensures { IsStepped R.text R.Offset.number
        (step_of R.text step) eval.old eval.new result }
{
    match step {
        Step::InitialValue(value) if matches!(eval.status(), Status::Start { initial: false }) => {
            eval.set_initial_value(value);
            Stepped::Set
        }
        Step::ObjectAddress(address) => {
            eval.set_object_address(address);
            Stepped::Set
        }
        Step::MaxIterations(maximum) => {
            eval.set_max_iterations(maximum);
            Stepped::Set
        }
        Step::Evaluate if !matches!(eval.status(), Status::Waiting(_)) => {
            Stepped::Answered(Answer(eval.evaluate()))
        }
        Step::Memory(value) if eval.is_open_for(WaitingKind::Memory) => {
            Stepped::Answered(Answer(eval.resume_with_memory(value)))
        }
        Step::Register(value) if eval.is_open_for(WaitingKind::Register) => {
            Stepped::Answered(Answer(eval.resume_with_register(value)))
        }
        Step::WasmValue(value) if eval.is_open_for(WaitingKind::WasmValue) => {
            Stepped::Answered(Answer(eval.resume_with_wasm_value(value)))
        }
        Step::EntryValue(value) if eval.is_open_for(WaitingKind::EntryValue) => {
            Stepped::Answered(Answer(eval.resume_with_entry_value(value)))
        }
        Step::FrameBase(frame_base) if eval.is_open_for(WaitingKind::FrameBase) => {
            Stepped::Answered(Answer(eval.resume_with_frame_base(frame_base)))
        }
        Step::Tls(address) if eval.is_open_for(WaitingKind::Tls) => {
            Stepped::Answered(Answer(eval.resume_with_tls(address)))
        }
        Step::CallFrameCfa(address) if eval.is_open_for(WaitingKind::CallFrameCfa) => {
            Stepped::Answered(Answer(eval.resume_with_call_frame_cfa(address)))
        }
        Step::ParameterRef(number) if eval.is_open_for(WaitingKind::ParameterRef) => {
            Stepped::Answered(Answer(eval.resume_with_parameter_ref(number)))
        }
        Step::RelocatedAddress(address) if eval.is_open_for(WaitingKind::RelocatedAddress) => {
            Stepped::Answered(Answer(eval.resume_with_relocated_address(address)))
        }
        Step::IndexedAddress(number) if eval.is_open_for(WaitingKind::IndexedAddress) => {
            Stepped::Answered(Answer(eval.resume_with_indexed_address(number)))
        }
        Step::AtLocation(callee) if eval.is_open_for(WaitingKind::AtLocation) => {
            Stepped::Answered(Answer(eval.resume_with_at_location(callee)))
        }
        Step::BaseType(base_type) if eval.is_open_for(WaitingKind::BaseType) => {
            Stepped::Answered(Answer(eval.resume_with_base_type(base_type)))
        }
        _ => Stepped::Misplaced,
    }
}
