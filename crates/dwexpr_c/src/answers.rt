//! Answers as numbers, and the resumes that take them.

ghost use Rattle.std.specs.Prelude.{◌≡◌, Err, IfErr, IfOk, IsOkAnd, ok_or};
ghost use Rattle.dwarf_base.specs.ByteOrder.{is_big_of};
ghost use Rattle.dwarf_meaning.specs.Steps.{Resume};
ghost use Rattle.dwarf_replay.specs.Stepping.{HasReplied, step_of};
ghost use Rattle.dwexpr_c.specs.Answered.{IsRefused};
ghost use Rattle.dwexpr_c.specs.CallerTexts as caller;
ghost use Rattle.dwexpr_c.specs.CallerTexts.{text_of_placed};
ghost use Rattle.dwexpr_c.specs.CodedValues.{type_coded, value_coded};
ghost use Rattle.dwexpr_c.specs.Outcomes.{answer_coded};
ghost use Rattle.dwexpr_c.specs.declared.faults.TheConstants as codes;

use crate::answer_kinds;
use crate::faults::{BAD_ANSWER, BAD_TEXT, MISPLACED};
use crate::places::Placed;
use crate::texts::{DwexprText, text_at};
use crate::values::{type_of_code, value_of};
use dwarf_base::{Error, RunTimeEndian};
use dwarf_eval::eval::Evaluation;
use dwarf_eval::op::EvaluationResult;
use dwarf_eval::store::EvaluationStorage;
use dwarf_replay::{Step, Stepped, take_step};
use dwarf_value::{Value, ValueType};

/// The answer to a request, as a caller's numbers. Any of them may be wrong.
#[repr(C)]
#[derive(Clone, Copy)]
pub struct DwexprAnswer {
    /// Its kind.
    pub kind: u32,
    /// The type of a value, or the base type.
    pub value_type: u32,
    /// A number, or the lowest bits of a value.
    pub number: u64,
    /// The index of a text.
    pub text: usize,
}

/// The reply of a call of an evaluation.
pub(crate) type Reply<'a> = Result<EvaluationResult<Placed<'a>>, Error>;

/// The value of an answer, or `BAD_ANSWER` if its numbers stand for no value.
#[inline(always)]
fn value_in(answer: &DwexprAnswer) -> Result<Value, u32>
    ensures { result ≡ ok_or (value_coded answer.now.value_type answer.now.number) codes.BAD_ANSWER }
{
    value_of(answer.value_type, answer.number).ok_or(BAD_ANSWER)
}

/// The type of an answer, or `BAD_ANSWER` if its number stands for no type.
#[inline(always)]
fn type_in(answer: &DwexprAnswer) -> Result<ValueType, u32>
    ensures { result ≡ ok_or (type_coded answer.now.value_type) codes.BAD_ANSWER }
{
    type_of_code(answer.value_type).ok_or(BAD_ANSWER)
}

/// The text of an answer, or `BAD_TEXT` if there is no text at its index.
#[inline(always)]
fn text_in<'a>(
    texts: &[DwexprText<'a>],
    order: RunTimeEndian,
    answer: &DwexprAnswer,
) -> Result<Placed<'a>, u32>
    ensures ok { IfOk result
        (λ placed. caller.text_at (is_big_of order) texts.now answer.now.text ≡ Some (text_of_placed placed)) }
    ensures err { IfErr result
        (λ code. (code ≡ codes.BAD_TEXT) × (caller.text_at (is_big_of order) texts.now answer.now.text ≡ None)) }
{
    text_at(texts, order, answer.text).ok_or(BAD_TEXT)
}

/// The step that takes the answer, or a code if the numbers stand for no answer.
#[inline(always)]
fn step_in<'a>(
    texts: &[DwexprText<'a>],
    order: RunTimeEndian,
    answer: &DwexprAnswer,
) -> Result<Step<Placed<'a>>, u32>
    ensures ok { IfOk result
        (λ step. IsOkAnd (answer_coded (is_big_of order) texts.now answer.now)
        (λ said. step_of text_of_placed step ≡ Resume said)) }
    ensures err { IfErr result
        (λ code. answer_coded (is_big_of order) texts.now answer.now ≡ Err code) }
{
    let number = answer.number;
    Ok(match answer.kind {
        answer_kinds::ANSWER_MEMORY => Step::Memory(value_in(answer)?),
        answer_kinds::ANSWER_REGISTER => Step::Register(value_in(answer)?),
        answer_kinds::ANSWER_WASM => Step::WasmValue(value_in(answer)?),
        answer_kinds::ANSWER_ENTRY_VALUE => Step::EntryValue(value_in(answer)?),
        answer_kinds::ANSWER_FRAME_BASE => Step::FrameBase(number),
        answer_kinds::ANSWER_TLS => Step::Tls(number),
        answer_kinds::ANSWER_CFA => Step::CallFrameCfa(number),
        answer_kinds::ANSWER_PARAMETER => Step::ParameterRef(number),
        answer_kinds::ANSWER_RELOCATED => Step::RelocatedAddress(number),
        answer_kinds::ANSWER_INDEXED => Step::IndexedAddress(number),
        answer_kinds::ANSWER_LOCATION => Step::AtLocation(text_in(texts, order, answer)?),
        answer_kinds::ANSWER_BASE_TYPE => Step::BaseType(type_in(answer)?),
        _ => return Err(BAD_ANSWER),
    })
}

/// Goes on with an answer, and returns the reply. If the numbers stand for no answer, or the answer isn't allowed, it
/// changes nothing and returns a code.
#[inline(always)]
pub(crate) fn resume_with<'a, S: EvaluationStorage<Placed<'a>>>(
    evaluation: &mut Evaluation<Placed<'a>, S>,
    texts: &[DwexprText<'a>],
    order: RunTimeEndian,
    answer: &DwexprAnswer,
) -> Result<Reply<'a>, u32>
    ensures ok { IfOk result
        (λ reply. IsOkAnd (answer_coded (is_big_of order) texts.now answer.now)
        (λ said. HasReplied text_of_placed (λ x. x) (Resume said) evaluation.old evaluation.new reply)) }
    ensures err { IfErr result
        (λ code. IsRefused (answer_coded (is_big_of order) texts.now answer.now) code evaluation.old.status
        × (evaluation.new ≡ evaluation.old)) }
{
    match take_step(evaluation, step_in(texts, order, answer)?) {
        Stepped::Answered(reply) => Ok(reply.0),
        Stepped::Misplaced | Stepped::Set => Err(MISPLACED),
    }
}
