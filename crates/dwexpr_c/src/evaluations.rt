//! The calls on an evaluation in the caller's memory (DWARF 5, sections 2.5 and 2.6).

ghost use Rattle.dwarf_eval.specs.Evaluation.{IsAddressSize, IsComplete, IsReplied, reply_of};
ghost use Rattle.dwarf_meaning.specs.Inputs.{fresh_state};
ghost use Rattle.dwarf_meaning.specs.Rest.{Start};
ghost use Rattle.dwexpr_c.specs.Answered.{GoesOn, HasResumed, ShowsCall, outcome_at};
ghost use Rattle.dwexpr_c.specs.CallerTexts.{IsGiven, text_at, text_of_placed};
ghost use Rattle.dwexpr_c.specs.Encodings.{IsEncoding, encoding_in, is_big_in};
ghost use Rattle.dwexpr_c.specs.Evaluated.{Evaluates, EvaluatesFirst, limited_setup};
ghost use Rattle.dwexpr_c.specs.Held.{HasCapacities, HasDone, IsBegun, IsUnstarted, StandsAfterFirst};
ghost use Rattle.dwexpr_c.specs.Outcomes.{ended_outcome};
ghost use Rattle.dwexpr_c.specs.Owned.{held_row};
ghost use Rattle.dwexpr_c.specs.Settings.{steps_in};
ghost use Rattle.dwexpr_c.specs.declared.faults.TheConstants as codes;
ghost use Rattle.std.specs.Mem.{type_size};
ghost use Rattle.std.specs.Prelude.{IsSomeAnd, None, ◌≡◌};

use crate::answers::{DwexprAnswer, Reply, resume_with};
use crate::encodings::{DwexprEncoding, reading_of};
use crate::faults::{BAD_ENCODING, BAD_TEXT, FaultNumbers, LOST_TEXT, code_alone, numbers_of};
use crate::memory::{DwexprEvaluation, Held, fresh_held};
use crate::outcomes::{DwexprOutcome, show_complete, show_end, show_request};
use crate::pieces::{DwexprPiece, write_pieces};
use crate::places::Placed;
use crate::settings::DwexprSettings;
use crate::texts::{DwexprText, text_at};
use dwarf_base::{Encoding, RunTimeEndian};
use dwarf_eval::eval::Evaluation;
use dwarf_eval::op::EvaluationResult;
use dwarf_eval::store::EvaluationStorage;

/// Shows a fault, or that an argument isn't allowed.
#[cold]
#[inline(never)]
fn end(fault: FaultNumbers, outcome: &mut DwexprOutcome)
    ensures { outcome.new ≡ ended_outcome fault.code fault.number }
{
    *outcome = show_end(fault);
}

/// Shows the value and the pieces of a complete evaluation. If none of the texts has the bytes of a piece, it shows
/// that.
#[inline(always)]
fn show_results<'a, S: EvaluationStorage<Placed<'a>>>(
    evaluation: &Evaluation<Placed<'a>, S>,
    texts: &[DwexprText<'a>],
    outcome: &mut DwexprOutcome,
    places: &mut [DwexprPiece],
)
    requires { IsComplete evaluation.now.status }
    ensures { ShowsCall texts.now (outcome_at evaluation.now) outcome.new places.old places.new }
{
    let pieces = evaluation.as_result();
    *outcome = show_complete(pieces.len(), evaluation.value_result());
    if !write_pieces(texts, pieces, places) {
        end(code_alone(LOST_TEXT), outcome);
    }
}

/// Shows what a call replied: a request, the results, or a fault.
#[inline(always)]
fn show_reply<'a, S: EvaluationStorage<Placed<'a>>>(
    evaluation: &Evaluation<Placed<'a>, S>,
    texts: &[DwexprText<'a>],
    reply: Reply<'a>,
    outcome: &mut DwexprOutcome,
    places: &mut [DwexprPiece],
)
    requires { IsReplied (reply_of text_of_placed (λ x. x) reply) evaluation.now.status }
    ensures { ShowsCall texts.now (outcome_at evaluation.now) outcome.new places.old places.new }
{
    match reply {
        Ok(EvaluationResult::Complete) => show_results(evaluation, texts, outcome, places),
        Ok(request) => {
            if !show_request(texts, request, outcome) {
                end(code_alone(LOST_TEXT), outcome);
            }
        }
        Err(error) => end(numbers_of(error), outcome),
    }
}

/// Applies the settings to a fresh evaluation, and starts it.
#[inline(always)]
fn start<'a, S: EvaluationStorage<Placed<'a>>>(
    evaluation: &mut Evaluation<Placed<'a>, S>,
    settings: &DwexprSettings,
) -> Reply<'a>
    requires fresh { evaluation.old.status ≡ Start None }
    requires capacities { HasCapacities evaluation.old }
    ensures done { HasDone evaluation.old (steps_in settings.now) evaluation.new }
    ensures replied { IsReplied (reply_of text_of_placed (λ x. x) result) evaluation.new.status }
{
    evaluation.set_max_iterations(settings.max_iterations);
    if settings.has_object_address != 0 {
        evaluation.set_object_address(settings.object_address);
    }
    if settings.has_initial_value != 0 {
        evaluation.set_initial_value(settings.initial_value);
    }
    evaluation.evaluate()
}

/// Starts a fresh evaluation with the settings, and shows its reply.
#[inline(always)]
fn evaluate<'a, S: EvaluationStorage<Placed<'a>>>(
    evaluation: &mut Evaluation<Placed<'a>, S>,
    texts: &[DwexprText<'a>],
    settings: &DwexprSettings,
    outcome: &mut DwexprOutcome,
    places: &mut [DwexprPiece],
)
    requires fresh { evaluation.old.status ≡ Start None }
    requires capacities { HasCapacities evaluation.old }
    requires given { IsGiven texts.now evaluation.old.text.bytes }
    ensures evaluates { Evaluates evaluation.old texts.now (steps_in settings.now) outcome.new
        places.old places.new }
    ensures done { HasDone evaluation.old (steps_in settings.now) evaluation.new }
{
    let reply = start(evaluation, settings);
    show_reply(evaluation, texts, reply, outcome, places);
}

/// Makes the held evaluation a fresh one of this text.
#[inline(always)]
fn restart<'a>(held: &mut Held<'a>, text: Placed<'a>, encoding: Encoding, order: RunTimeEndian)
    requires capacities { HasCapacities held.old.evaluation }
    requires address_size { IsAddressSize encoding.address_size }
    ensures order { held.new.order ≡ order }
    ensures fresh { held.new.evaluation
        ≡ fresh_state (limited_setup encoding) (text_of_placed text.entry) }
{
    held.order = order;
    held.evaluation.restart(text, encoding);
}

/// Restarts the held evaluation with the first of the texts and the settings, and shows the reply.
fn evaluate_first<'a>(
    held: &mut Held<'a>,
    texts: &[DwexprText<'a>],
    numbers: DwexprEncoding,
    settings: &DwexprSettings,
    outcome: &mut DwexprOutcome,
    places: &mut [DwexprPiece],
)
    requires { HasCapacities held.old.evaluation }
    ensures capacities { HasCapacities held.new.evaluation }
    ensures encoding { (IsEncoding numbers → ⊥)
        → (outcome.new ≡ ended_outcome codes.BAD_ENCODING 0) × (places.new ≡ places.old)
        × (held.new ≡ held.old) }
    ensures evaluates { IsEncoding numbers
        → EvaluatesFirst (encoding_in numbers) (text_at (is_big_in numbers) texts.now 0) texts.now
        (steps_in settings.now) outcome.new places.old places.new }
    ensures stands { IsEncoding numbers
        → StandsAfterFirst (encoding_in numbers) (text_at (is_big_in numbers) texts.now 0)
        (steps_in settings.now) held.old held.new }
{
    match reading_of(numbers) {
        None => end(code_alone(BAD_ENCODING), outcome),
        Some((encoding, order)) => match text_at(texts, order, 0) {
            None => end(code_alone(BAD_TEXT), outcome),
            Some(text) => {
                restart(held, text, encoding, order);
                evaluate(&mut held.evaluation, texts, settings, outcome, places);
            }
        },
    }
}

/// Goes on with an answer, and shows the reply.
#[inline(always)]
fn resume(
    held: &mut Held<'static>,
    texts: &[DwexprText<'static>],
    answer: &DwexprAnswer,
    outcome: &mut DwexprOutcome,
    places: &mut [DwexprPiece],
)
    requires { HasCapacities held.old.evaluation }
    ensures resumes { HasResumed texts.now answer.now held.old held.new outcome.new places.old places.new }
    ensures capacities { HasCapacities held.new.evaluation }
{
    match resume_with(&mut held.evaluation, texts, held.order, answer) {
        Ok(reply) => show_reply(&held.evaluation, texts, reply, outcome, places),
        Err(code) => end(code_alone(code), outcome),
    }
}

/// The number of bytes that a held evaluation takes.
#[unsafe(no_mangle)]
pub extern "C" fn dwexpr_evaluation_size() -> usize
    ensures { result ≡ type_size held_row }
{
    size_of::<Held<'static>>()
}

/// Makes an evaluation in the memory, which can then be started.
#[unsafe(no_mangle)]
pub extern "C" fn dwexpr_evaluation_begin(evaluation: &mut DwexprEvaluation)
    requires { evaluation.old.held ≡ None }
    ensures begun { IsBegun evaluation.new.held }
    ensures unstarted { IsSomeAnd evaluation.new.held (λ held. IsUnstarted held) }
{
    evaluation.fill(fresh_held());
}

/// Evaluates the first of the texts, with settings, to a request or to the end (DWARF 5, sections 2.5 and 2.6).
///
/// It returns 0, the code of a fault of the expression, 1 to 21, or of an argument, 64 and above. `outcome` is always
/// written, and its `code` is the code that is returned. If the code is 0, `outcome` shows a request, or completion
/// with the value; then as many pieces are written as there is room for.
#[unsafe(no_mangle)]
pub extern "C" fn dwexpr_evaluation_evaluate(
    evaluation: &mut DwexprEvaluation,
    texts: &[DwexprText<'static>],
    encoding: DwexprEncoding,
    settings: &DwexprSettings,
    outcome: &mut DwexprOutcome,
    pieces: &mut [DwexprPiece],
) -> u32
    requires { IsBegun evaluation.old.held }
    ensures begun { IsBegun evaluation.new.held }
    ensures code { result ≡ outcome.new.code }
    ensures encoding { (IsEncoding encoding → ⊥)
        → (outcome.new ≡ ended_outcome codes.BAD_ENCODING 0) × (pieces.new ≡ pieces.old)
        × (evaluation.new.held ≡ evaluation.old.held) }
    ensures evaluates { IsEncoding encoding
        → EvaluatesFirst (encoding_in encoding) (text_at (is_big_in encoding) texts.now 0) texts.now
        (steps_in settings.now) outcome.new pieces.old pieces.new }
    ensures starts { IsEncoding encoding
        → IsSomeAnd evaluation.old.held
        (λ before. IsSomeAnd evaluation.new.held
        (λ after. StandsAfterFirst (encoding_in encoding) (text_at (is_big_in encoding) texts.now 0)
        (steps_in settings.now) before after)) }
{
    evaluate_first(evaluation.get(), texts, encoding, settings, outcome, pieces);
    outcome.code
}

/// Goes on with the answer to what an evaluation asked (DWARF 5, section 2.5).
///
/// It returns 0, or the code of a fault of the expression or of an argument. `outcome` is always written. If the code
/// is 0, it shows the next request, or completion; then as many pieces are written as there is room for. If bytes of a
/// request or of a piece are in none of the texts, the code is 69, and the pieces before it may be written.
#[unsafe(no_mangle)]
pub extern "C" fn dwexpr_evaluation_resume(
    evaluation: &mut DwexprEvaluation,
    texts: &[DwexprText<'static>],
    answer: DwexprAnswer,
    outcome: &mut DwexprOutcome,
    pieces: &mut [DwexprPiece],
) -> u32
    requires { IsBegun evaluation.old.held }
    ensures begun { IsBegun evaluation.new.held }
    ensures code { result ≡ outcome.new.code }
    ensures resumes { IsSomeAnd evaluation.old.held
        (λ before. IsSomeAnd evaluation.new.held
        (λ after. HasResumed texts.now answer before after outcome.new pieces.old pieces.new)) }
    ensures goes_on { IsSomeAnd evaluation.old.held
        (λ before. IsSomeAnd evaluation.new.held
        (λ after. GoesOn texts.now answer before after outcome.new pieces.old pieces.new)) }
{
    resume(evaluation.get(), texts, &answer, outcome, pieces);
    outcome.code
}
