//! Laws over the definitions. Each is the contract of a function that does nothing.

ghost use Rattle.std.specs.Prelude.{List, [], ◌∷◌};
ghost use Rattle.dwarf_base.specs.declared.errors.Error.TheVariants.{StackFull};
ghost use Rattle.dwarf_base.specs.Reads.{Text};
ghost use Rattle.dwarf_meaning.specs.Operations.{UnitRef};
ghost use Rattle.dwarf_meaning.specs.declared.kinds.WaitingKind.TheVariants as kind;
ghost use Rattle.dwarf_meaning.specs.Requests.{Request, RequiresCallFrameCfa, NumberAnswer, Input};
ghost use Rattle.dwarf_meaning.specs.Refusals.{After};
ghost use Rattle.dwarf_meaning.specs.Inputs.{fresh_state};
ghost use Rattle.dwarf_meaning.specs.Meaning.{Outcome};
ghost use Rattle.dwarf_meaning.specs.RowWords.{dwarf4};
ghost use Rattle.dwarf_meaning.specs.Steps.{Step, Evaluate, RequestReply, FaultReply};
ghost use Rattle.std.specs.List.{AllZip};
ghost use Rattle.dwarf_meaning.specs.Agreement.{AgreeingSteps};
ghost use Rattle.dwarf_laws.specs.Inlining.{CallSite, outer_text, inlined_text};
ghost use Rattle.dwarf_laws.specs.LawRows.{IsWorked, started_steps};
ghost use Rattle.dwarf_expr.specs.Inlined.{MayInline, InlinedReplay};
ghost use Rattle.dwarf_expr.specs.Outcomes.{EvaluateGives, ResumeGives};
ghost use Rattle.dwarf_expr.specs.Twins.{MayReplay, TwoReplays, MeetRefusal};

use dwarf_base::Reader;
use dwarf_eval::eval::Evaluation;
use dwarf_eval::store::EvaluationStorage;
pub use dwarf_laws::{
    bound_rows, called_rows, high_bits, inlining, premises_of_high_bits, premises_of_inlining,
    tight_bounds, twin_rows,
};
pub use dwarf_meaning::{decode_laws, run_laws, worked_rows};
pub use dwarf_value::value_laws;

/// Bits above the address size change no request, fault, branch or address in a replay.
///
/// It does nothing. Its contract states the law for two evaluations, from what `replay` guarantees for each, whichever
/// way the replays end. It also states that fresh evaluations of one text, such as those of `twin_rows`, meet the
/// premises. The last clause is a worked row: in two evaluations without limits the push of the answer is refused.
pub fn two_replays()
    ensures alike { TwoReplays }
    ensures met { (text : Text) (steps others : List Step)
        → AllZip (AgreeingSteps 32) steps others
        → MayReplay (fresh_state dwarf4 text) (fresh_state dwarf4 text) steps others }
    ensures refused { MeetRefusal (After 1 0) (0x9c ∷ [])
        (started_steps (NumberAnswer kind.CallFrameCfa 0x10 ∷ []))
        (started_steps (NumberAnswer kind.CallFrameCfa 0x100000010 ∷ []))
        (RequestReply RequiresCallFrameCfa ∷ FaultReply StackFull ∷ []) }
{}

/// A called text may be written in place of its call in a replay.
///
/// It does nothing. Its contract states the law for two evaluations, from what `replay` guarantees for each. It also
/// states that fresh evaluations of the texts in `called_rows` meet the premises.
pub fn inlined_replay()
    ensures ends { InlinedReplay }
    ensures met { (site : CallSite) (later : List Input) (after : List Request) (outcome : Outcome)
        → IsWorked site [] later [] after outcome
        → MayInline (fresh_state dwarf4 (outer_text site))
        (fresh_state dwarf4 (inlined_text site)) site
        (UnitRef 5) (Evaluate ∷ []) }
{}

/// What the next call of an evaluation gives, after any answers and settings.
///
/// It does nothing. Its contract states the law of `step_outcome` for `evaluate` at the start, and for the resume that
/// answers a request. Call it in front of the call.
pub fn next_outcome<R: Reader + Copy, S: EvaluationStorage<R>>(evaluation: &Evaluation<R, S>)
    ensures evaluate { EvaluateGives R.text R.Offset.number evaluation.now }
    ensures resume { ResumeGives R.text R.Offset.number evaluation.now }
{}
