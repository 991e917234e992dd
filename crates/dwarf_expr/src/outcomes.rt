//! What the calls of an evaluation give, by the meaning of its text.

ghost use Rattle.std.specs.Prelude.{None};
ghost use Rattle.dwarf_meaning.specs.RowWords.{unset};
ghost use Rattle.dwarf_meaning.specs.Stores.{setup_of};
ghost use Rattle.dwarf_replay.specs.Stepping.{step_of};
ghost use Rattle.dwarf_expr.specs.Outcomes.{IsResultOf, GivesOutcome, inputs_in, outcome_of};

use dwarf_base::{Encoding, Reader, Result};
use dwarf_eval::eval::Evaluation;
use dwarf_eval::op::EvaluationResult;
use dwarf_eval::store::EvaluationStorage;
use dwarf_replay::Step;

/// What a call gave, if nothing is set: `evaluate` at the start, or the resume after one request.
///
/// It does nothing. Its contract states a law: the call gave the outcome that the meaning has for the answer, if no list
/// has a limit and no push is refused, or it gave `StackFull`, if a push is refused. Call it after the call.
pub fn step_outcome<R: Reader + Copy, S: EvaluationStorage<R>>(
    evaluation: &Evaluation<R, S>,
    replied: &Result<EvaluationResult<R>>,
    bytecode: R,
    encoding: Encoding,
    step: Step<R>,
)
    requires { IsResultOf R.text R.Offset.number (setup_of encoding R.Offset.BITS None None None) (R.text bytecode)
        (step_of R.text step) replied.now evaluation.now }
    ensures { GivesOutcome R.text R.Offset.number (setup_of encoding R.Offset.BITS None None None) (R.text bytecode) unset
        (inputs_in (step_of R.text step))
        (outcome_of (setup_of encoding R.Offset.BITS None None None) (R.text bytecode) (inputs_in (step_of R.text step)))
        replied.now evaluation.now }
{}
