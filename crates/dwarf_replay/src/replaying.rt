ghost use Rattle.std.specs.Prelude.{◌≡◌, []};
ghost use Rattle.dwarf_meaning.specs.Bounds.{Spends};
ghost use Rattle.dwarf_meaning.specs.Rest.{Start};
ghost use Rattle.dwarf_replay.specs.Continuing.{Leaves, done_replies, done_steps, initial_items};
ghost use Rattle.dwarf_replay.specs.Replays.{Replays};

use crate::stepping::take_step;
use crate::steps::{Answer, Replayed, Step, Stepped};
use dwarf_base::Reader;
use dwarf_eval::eval::Evaluation;
use dwarf_eval::store::{ArrayLike, EvaluationStorage};

/// Does the steps in order, and appends the result of each `Evaluate` and each answer to `answers` (DWARF 5, section
/// 2.5).
///
/// The evaluation has to be fresh, though an object address or a maximum may be set. `answers` has to be empty. In all
/// three cases the caller may go on with the evaluation.
///
/// `Done`: all steps were done. `Misplaced`: the step at this index isn't allowed after those before it, which were
/// done. `NoRoom`: the step at this index was done, but `answers` had no room for its result, which is handed back.
pub fn replay<R: Reader + Copy, S: EvaluationStorage<R>, L: ArrayLike<Item = Answer<R>>>(
    eval: &mut Evaluation<R, S>,
    steps: &[Step<R>],
    answers: &mut L,
) -> Replayed<R>
    requires fresh { eval.old.status ≡ Start None }
    requires empty { L.items answers.old ≡ [] }
    ensures replays { Replays R.text R.Offset.number
        (L.limit answers.old) eval.old steps.now (L.items answers.new) eval.new result }
    ensures spends { Spends (initial_items (done_steps R.text steps.now result))
        eval.old eval.new }
    ensures leaves { Leaves eval.old (done_steps R.text steps.now result)
        (done_replies R.text R.Offset.number (L.items answers.new) result)
        eval.new eval.new.status }
    ensures limit { L.limit answers.new ≡ L.limit answers.old }
{
    let mut index = 0;
    while index < steps.len() {
        match take_step(eval, steps[index]) {
            Stepped::Misplaced => return Replayed::Misplaced(index),
            Stepped::Set => {}
            Stepped::Answered(answer) => {
                if let Err(answer) = answers.push(answer) {
                    return Replayed::NoRoom { index, answer };
                }
            }
        }
        index += 1;
    }
    Replayed::Done
}
