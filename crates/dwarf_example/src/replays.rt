//! A replay that ends for every expression.

ghost use Rattle.std.specs.Prelude.{◌≡◌, [], None};
ghost use Rattle.dwarf_expr.specs.Evaluation.{with_maximum};
ghost use Rattle.dwarf_expr.specs.Replays.{Replays};
ghost use Rattle.dwarf_expr.specs.Rest.{Start};

use dwarf_expr::base::Reader;
use dwarf_expr::eval::Evaluation;
use dwarf_expr::replay::{Answer, Replayed, Step, replay};
use dwarf_expr::store::{ArrayLike, EvaluationStorage};

/// Does the steps with at most `most` operations, and keeps their replies.
pub fn replay_bounded<R: Reader + Copy, S: EvaluationStorage<R>, L: ArrayLike<Item = Answer<R>>>(
    evaluation: &mut Evaluation<R, S>,
    most: u32,
    steps: &[Step<R>],
    replies: &mut L,
) -> Replayed<R>
    requires fresh { evaluation.old.status ≡ Start None }
    requires empty { L.items replies.old ≡ [] }
    ensures { Replays R.text R.Offset.number (L.limit replies.old) (with_maximum most evaluation.old)
        steps.now (L.items replies.new) evaluation.new result }
{
    evaluation.set_max_iterations(most);
    replay(evaluation, steps, replies)
}
