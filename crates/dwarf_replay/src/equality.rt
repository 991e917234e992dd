//! Laws of equality.
ghost use Rattle.std.specs.Prelude.{ℕ};
ghost use Rattle.dwarf_base.specs.Equality.{IsEqualityOf};
ghost use Rattle.dwarf_base.specs.Reads.{Text};
ghost use Rattle.dwarf_replay.specs.StepEquality.{outcome_of_step, end_of_replay, reply_or_error};
ghost use Rattle.dwarf_replay.specs.Stepping.{step_of};

use crate::steps::{Answer, Replayed, Step, Stepped};

/// Steps are equal exactly if contracts can't tell them apart, provided that this holds of readers. It does nothing;
/// its contract states the law.
pub fn step_equality_laws<R: Eq>()
    ensures { (text : R → Text) → IsEqualityOf text R.PartialEq.eq
        → IsEqualityOf (step_of text) ⟦<Step<R> as PartialEq>⟧.eq }
{}

/// Results of calls, steps and replays are equal exactly if contracts can't tell them apart, provided that this holds
/// of readers and offsets. It does nothing; its contract states the laws.
pub fn answer_equality_laws<R: Eq, O: Eq>()
    ensures answer { (text : R → Text) (number : O → ℕ) → IsEqualityOf text R.PartialEq.eq
        → IsEqualityOf number O.PartialEq.eq
        → IsEqualityOf
        (λ answer. reply_or_error text number answer.0) ⟦<Answer<R, O> as PartialEq>⟧.eq }
    ensures stepped { (text : R → Text) (number : O → ℕ) → IsEqualityOf text R.PartialEq.eq
        → IsEqualityOf number O.PartialEq.eq
        → IsEqualityOf (outcome_of_step text number) ⟦<Stepped<R, O> as PartialEq>⟧.eq }
    ensures replayed { (text : R → Text) (number : O → ℕ) → IsEqualityOf text R.PartialEq.eq
        → IsEqualityOf number O.PartialEq.eq
        → IsEqualityOf (end_of_replay text number) ⟦<Replayed<R, O> as PartialEq>⟧.eq }
{}
